//! Laws of positions that are far from a win or a loss, as contracts of functions that do nothing.

ghost use Rattle.win_bounds.specs.Laws.{
  FarIsTested,
  FarMovesDoNotSurround,
  FarIsNotWon,
  SafetyIsTested,
  SafeMovesDoNotSurround,
  SafeIsNotLost,
};

/// The test of being far from a win holds if and only if the other side's queen is in hand or out
/// of reach. On the board, out of reach means that at most four places around her are occupied.
/// Also, no pillbug or mosquito of the side to move beside her has a hole beside it. If the test
/// holds, no legal move surrounds her. With one ply to search the position is then worth at most
/// 1,000 to the side to move.
pub fn far_positions_are_not_won()
    ensures tested { FarIsTested }
    ensures moves { FarMovesDoNotSurround }
    ensures worth { FarIsNotWon }
{}

/// The test of being far from a loss holds if and only if the side's own queen is on the ground and
/// out of reach. Then no legal move surrounds her, and with one ply to search the position is worth
/// at least -1,000 to the side to move.
pub fn safe_positions_are_not_lost()
    ensures tested { SafetyIsTested }
    ensures moves { SafeMovesDoNotSurround }
    ensures worth { SafeIsNotLost }
{}
