//! A move that seems to win at once. It only chooses what is tried first.

ghost use Rattle.std.specs.Prelude.{◌<◌, length};

use hive_model::{Game, Move, MoveStack, Piece, Place};

/// The place of the first move of a level that seems to win at once. Such a move fills the one
/// empty place beside the queen of the side that does not move.
pub fn likely_win<G: Game>(game: &G, stack: &MoveStack, level: u32) -> Option<u32>
    requires { level < length stack.now.lists }
{
    let queen = game.side().other().queen();
    let home = besieged_home(game, queen)?;
    for i in 0..stack.level_len(level) {
        if fills(game, stack.get(level, i), queen, home) {
            return Some(i);
        }
    }
    None
}

/// The queen's place, if all its neighbours but one are occupied.
fn besieged_home<G: Game>(game: &G, queen: Piece) -> Option<Place> {
    match game.spot(queen) {
        Some(spot) => {
            if game.neighbours(spot.place).count_ones() == 5 {
                Some(spot.place)
            } else {
                None
            }
        }
        None => None,
    }
}

/// Whether a move of a piece other than the queen goes to an empty place beside her place, and
/// leaves none empty there.
fn fills<G: Game>(game: &G, m: Move, queen: Piece, home: Place) -> bool {
    let Move::To { piece, place } = m else {
        return false;
    };
    if piece == queen || !are_beside(place, home) || game.height(place) > 0 {
        return false;
    }
    match game.spot(piece) {
        Some(from) => !are_beside(from.place, home) || game.height(from.place) > 1,
        None => true,
    }
}

/// Whether two places are neighbours.
fn are_beside(a: Place, b: Place) -> bool {
    let q = i64::from(a.q) - i64::from(b.q);
    let r = i64::from(a.r) - i64::from(b.r);
    matches!(
        (q, r),
        (1, 0) | (1, -1) | (0, -1) | (-1, 0) | (-1, 1) | (0, 1)
    )
}
