//! Laws of the definitions, as contracts of functions that do nothing.
//!
//! Each rule is defined twice: as a relation in the rule's own words, and as a test that computes.
//! The list of legal moves is made with the tests. A law says that relation and test agree, so that
//! a contract which cites a test states the rule.

ghost use Rattle.hive_model.specs.Laws.{
  NeighboursAreTested,
  OneHiveIsTested,
  SeparatingIsTested,
  CutIsTested,
  GroundStepIsTested,
  ClimbingStepIsTested,
  FreeStepIsTested,
  ReachIsTested,
  CopiesAreTested,
  MovesAsIsTested,
};
ghost use Rattle.hive_model.specs.Laws.{
  InHandIsTested,
  LeastInHandIsTested,
  NextIsLeast,
  NextMayBeNone,
  MayPlaceIsTested,
  PlacementIsTested,
  ThrowerIsTested,
  ThrowOverIsTested,
  ThrowIsTested,
  WalkIsTested,
  SurroundedIsTested,
  OverIsTested,
};
ghost use Rattle.hive_model.specs.Laws.{
  LegalPairIsTested,
  LegalPairIsNear,
  MovesAreLegal,
  MovesRise,
  PassIsAlone,
  OverHasNoMoves,
  MovesHavePieces,
  PutKeepsBoards,
  LiftKeepsBoards,
  FloodsFindWays,
  PlacesAreSettled,
  MovesAreSettled,
  ListedMovesAreTested,
};
ghost use Rattle.hive_model.specs.SameKeys.{KeysAreCompared};

/// The tests of neighbours, of one hive, of separating places and of cut places. A place is
/// separating if the board without its pieces is not one hive. A cut place is a separating place of
/// height 1.
pub fn hives_are_tested()
    ensures neighbours { NeighboursAreTested }
    ensures one_hive { OneHiveIsTested }
    ensures separating { SeparatingIsTested }
    ensures cut { CutIsTested }
{}

/// The tests of a step to a neighbour: a ground step between empty places, a climbing step, and a
/// step that is not blocked by two higher neighbours (a gate).
pub fn steps_are_tested()
    ensures on_ground { GroundStepIsTested }
    ensures climbing { ClimbingStepIsTested }
    ensures free { FreeStepIsTested }
{}

/// The test of the places that a bug of each kind moves to.
pub fn reach_is_tested()
    ensures { ReachIsTested }
{}

/// The tests of what a mosquito copies, and of the places that any kind of bug moves to.
pub fn copies_are_tested()
    ensures copies { CopiesAreTested }
    ensures moves { MovesAsIsTested }
{}

/// The tests of placements: which pieces are in hand, which is next of its kind, on which places a
/// side may place, and which piece may be placed there.
pub fn placements_are_tested()
    ensures in_hand { InHandIsTested }
    ensures least { LeastInHandIsTested }
    ensures next { NextIsLeast }
    ensures no_next { NextMayBeNone }
    ensures place { MayPlaceIsTested }
    ensures placement { PlacementIsTested }
{}

/// The tests of throws: which piece is a thrower, what it throws to which place, and whether the
/// side to move throws a piece to a place.
pub fn throws_are_tested()
    ensures thrower { ThrowerIsTested }
    ensures over { ThrowOverIsTested }
    ensures throw { ThrowIsTested }
{}

/// The test of a move of the mover's own piece by the rule of its kind.
pub fn walks_are_tested()
    ensures { WalkIsTested }
{}

/// The tests of the end of a game: a surrounded queen.
pub fn ends_are_tested()
    ensures surrounded { SurroundedIsTested }
    ensures over { OverIsTested }
{}

/// The test of a legal pair of a piece and a place. Such a pair ends on a near place.
pub fn legal_pairs_are_near()
    ensures tested { LegalPairIsTested }
    ensures near { LegalPairIsNear }
{}

/// The list of legal moves has the legal moves and no others, in order and each once. It is the
/// pass alone if no piece can move, and it is empty if the game is over.
pub fn moves_are_legal()
    ensures legal { MovesAreLegal }
    ensures order { MovesRise }
    ensures pass { PassIsAlone }
    ensures over { OverHasNoMoves }
    ensures pieces { MovesHavePieces }
{}

/// Putting or lifting a piece keeps a board a board: each piece is on it once, and no stack is
/// empty.
pub fn boards_are_kept()
    ensures put { PutKeepsBoards }
    ensures lift { LiftKeepsBoards }
{}

/// The bounded search over a list of places finds a place exactly if a way over the list leads to
/// it.
pub fn floods_find_ways()
    ensures { FloodsFindWays }
{}

/// Two lists of places, or of moves, that are in strict order and have the same members are equal.
pub fn members_settle_lists()
    ensures places { PlacesAreSettled }
    ensures moves { MovesAreSettled }
{}

/// The test of whether a move is on the list of legal moves.
pub fn listed_moves_are_tested()
    ensures { ListedMovesAreTested }
{}

/// `==` of keys holds exactly if the two are equal in all that contracts see of them.
pub fn keys_are_compared()
    ensures { KeysAreCompared }
{}
