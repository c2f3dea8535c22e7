//! Laws of positions and games, each the contract of a function that does nothing.
//!
//! They state what a legal move does to a sound position, and what every game keeps. They bound how
//! far apart the places of one hive are, and say what the rules amount to in a player's words.
#![tactic(auto)]

mod readings;
mod spans;

ghost use Rattle.rule_laws.specs.Soundness.{
  OpeningsAreSound,
  LegalMovesKeepSoundness,
  ListedMovesKeepSoundness,
  GamesAreSound,
  GamesCountPlies,
};

pub use readings::{
    evaluations_count_the_type, games_begin_and_go_on, near_places_are_beside, queens_come_first,
};
pub use spans::hives_are_short;

/// The opening of every game type is a sound position, and no coordinate of a piece on its board
/// exceeds 0 in absolute value.
pub fn openings_are_sound()
    ensures { OpeningsAreSound }
{}

/// A legal move of a sound position leads to a sound position. Each piece is on the board at most
/// once, and the board is one hive. Only beetles and mosquitoes are above the ground, and the
/// numbers of each kind and colour are the least ones. The moved piece rests, on top. No piece then
/// stands more than one place further out than any piece stood before. The same holds of each move
/// on the list of legal moves.
pub fn legal_moves_keep_soundness()
    ensures legal { LegalMovesKeepSoundness }
    ensures listed { ListedMovesKeepSoundness }
{}

/// A game of at most 9,000 plies leads to a sound position, in which no coordinate of a piece
/// exceeds the number of plies in absolute value.
pub fn games_are_sound()
    ensures { GamesAreSound }
{}

/// The number of plies of a game determines the side to move and the turn number. White moves after
/// an even number of plies. The turn number is half the number of plies, rounded down, plus one.
/// The game type does not change.
pub fn games_count_plies()
    ensures { GamesCountPlies }
{}
