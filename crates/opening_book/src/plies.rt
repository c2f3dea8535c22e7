//! Counts over the plies of a played game.

ghost use Rattle.std.specs.Prelude.{◌≡◌, ℕ, ◌+◌, ◌^◌, ◌<◌, ◌≤◌, [], length, slice_get, Some};
ghost use Rattle.std.specs.Prelude.{slice_index, slice_index_or, None};
ghost use Rattle.hive_model.specs.declared.places.Move.{Move};
ghost use Rattle.hive_model.specs.declared.places.Place.{Place};
ghost use Rattle.hive_model.specs.Places.{IsWithin};
ghost use Rattle.hive_model.specs.Boards.{IsBoard};
ghost use Rattle.hive_model.specs.Positions.{Position, opening};
ghost use Rattle.hive_model.specs.Keys.{key};
ghost use Rattle.symmetry.specs.Takes.{takes_by};
ghost use Rattle.opening_book.specs.Book.{line_count};
ghost use Rattle.opening_book.specs.Plies.{IsPlaced, AreShifts, is_taken_to, one_if};

use hive_model::{Game, Key, Move, Place};
use symmetry::{Symmetry, alike, moved};

/// Adds to the count of each move the plies of the game whose move a symmetry maps to it. The game
/// is then back at its opening.
pub fn count_plies<G: Game>(root: &Key, moves: &[Move], counts: &mut [u64], played: &mut G)
    requires long { length counts.old ≡ length moves.now }
    requires few { (j : ℕ) → j < length counts.old → slice_index counts.old j < 2 ^ 40 }
    ensures counted { (p : Position) → IsBoard p.board → root.now ≡ key p
        → (j : ℕ) (m : Move) → slice_get moves.now j ≡ Some m
        → slice_index counts.new j ≡ slice_index counts.old j
        + line_count p m (opening (G.history played.old).game_type) (G.history played.old).made }
    ensures bound { (j : ℕ) → j < length counts.old
        → slice_index counts.new j ≤ slice_index counts.old j + length (G.history played.old).made }
    ensures game_type { (G.history played.new).game_type ≡ (G.history played.old).game_type }
    ensures opening { (G.history played.new).made ≡ [] }
{
    // establishes that the game leads to a board
    played.lemma_sound();
    let count = played.plies();
    for i in 0..count {
        let m = played.move_at(count - 1 - i);
        played.undo();
        let before = played.key();
        let shifts = shifts_between(&before, root);
        count_ply(moves, counts, &shifts, &m);
    }
}

/// Adds one to the count of each move to which a symmetry maps this one.
fn count_ply(moves: &[Move], counts: &mut [u64], shifts: &[Option<Place>; 12], played: &Move)
    requires long { length counts.old ≡ length moves.now }
    requires few { (j : ℕ) → j < length counts.old → slice_index counts.old j < 2 ^ 41 }
    requires placed { IsPlaced played.now }
    requires within { (s : ℕ) (t : Place) → slice_index_or shifts.now s None ≡ Some t
        → IsWithin 40000 t }
    ensures { (j : ℕ) (m : Move) → slice_get moves.now j ≡ Some m
        → slice_index counts.new j
        ≡ slice_index counts.old j + one_if (is_taken_to shifts.now played.now m) }
{
    for i in 0..moves.len() {
        if is_taken_to(shifts, played, &moves[i]) {
            counts[i] += 1;
        }
    }
}

/// For each of the symmetries, the shift from the one key to the other, if there is one.
fn shifts_between(from: &Key, to: &Key) -> [Option<Place>; 12]
    ensures { AreShifts result from.now to.now }
{
    let mut shifts = [None; 12];
    for index in 0..12u8 {
        shifts[index as usize] = alike(from, to, Symmetry::at(index));
    }
    shifts
}

/// Whether one of the symmetries, with its shift, maps the move to the other.
fn is_taken_to(shifts: &[Option<Place>; 12], from: &Move, to: &Move) -> bool
    requires placed { IsPlaced from.now }
    requires within { (s : ℕ) (t : Place) → slice_index_or shifts.now s None ≡ Some t
        → IsWithin 40000 t }
    ensures { result ≡ is_taken_to shifts.now from.now to.now }
{
    for index in 0..12u8 {
        if is_taken_by(index, shifts[index as usize], from, to) {
            return true;
        }
    }
    false
}

/// Whether the symmetry of this number and its shift, if there is one, map the move to the other.
fn is_taken_by(index: u8, shift: Option<Place>, from: &Move, to: &Move) -> bool
    requires number { index < 12 }
    requires placed { IsPlaced from.now }
    requires within { (t : Place) → shift ≡ Some t → IsWithin 40000 t }
    ensures { result ≡ takes_by index shift from.now to.now }
{
    let Some(shift) = shift else { return false };
    match (from, to) {
        (Move::Pass, Move::Pass) => true,
        (
            Move::To { piece, place },
            Move::To {
                piece: other,
                place: goal,
            },
        ) => {
            piece.index() == other.index()
                && moved(Symmetry::at(index).place(*place), shift).is(*goal)
        }
        _ => false,
    }
}
