//! What was counted after the moves of one position, found again by the images of a move under the
//! symmetries of the position.

ghost use Rattle.std.specs.Prelude.{◌≡◌, ℕ, IfSome, IsTrue};
ghost use Rattle.hive_model.specs.Lists.{IsOn};
ghost use Rattle.hive_model.specs.Positions.{Position};
ghost use Rattle.hive_model.specs.Games.{after};
ghost use Rattle.hive_model.specs.Minimax.{lines};
ghost use Rattle.symmetry.specs.declared.own.OwnSymmetry.{OwnSymmetry as AnySymmetry};
ghost use Rattle.symmetry.specs.Alike.{move_by, IsPlaced};
ghost use Rattle.hive_model.specs.Histories.{position};
ghost use Rattle.plain_search.specs.Known.{AreKnown, AreSymmetriesOf};

use arrayvec::ArrayVec;
use hive_model::{Game, Move, Piece};
use symmetry::{OwnSymmetries, OwnSymmetry, own_symmetries};

/// A move, and the number of lists of moves that follow it.
#[derive(Clone, Copy)]
pub struct Known {
    pub moved: Move,
    pub count: u128,
}

/// What is known about the moves of one position. If there are more than 128, the first of them are
/// known.
pub type KnownLines = ArrayVec<Known, 128>;

impl Default for Known {
    /// The entry of an unused row.
    fn default() -> Known {
        Known {
            moved: Move::Pass,
            count: 0,
        }
    }
}

/// The symmetries, except the identity, by which the position is alike to itself, if few pieces are
/// in play. If there are more, hardly any position has one, and none is looked for.
pub fn symmetries_of<G: Game>(game: &G) -> OwnSymmetries
    ensures { AreSymmetriesOf (position (G.history game.now)) result.items }
{
    if has_few_pieces(game) {
        own_symmetries(&game.key())
    } else {
        OwnSymmetries::new()
    }
}

/// Whether at most four pieces are in play.
fn has_few_pieces<G: Game>(game: &G) -> bool {
    let mut more = 4u8;
    for index in 0..28u8 {
        if game.spot(Piece::at(index)).is_some() {
            if more == 0 {
                return false;
            }
            more -= 1;
        }
    }
    true
}

/// The number of lists that follow the image of the move by one of the symmetries, if it is known.
pub fn known_count(own: &[OwnSymmetry], known: &[Known], m: &Move) -> Option<u128>
    requires { IsPlaced m.now }
    ensures { IfSome result (λ n. (o : AnySymmetry) × IsOn own.now o
        × IsOn known.now (record { moved = move_by o.symmetry o.shift m.now; count = n })) }
{
    for symmetry in own {
        let image = symmetry.image_of(m.again());
        if let Some(count) = count_of(known, &image) {
            return Some(count);
        }
    }
    None
}

/// The number of lists that follow the move, if it is known.
fn count_of(known: &[Known], m: &Move) -> Option<u128>
    ensures { IfSome result (λ n. IsOn known.now (record { moved = m.now; count = n })) }
{
    for entry in known {
        if are_same(&entry.moved, m) {
            return Some(entry.count);
        }
    }
    None
}

/// Whether the two moves are the same.
fn are_same(m: &Move, n: &Move) -> bool
    ensures { IsTrue result → m.now ≡ n.now }
{
    m == n
}

/// Stores the number of lists that follow the move, if there is room.
pub fn note(known: &mut KnownLines, moved: Move, count: u128)
    ensures { (p : Position) (n : ℕ) → AreKnown p n known.old.items
        → count ≡ lines (after p moved) n → AreKnown p n known.new.items }
{
    if known.is_full() {
        return;
    }
    known.push(Known { moved, count });
}
