//! Whether a bug goes from one place to another, over any board. No list is made where one
//! direction tells.

ghost use Rattle.std.specs.Prelude.{◌≢◌, ◌↔◌, IsTrue};
ghost use Rattle.hive_model.specs.declared.pieces.Kind.TheVariants.{Mosquito};
ghost use Rattle.hive_model.specs.Places.{IsOnTheMap};
ghost use Rattle.hive_model.specs.Reach.{Reach};
ghost use Rattle.hive_model.specs.Steps.{GroundStep};
ghost use Rattle.bug_moves.specs.Ways.{BeetleStep};

use crate::ants::ant_comes_to;
use crate::beetles::may_creep;
use crate::reach;
use gates::{has_dir, slides_from};
use hive_model::{Board, Kind, Place, PlaceList, has_place};

/// Whether one step on the ground leads there.
#[tactic(auto, using(hive_model::proofs::PlaceLemmas::wider))]
fn slides_to<B: Board>(board: &B, from: Place, to: Place) -> bool
    requires { IsOnTheMap from }
    ensures { IsTrue result ↔ GroundStep (B.stacks board.now) from to }
{
    let Some(dir) = from.towards(to) else {
        return false;
    };
    has_dir(slides_from(board, from), dir)
}

/// Whether one step of a beetle leads there.
#[tactic(auto, using(hive_model::proofs::PlaceLemmas::wider))]
fn creeps_to<B: Board>(board: &B, from: Place, to: Place) -> bool
    requires { IsOnTheMap from }
    ensures { IsTrue result ↔ BeetleStep (B.stacks board.now) from to }
{
    let Some(dir) = from.towards(to) else {
        return false;
    };
    may_creep(board, from, dir, to, slides_from(board, from))
}

/// `reaches`, by the list of all places. The list is a function's own, so that no call that makes
/// none pays for it.
#[inline(never)]
fn is_listed<B: Board>(kind: Kind, board: &B, from: Place, to: Place) -> bool
    requires kind { kind ≢ Mosquito }
    requires within { IsOnTheMap from }
    ensures { IsTrue result ↔ Reach kind (B.stacks board.now) from to }
{
    let mut places = PlaceList::new();
    reach(kind, board, from, &mut places);
    has_place(places.as_slice(), to)
}

/// Whether a bug of this kind reaches the one place from the other: whether it is on the list that
/// `reach` makes.
pub fn reaches<B: Board>(kind: Kind, board: &B, from: Place, to: Place) -> bool
    requires kind { kind ≢ Mosquito }
    requires within { IsOnTheMap from }
    ensures { IsTrue result ↔ Reach kind (B.stacks board.now) from to }
{
    board.lemma_board();
    match kind {
        Kind::Queen | Kind::Pillbug => slides_to(board, from, to),
        Kind::Beetle => creeps_to(board, from, to),
        Kind::Ant => ant_comes_to(board, from, to),
        _ => is_listed(kind, board, from, to),
    }
}
