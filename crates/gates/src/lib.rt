//! The two tests of a step from a place to a neighbour, over any board.
#![tactic(auto)]

mod climbs;
mod slides;

ghost use Rattle.std.specs.Prelude.{◌≡◌, ◌↔◌, IsTrue, max, ◌&&◌};
ghost use Rattle.hive_model.specs.Boards.{is_occupied};
ghost use Rattle.hive_model.specs.Places.{AreNeighbours, step, IsOnTheMap};
ghost use Rattle.gates.specs.Beside.{is_beside_one};
ghost use Rattle.hive_model.specs.Steps.{
  GroundStep,
  is_ground_step,
  is_blocked,
  ground_at,
  is_free,
  FreeStep,
};

pub use climbs::climb_amid;
use hive_model::{Board, Dir, Place, is_occupied};
pub use slides::{has_dir, slides_from, slides_from_empty, split_first};

/// Whether both common neighbours are higher than the two places of the step. They are asked first:
/// often one of them is empty.
#[tactic(auto, using(hive_model::proofs::PlaceLemmas::wider))]
fn is_blocked<B: Board>(board: &B, from: Place, dir: Dir) -> bool
    requires { IsOnTheMap from }
    ensures { result ≡ is_blocked (B.stacks board.now) from dir }
{
    let before = board.height(from.step(dir.before()));
    if before == 0 {
        return false;
    }
    let after = board.height(from.step(dir.after()));
    if after == 0 {
        return false;
    }
    let higher = board.height(from).max(board.height(from.step(dir)));
    higher < before && higher < after
}

/// Whether exactly one of the two common neighbours of the places of a step is occupied.
#[tactic(auto, using(hive_model::proofs::PlaceLemmas::wider))]
fn is_beside_one<B: Board>(board: &B, from: Place, dir: Dir) -> bool
    requires { IsOnTheMap from }
    ensures { result ≡ is_beside_one (B.stacks board.now) from dir }
{
    let before = is_occupied(board, from.step(dir.before()));
    let after = is_occupied(board, from.step(dir.after()));
    before != after
}

/// Whether the step is a ground step. The place that it leads to is asked first: it is often taken.
#[tactic(auto, using(hive_model::proofs::PlaceLemmas::wider))]
fn is_ground<B: Board>(board: &B, from: Place, dir: Dir, to: Place) -> bool
    requires leads { to ≡ step from dir }
    requires within { IsOnTheMap from }
    ensures { result ≡ ground_at (B.stacks board.now) from dir }
{
    board.height(to) == 0 && is_beside_one(board, from, dir) && board.height(from) == 0
}

/// Whether the step between two neighbours is a ground step: both places are empty, and exactly one
/// of their two common neighbours is occupied. The board is the one without the moving piece.
#[tactic(auto, using(hive_model::proofs::PlaceLemmas::wider))]
pub fn slide_ok<B: Board>(board: &B, from: Place, to: Place) -> bool
    requires near { AreNeighbours from to }
    requires within { IsOnTheMap from }
    ensures { IsTrue result ↔ GroundStep (B.stacks board.now) from to }
{
    ground_to(board, from, to)
}

/// The same, where the direction of the step is at hand.
pub fn slide_toward<B: Board>(board: &B, from: Place, dir: Dir, to: Place) -> bool
    requires leads { to ≡ step from dir }
    requires within { IsOnTheMap from }
    ensures { IsTrue result ↔ GroundStep (B.stacks board.now) from to }
{
    is_ground(board, from, dir, to)
}

#[tactic(auto, using(hive_model::proofs::PlaceLemmas::wider))]
fn ground_to<B: Board>(board: &B, from: Place, to: Place) -> bool
    requires { IsOnTheMap from }
    ensures { result ≡ is_ground_step (B.stacks board.now) from to }
{
    Dir::ALL.iter().any(
        |d| -> bool
            requires { IsOnTheMap from }
        { from.step(*d).is(to) && is_ground(board, from, *d, from.step(*d)) },
    )
}

fn free_to<B: Board>(board: &B, from: Place, to: Place) -> bool
    requires { IsOnTheMap from }
    ensures { result ≡ is_free (B.stacks board.now) from to }
{
    Dir::ALL.iter().any(
        |d| -> bool
            requires { IsOnTheMap from }
        { from.step(*d).is(to) && !is_blocked(board, from, *d) },
    )
}

/// Whether the step between two neighbours is not blocked: not both of their common neighbours are
/// higher than the greater of the heights of the two. The board is the one without the moving
/// piece.
#[tactic(auto, using(hive_model::proofs::PlaceLemmas::wider))]
pub fn climb_ok<B: Board>(board: &B, from: Place, to: Place) -> bool
    requires near { AreNeighbours from to }
    requires within { IsOnTheMap from }
    ensures { IsTrue result ↔ FreeStep (B.stacks board.now) from to }
{
    free_to(board, from, to)
}

/// The same, where the direction of the step is at hand.
pub fn climb_toward<B: Board>(board: &B, from: Place, dir: Dir, to: Place) -> bool
    requires leads { to ≡ step from dir }
    requires within { IsOnTheMap from }
    ensures { IsTrue result ↔ FreeStep (B.stacks board.now) from to }
{
    !is_blocked(board, from, dir)
}
