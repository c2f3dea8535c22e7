//! Where each bug goes, over any board.
//!
//! The board is always the one from which the moving piece was lifted.
#![tactic(auto)]

mod ants;
mod beetles;
mod found;
mod grasshoppers;
mod ladybugs;
mod mosquitoes;
mod queens;
mod reaching;
mod spiders;
mod trail;
mod ways;

ghost use Rattle.std.specs.Prelude.{◌≡◌, ◌≢◌, []};
ghost use Rattle.hive_model.specs.declared.pieces.Kind.{Kind};
ghost use Rattle.hive_model.specs.declared.pieces.Kind.TheVariants.{Mosquito};
ghost use Rattle.hive_model.specs.PlaceLists.{AreAll};
ghost use Rattle.hive_model.specs.Places.{IsOnTheMap};
ghost use Rattle.hive_model.specs.Reach.{Reach};
ghost use Rattle.bug_moves.specs.Counts.{AreMany};

use crate::ants::{ant_ways, count_ant_ways};
use crate::beetles::Creep;
use crate::grasshoppers::OverRow;
use crate::ladybugs::{Climb, Down};
use crate::queens::Slide;
use crate::spiders::First;
use crate::ways::{add_slides, add_ways};
pub use ants::list_in_order;
pub use found::add_new;
use hive_model::{Board, Kind, Place, PlaceList};
pub use mosquitoes::mosquito_reach;
pub use reaching::reaches;
pub use trail::Trail;

/// The places that a bug of this kind reaches from a place, by q and then by r.
///
/// Queen and pillbug make one step on the ground, a beetle one step on the ground or over the hive,
/// a grasshopper hops over a row of pieces, an ant goes round the hive as far as it likes, a spider
/// makes three steps round it without turning back, and a ladybug goes up onto the hive, along on
/// it and down again. What a mosquito does depends on its neighbours, so it has no way here.
pub fn reach<B: Board>(kind: Kind, board: &B, from: Place, out: &mut PlaceList)
    requires kind { kind ≢ Mosquito }
    requires empty { out.old.items ≡ [] }
    requires within { IsOnTheMap from }
    ensures { AreAll (Reach kind (B.stacks board.now) from) out.new.items }
{
    board.lemma_board();
    match kind {
        Kind::Queen | Kind::Pillbug => add_slides(&Slide, board, from, out),
        Kind::Beetle => add_slides(&Creep, board, from, out),
        Kind::Grasshopper => add_ways(&OverRow, board, from, out),
        Kind::Ant => ant_ways(board, from, out),
        Kind::Spider => add_slides(&First, board, from, out),
        Kind::Ladybug => {
            let down = Down { start: from };
            let along = Climb { then: down };
            add_ways(&Climb { then: along }, board, from, out);
        }
        Kind::Mosquito => {}
    }
}

/// How many places a bug of this kind reaches from a place: as many as `reach` lists. `places` is a
/// list to write on.
pub fn count_reach<B: Board>(kind: Kind, board: &B, from: Place, places: &mut PlaceList) -> usize
    requires kind { kind ≢ Mosquito }
    requires within { IsOnTheMap from }
    ensures { AreMany (Reach kind (B.stacks board.now) from) result }
{
    if kind.is(Kind::Ant) {
        board.lemma_board();
        return count_ant_ways(board, from);
    }
    places.clear();
    reach(kind, board, from, places);
    places.len()
}
