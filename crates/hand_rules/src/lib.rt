//! Which pieces a side has in hand, which of them it may bring into play, and where.
#![tactic(auto)]

mod bringing;
mod colours;
mod hands;
mod open_places;

pub use bringing::{bring_places, count_bring_places, may_bring, placements, push_each};
pub use colours::may_place;
pub use hands::{in_hand, next_of};
pub use open_places::{count_placement_places, placement_places};
