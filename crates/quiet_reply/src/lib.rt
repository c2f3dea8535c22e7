//! Quiet replies: placements that keep the evaluation of a position, found without a play.
//!
//! A piece that is placed beside two places that touch makes no place a cut place and frees none.
//! If it is beside no queen, it changes no queen's neighbours. It rests itself, and so counts
//! nothing. After it, the board is worth what it was before, except for the piece that rested. With
//! one ply of best play, the side to move gets at least this.
#![tactic(auto)]

mod laws;
mod places;
mod replies;

pub use laws::quiet_replies_hold;
pub use places::{find_quiet, is_quiet};
pub use replies::{most_worth, quiet_reply};
