//! Walks over the legal moves that test what positions are worth, for any kind of tokens.
#![tactic(auto)]

mod claim;
mod ending;
mod items;
mod limit;
mod root;
mod walk_answers;
mod walker;
mod walking;

pub use claim::Claim;
pub use ending::{WalkFault, answer_of};
pub use items::{ItemAnswer, Items};
pub use limit::Limit;
pub use root::{find_move, walk_certificate};
pub use walk_answers::{Checked, Halt, Stop, WalkAnswer, walk_answer};
pub use walker::{Took, Walked, Walker};
pub use walking::walk_claim;
