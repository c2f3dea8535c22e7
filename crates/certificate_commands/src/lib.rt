//! The commands that write certificates of best moves, check them, and turn them into certificates
//! that cite.
#![tactic(auto)]

mod certifying;
mod checking;
mod citing;
mod claims;
mod heads;
mod laws;
mod migrating;

pub use certifying::certify;
pub use checking::check;
pub use laws::{
    accepted_claims_are_true, certificates_are_accepted, certified_moves_are_accepted,
    certifies_are_done, checked_claims_are_true, checks_are_done, held_claims_are_accepted,
    held_tokens_are_accepted, migrated_texts_are_accepted, migrations_are_done,
};
pub use migrating::migrate;
