//! Citing certificates as texts, one token a line, and how the indices of a certificate become such
//! tokens.
#![tactic(auto)]

mod certificate;
mod draft;
mod lines;
mod migrating;
mod shortening;

pub use lines::{LineTokens, TokenLine};
pub use migrating::{Migrated, migrate};
