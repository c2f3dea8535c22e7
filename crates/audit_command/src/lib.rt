//! The audit of a program, from its start to the text that reports it.
#![tactic(auto)]

mod auditing;
mod laws;
mod run;
mod turns;

pub use auditing::audit_engine;
pub use laws::{audits_are_done, audits_are_right};
