//! The audit of an engine: which games are played with it, and what is wrong with its replies.
#![tactic(auto)]

mod auditor;
mod drawing;
mod findings;
mod laws;
mod listed_moves;
mod lists;
mod parts;
mod past;
mod plan;
mod sieges;
mod strings;
mod texts;

pub use auditor::Auditor;
pub use findings::{Fault, Finding};
pub use laws::{
    audits_find_faults, games_stand_alone, replies_are_judged, tried_moves_are_illegal,
};
pub use plan::{AuditPlan, Stage};
