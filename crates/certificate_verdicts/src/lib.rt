//! The verdict on a text that is checked, the line that reports it, and the run of a command that
//! checks a text.
#![tactic(auto)]

mod checks;
mod laws;
mod reasons;
mod told;
mod verdict;

pub use checks::{TextForm, check_text};
pub use laws::accepted_texts_are_done;
pub use reasons::{IndexReasons, Reasons};
pub use told::tell_judged;
pub use verdict::{TextVerdict, Unread, fault_verdict, verdict_of};
