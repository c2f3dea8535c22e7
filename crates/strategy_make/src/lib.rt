//! Writes the certificate of a game's best move.
//!
//! It keeps no tree: it asks again for values whenever it needs an index.
#![tactic(auto)]

mod fault;
mod head;
mod laws;
mod maker;
mod roots;

pub use fault::MakeFault;
pub use laws::{certificates_are_read, least_indices_hold};
pub use maker::make;
