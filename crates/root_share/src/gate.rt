//! The call that each worker makes before each move that it searches.

/// What each worker calls before it begins a child. It cannot influence the result: it sees neither
/// game nor bound, and it always returns.
pub trait Gate {
    /// The worker, counted from 0, is about to begin the move at this index of the root's list.
    fn before_child(&self, worker: u32, child: u32);
}

/// A gate that does nothing.
pub struct FreeGate;

impl Gate for FreeGate {
    fn before_child(&self, worker: u32, child: u32) {
        let _ = (worker, child);
    }
}
