//! Why no whole certificate was written.

use thiserror::Error;

/// Why no whole certificate was written.
#[derive(Clone, Copy, Debug, PartialEq, Eq, Error)]
pub enum MakeFault {
    /// A write failed: the sink's count of failed writes rose.
    #[error("a write failed")]
    WriteFault,
    #[error("out of memory")]
    Memory,
}
