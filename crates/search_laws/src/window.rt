//! The alpha-beta window of a search.

/// A search finds a value exactly if it is strictly between alpha and beta. Both lie between
/// -1,000,100 and 1,000,100.
#[derive(Clone, Copy, Debug, PartialEq, Eq)]
pub struct Window {
    pub alpha: i32,
    pub beta: i32,
}
