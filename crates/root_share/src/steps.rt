//! The steps of the work at a root.

/// What the search of a child has shown.
#[derive(Clone, Copy, PartialEq, Eq, Debug)]
pub enum RootVerdict {
    /// The child has this value.
    Exact { value: i32 },
    /// The value of the child is below this bound.
    Below { bound: i32 },
}

/// A step of the work at a root.
#[derive(Clone, Copy, PartialEq, Eq, Debug)]
pub enum RootStep {
    /// A worker begins a child, and notes the current bound.
    Take { child: u32 },
    /// A child is finished.
    Close { child: u32, verdict: RootVerdict },
}
