//! The law of entries, as the contract of a function that does nothing.

ghost use Rattle.value_table.specs.Truth.{OneIsEnough};

/// What is known of one sound position at a depth is true of every sound position with its key.
pub fn one_position_is_enough()
    ensures { OneIsEnough }
{}
