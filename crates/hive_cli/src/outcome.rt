//! The result of a run.

use command_runs::Status;
use hive_model::TimedList;

/// How a run ended, and one entry for each timed search that it answered, in order.
#[derive(Drop)]
pub struct Outcome {
    pub status: Status,
    pub timed: TimedList,
}
