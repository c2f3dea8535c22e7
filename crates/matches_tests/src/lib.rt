//! Tests of matches, cups, tournaments and audits: the public calls of their crates over texts,
//! links, clocks and programs in memory.
#![tactic(auto)]

#[cfg(test)]
mod audit_command_tests;
#[cfg(test)]
mod cup_command_tests;
#[cfg(test)]
mod cup_played_tests;
#[cfg(test)]
mod cup_tests;
#[cfg(test)]
mod engines;
#[cfg(test)]
mod match_command_tests;
#[cfg(test)]
mod match_from_tests;
#[cfg(test)]
mod match_runner_tests;
#[cfg(test)]
mod seen;
#[cfg(test)]
mod tournament_command_tests;
#[cfg(test)]
mod tournament_core_tests;
#[cfg(test)]
mod tournament_games_tests;
