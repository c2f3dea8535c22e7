//! Tests of certificates and forced wins: the public calls of their crates over texts, sources and
//! sinks in memory.
#![tactic(auto)]

#[cfg(test)]
mod migrating_tests;
#[cfg(test)]
mod strategy_citing_tests;
#[cfg(test)]
mod strategy_commands_tests;
#[cfg(test)]
mod strategy_lemmas_tests;
#[cfg(test)]
mod strategy_make_tests;
#[cfg(test)]
mod strategy_verdicts_tests;
#[cfg(test)]
mod win_commands_tests;
#[cfg(test)]
mod win_solver_tests;
