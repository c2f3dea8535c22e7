//! Tests of searches: pruned and shared ones against minimax by its definition, the steps by which
//! workers close a root's children, and sessions whose workers meet.
#![tactic(auto)]

#[cfg(test)]
mod grow_game_tests;
#[cfg(test)]
mod plain_search_tests;
#[cfg(test)]
mod root_share_tests;
#[cfg(test)]
mod uhp_session_tests;
