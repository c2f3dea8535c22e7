//! Tests of games: short ones on the list of spots, grown ones on the wrapped grid against it, and
//! books and made games over texts in memory.
#![tactic(auto)]

#[cfg(test)]
mod book_command_tests;
#[cfg(test)]
mod fast_game_tests;
#[cfg(test)]
mod grow_command_tests;
#[cfg(test)]
mod opening_book_tests;
#[cfg(test)]
mod plain_game_tests;
