//! Tests of the texts of moves, the words of the command line and those of the protocol, on rows
//! written by hand.
#![tactic(auto)]

#[cfg(test)]
mod command_words_tests;
#[cfg(test)]
mod moves;
#[cfg(test)]
mod options;
#[cfg(test)]
mod words;
