//! Tests of the program's one top call. There are commands, matches, cups and tournaments over
//! sources, sinks, clocks and programs in memory, and sessions with their searches.
#![tactic(auto)]

#[cfg(test)]
mod runs;
#[cfg(test)]
mod sessions;
