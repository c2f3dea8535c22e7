//! The engine as a library for C: each call works in memory that its caller lends, keeps nothing,
//! and tests everything that it is given.
#![tactic(auto)]

mod commands;
mod exports;
mod faults;
mod games;
mod rooms;
mod runs;
mod sources;
