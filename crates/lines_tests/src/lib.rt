//! Lines and what they are read from, tried: the outside in memory and as the machine gives it, the
//! lines of streams, and the strings of games.
#![tactic(auto)]

#[cfg(test)]
mod game_text_tests;
#[cfg(test)]
mod io_edge_tests;
#[cfg(test)]
mod line_feed_tests;
#[cfg(test)]
mod stream_tests;
#[cfg(test)]
mod system_tests;
