//! Tests of the player and of the program as one call.
//!
//! It stands on `world_play`, on `level_script` for the causes of faults, and on `play_io` for sources and sinks in
//! memory; nothing stands on it. It has tests alone, so that `world_play` is proved once, and a check of it after an
//! edit is short.
#![tactic(auto)]

#[cfg(test)]
mod cells;
#[cfg(test)]
mod clusters;
#[cfg(test)]
mod faults;
#[cfg(test)]
mod pointers;
#[cfg(test)]
mod rows;
#[cfg(test)]
mod runs;
#[cfg(test)]
mod webs;
#[cfg(test)]
mod words;
