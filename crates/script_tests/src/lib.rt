//! Tests of the reader of scripts and of what it stands on.
//!
//! It stands on `level_script` and `class_schema`, on `play_io` for the outside, and on `world_model` for the ids of
//! classes; nothing stands on it. It has tests alone, so that those crates are proved once, and a check of one of them
//! after an edit is short. A table of inputs is a text with a row for each (`rows`), and a script that was read is
//! compared as a text (`told`).
#![tactic(auto)]

#[cfg(test)]
mod classes;
#[cfg(test)]
mod clusters;
#[cfg(test)]
mod faults;
#[cfg(test)]
mod fields;
#[cfg(test)]
mod inputs;
#[cfg(test)]
mod outside;
#[cfg(test)]
mod pointers;
#[cfg(test)]
mod rows;
#[cfg(test)]
mod told;
