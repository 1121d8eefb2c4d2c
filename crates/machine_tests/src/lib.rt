//! Tests of words and of the machine of marking.
//!
//! It stands on `word_layout` and `mark_core`, and on `world_model` for their values; nothing stands on it. It has
//! tests alone, so that those crates are proved once, and a check of one of them after an edit is short.
#![tactic(auto)]

#[cfg(test)]
mod chance;
#[cfg(test)]
mod markings;
#[cfg(test)]
mod refusals;
#[cfg(test)]
mod scripts;
#[cfg(test)]
mod words;
