//! Tests of the engines and of what they are built from.
//!
//! It stands on `world_model`, for the diary and the hooks that every engine has, on the chains of `index_chain`, and
//! on the plain engine of `heap_plain`; nothing stands on it. It has tests alone, so that those crates are proved once,
//! and a check of one of them after an edit is short.
#![tactic(auto)]

#[cfg(test)]
mod cells;
#[cfg(test)]
mod chains;
#[cfg(test)]
mod diaries;
#[cfg(test)]
mod heaps;
#[cfg(test)]
mod parts;
#[cfg(test)]
mod pointers;
