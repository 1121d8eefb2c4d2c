//! The rule of a heap in atomic words that callers share: what holds of the words between any two atomic steps, and what
//! each seat knows of them.
//!
//! Any number of threads act on one [`Heap`], each with a [`Seat`] of its own. A seat has passes: lanes, markers, the
//! collector. A step is one load, store or exchange of one word. Between any two steps there is one legal history that
//! the words show, and each seat has seen a beginning of it that has all that its own passes did.
//!
//! `specs/` is a text to be read in the order of `specs/Lib.antt`. The sections say what the words show, each of what it
//! reads: `Colours`, `Contents`, `Items`, `Loosening`, `Pairs`, `Removal`, `Counters`, `Licences`. `Views` and `Sees` say
//! what a seat knows and when that is true, `Rule` puts all together, and `Start` is the empty heap. `LaneMay`,
//! `MarkerMay` and `CollectorMay` say what a seat must know to make a step, and `LaneTells`, `MarkerTells` and
//! `CollectorTells` what the step then tells it; `Seating` how a seat is cut in two and two are made one.
//!
//! It stands on `world_model` for histories, on `mark_core` for the law of marking, on `word_layout` for words and their
//! places, and on `atomic_table` for the table of words. The layer above uses [`Heap::new`], the seats and the steps.
#![tactic(auto)]

pub mod asks;
mod heap;
mod seats;
mod start;
pub mod steps;
pub mod views;
mod words;

pub use heap::{Heap, Seat};
