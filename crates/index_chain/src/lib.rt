//! Singly linked chains of item indexes, through one word for each item: its next item, or none.
//!
//! It stands on nothing. The words are where a layer above has them: it implements `Links`, over a vector
//! or over shared words, and passes chains by value. A chain stands for the list of its items; each call
//! says which list it makes of which, and which words it leaves alone. No call allocates.
#![tactic(auto)]

mod calls;
mod chain;
mod laws;
mod vector;
mod words;

pub use calls::{append, at, drop_last, push_front, take_front};
pub use chain::Chain;
pub use laws::{outside_stays, parts_stay};
pub use vector::VecLinks;
pub use words::Links;
