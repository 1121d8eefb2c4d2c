//! An object system over vectors: what the engine over shared words does, for one owner alone.
//!
//! It stands on `world_model`, whose trait `Engine` it implements. The layers above may use
//! `PlainHeap` by the contract of that trait, and know besides that a new one has an empty history.
#![tactic(auto)]

mod colours;
mod creating;
mod filled;
mod gate;
mod heap;
mod life;
mod listing;
mod marking;
mod pairing;
mod parting;
mod purging;
mod queue;
mod rooting;
mod scanning;
mod serials;
mod stock;
mod storing;
mod sweeping;

pub use heap::PlainHeap;
