//! Which word stands for which value, and where the word of each part of a heap has its place.
//!
//! It stands on `world_model` for the values. A layer above that keeps a heap in atomic words packs what it
//! stores and unpacks what it loads: each value in range has one word, and a word that is none is told so.
//! Laws say what setting and clearing one bit, or adding to a word, makes of its value.
#![tactic(auto)]

mod gate;
mod head;
mod kind;
mod laws;
mod place;
mod reference;
mod stock;
mod weak;

pub use gate::{Gate, pack_gate, unpack_gate};
pub use head::{Head, Life, pack_head, unpack_head};
pub use kind::{pack_kind, unpack_kind};
pub use laws::{
    bits_change, colour_changes, dirty_changes, frames_add, gates_differ, heads_differ,
    kinds_differ, pairs_differ, phase_changes, places_differ, places_fill, places_fit,
    references_differ, rows_reach, stocks_differ,
};
pub use place::{Part, word_count, word_of};
pub use reference::{pack_ref, unpack_ref};
pub use stock::{Stock, pack_stock, unpack_stock};
pub use weak::{pack_weak, unpack_weak};
