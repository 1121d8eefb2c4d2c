//! What is true of a world of objects, whichever way it is kept.
//!
//! This is the lowest layer. It has the values that an object system speaks of, the entries of its
//! history, which histories are legal, the interface of an engine, and the diary, in which an
//! engine keeps its history at the price of one store an entry.
//!
//! The definitions stand in `specs/`, in the order in which `specs/Lib.antt` lists them, and make a
//! text of their own. The layers above use the types, [`Shape`], [`Engine`], [`Hooks`], [`Diary`]
//! and the laws of [`laws`] and [`follows`]; nothing here knows an array, a mark bit or a word.
#![tactic(auto)]

mod act;
mod diary;
mod engine;
pub mod examples;
pub mod follows;
mod hooks;
mod kind;
pub mod laws;
mod list;
mod name;
mod pass;
mod reply;
mod shape;

pub use act::{Act, Entry};
pub use diary::Diary;
pub use engine::Engine;
pub use hooks::{HookCall, Hooks, MemHooks};
pub use kind::{ClassId, Kind, Ready};
pub use list::{Kinds, Names, Sequence};
pub use name::{Name, Ref, Weak};
pub use pass::{Pass, PassSet, Phase};
pub use reply::{
    Begin, Collected, Commit, CreateErr, DissolveErr, MarkStop, Marked, Purged, SerialsSpent,
    SweepStop, Swept,
};
pub use shape::{Level, Shape, Small};
