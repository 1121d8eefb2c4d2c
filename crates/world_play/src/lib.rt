//! The player of level scripts, and the program as one call.
//!
//! It stands on `level_script` for what a script is, on `class_schema` for its classes, on `world_model` for what an engine does, on
//! `heap_plain` for an engine, on `word_layout` for the words of weak pointers, and on `play_io` for the outside. The player is written over any
//! engine. `specs/Lanes` and `specs/Collections` say what each command is, `specs/Plays` when a
//! history plays lines, `specs/Text` has the text of a reply, `specs/Outcome` the outcome of a whole
//! script, and `specs/Ends` what a whole run has done.
//!
//! The layer above calls `worldrun`, and writes `fault_text` and `exit_code` of its status.
#![tactic(auto)]

mod cells;
mod collection;
mod header;
mod hooks;
mod lane;
mod laws;
mod player;
mod pointers;
mod reply;
mod run;
mod status;
mod stream;
mod text;
mod turn;
mod units;
mod variables;
mod words;

pub use header::Header;
pub use hooks::ClassHooks;
pub use laws::one_text;
pub use play_io::{
    Failed, MemSink, MemSource, NoPace, Pace, PutErr, Sink, Source, SureSink, SureSource, Turn,
};
pub use player::play;
pub use reply::Reply;
pub use run::{Ended, Run, run_in_memory, worldrun};
pub use status::{Status, exit_code, fault_text};
pub use words::{ShapeName, Words, read_words};
