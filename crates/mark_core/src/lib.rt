//! The pure machine of marking: why a commit removes only what is not reached, whatever lanes, markers and the
//! collector do meanwhile.
//!
//! Lanes, markers and the collector do sixteen kinds of atomic event on a state without words, threads or
//! histories. `specs/` is a text to be read in the order of `specs/Lib.antt`: the state (`Machine`), which steps
//! an actor may do and what each does (`Steps`), the tri-colour law that all of them keep (`Lawful`), and what
//! follows (`Laws`). The laws are the contracts of empty functions here. `Core` is the machine over vectors: it
//! says which events it allows, does them, answers the word that each found, and is lawful at every moment.
//!
//! It stands on `world_model` for the phases and on `word_layout` for the words of gate and heads alone. A heap
//! over atomic words is tied to it step by step: it shows that each of its steps is allowed here, and has the law
//! of every list of steps.
#![tactic(auto)]

mod allowed;
mod collector_steps;
mod colours;
mod flags;
mod lane_steps;
mod laws;
mod machine;
mod marker_steps;
mod marking;
mod places;
mod types;
mod words;

pub use laws::{
    bare_is_lawful, bits_are_shown, bits_follow, clearing_is_lawful, commits_are_right,
    events_stay_lawful, frames_are_counted, gatherings_can_end, loosening_is_lawful,
    making_is_lawful, markings_can_end, nobody_is_stuck, scan_closes, scanned_once, stays_lawful,
    steps_stay_lawful,
};
pub use marking::Core;
pub use types::{Actor, Cell, Event, Job, Place, ScanAt, Shape};
