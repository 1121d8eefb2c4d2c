//! The script language: what an input says, or the first fault that it has.
//!
//! It stands on class_schema, for the table of classes, on world_model, for the ids of classes, and
//! on the kit's sets in the order of insertion. A line is cut, read and done in one go (`one_line`), and pays for no
//! list of its words. `specs/` has the grammar, apart from the code: `Lines` cuts an input,
//! `Forms` has the words, `Commands` the lines, `LaneCommands` what each command of a lane is, `Lanes` and `Context` what one
//! more line adds to what the lines before it have made known, `Reading` whole inputs, and `Frames` what a player may
//! rely on. A command is one of a lane or of the collector (`Cmd`); a word that is none is an unknown command.
//!
//! The layer above calls `parse`, which answers exactly the script, or exactly the first faulty line
//! with its first cause, and gets from its contract that the script's lines can be played: each
//! lane, variable, class and field name is there, each frame is open or closed as its line needs it,
//! and each class has an identifier as its name.
#![tactic(auto)]

mod cause;
mod command;
mod context;
mod forms;
mod lane_cmd;
mod lanes;
pub mod laws;
mod limits;
mod lines;
mod members;
mod names;
mod one_line;
mod operand;
mod reader;
mod said;
mod script;
mod spot;
mod tables;

pub use cause::{Cause, ParseErr, ScriptErr};
pub use class_schema::{AddErr, ClassTable, Field, FieldKind, SchemaErr};
pub use lane_cmd::{LaneCmd, Member, Members};
pub use limits::Limits;
pub use reader::parse;
pub use script::{Cmd, Counts, FieldNames, GcCmd, Line, Lines, Script, Spot};
