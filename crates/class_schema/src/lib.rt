//! The classes of a world: their fields, what they inherit, and where each field lies in an object.
//!
//! It stands on world_model, for the ids of classes and the kinds of objects, and on the kit's maps
//! in the order of insertion. `specs/` has the definitions, apart from the code: `Class` is a table
//! as the list of its classes, `Layout` says where fields lie, `Ancestry` what a class has from its
//! ancestors, `Table` what the calls answer, `Lawful` what is true of each table, and `Laws` what
//! follows from that.
//!
//! An object has a cell for each slot. Its class has its parent's fields and then its own.
//! References lie in the slots from 0 upwards and all else in the slots from the last downwards, so
//! the collector follows the slots below `refs` of the kind and no others, and a child's objects
//! have what they inherit in the slots of the parent.
//!
//! The layer above uses [`ClassTable`] to add classes and fields, to find them by name, and for the
//! kinds of objects; and the laws of [`laws`].
#![tactic(auto)]

mod classes;
mod field;
pub mod laws;
mod refusal;
mod rows;

pub use classes::ClassTable;
pub use field::{Field, FieldKind};
pub use refusal::{AddErr, SchemaErr};
