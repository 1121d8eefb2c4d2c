//! What lines of any lane may name.

use crate::names::NameTable;
use class_schema::ClassTable;

/// What lines of any lane may name.
#[derive(Drop)]
pub struct Tables {
    pub classes: ClassTable,
    /// The names of the fields, in the order in which lines of the header tell them first.
    pub fields: NameTable,
    /// The names of the weak variables, in the order in which lines bind them first.
    pub weaks: NameTable,
    /// How many strong pointers a lane has.
    pub strong: u32,
}
