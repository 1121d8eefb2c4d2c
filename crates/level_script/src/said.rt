//! What the words of a line say, before names are looked up.
use crate::forms::{Identifier, Number};
use crate::lane_cmd::Verb;
use crate::operand::{Binds, Operand};

/// What a line says.
#[derive(Drop)]
pub enum Said<'a> {
    /// The line does nothing.
    Nothing,
    /// There is a class of this name, with a parent of that name.
    Class {
        name: Identifier<'a>,
        parent: Identifier<'a>,
    },
    /// The class has a field of this name, of so many elements, where it says how many.
    Field {
        class: Identifier<'a>,
        name: Identifier<'a>,
        of: FieldOf<'a>,
        count: Option<Number>,
    },
    /// The collector does a whole collection.
    Full,
    /// The lane with this number does something.
    Lane {
        lane: Number,
        does: Does<'a>,
    },
}

/// What the elements of a field are.
#[derive(Drop)]
pub enum FieldOf<'a> {
    /// References to objects of a class.
    Ref(Identifier<'a>),
    Weak,
    Int,
}

/// What a lane does.
#[derive(Drop)]
pub struct Does<'a> {
    pub verb: Verb,
    pub binds: Binds<'a>,
    /// What the first and the second word say, but for the variable that is bound.
    pub first: Operand<'a>,
    pub second: Operand<'a>,
}
