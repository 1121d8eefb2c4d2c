//! What an input says.
ghost use Rattle.std.specs.Prelude.{◌≡◌, ◌∷◌, [], ◌++◌, OnOk, MatchOption, slice_get, Some, None};

use crate::lane_cmd::LaneCmd;
use crate::names::NameTable;
use class_schema::ClassTable;
use std::alloc::{AllocError, Global};
use std::marker::Model;

/// An element of a field of the object of a variable.
#[derive(Clone, Copy, Debug, PartialEq, Eq)]
pub struct Spot {
    pub var: u32,
    /// The number of the field's name, from 0 in the order in which lines of the header tell them
    /// first.
    pub field: u32,
    /// The number of the element, from 0.
    pub element: u32,
}

/// What the collector does.
#[derive(Clone, Copy, Debug, PartialEq, Eq)]
pub enum GcCmd {
    /// A whole collection.
    Full,
}

/// What a line says.
#[derive(Clone, Debug, Drop, PartialEq, Eq)]
pub enum Cmd {
    /// The lane with this number does something.
    Lane(u32, LaneCmd),
    /// The collector does something.
    Gc(GcCmd),
}

/// A line that does something.
#[derive(Clone, Debug, Drop, PartialEq, Eq)]
pub struct Line {
    /// The number of the line in the input, from 1.
    pub number: u32,
    pub cmd: Cmd,
}

/// Lines in order. Contracts see them as their list.
#[derive(Debug, Drop)]
pub struct Lines {
    items: Vec<Line>,
}

impl Model for Lines {
    ghost use Rattle.std.specs.Prelude.{List};
    ghost use Rattle.level_script.specs.declared.script.Line.{Line};

    ghost Value = { List Line };

    ghost view = { λ l. l.items.items };
}

impl Lines {
    /// No line.
    pub fn new(alloc: Global) -> Lines
        ensures { result ≡ [] }
    {
        Lines {
            items: Vec::new(alloc),
        }
    }

    /// Appends a line.
    pub fn push(&mut self, line: Line) -> Result<(), AllocError>
        ensures { OnOk result (self.new ≡ self.old ++ line ∷ []) }
    {
        self.items.push(line)?;
        Ok(())
    }

    /// The lines in order.
    pub fn as_slice(&self) -> &[Line]
        ensures { result.now ≡ self.now }
    {
        self.items.as_slice()
    }
}

/// How many object variables each lane has. Contracts see it as the list of the numbers.
#[derive(Debug, Drop)]
pub struct Counts {
    items: Vec<u32>,
}

impl Model for Counts {
    ghost use Rattle.std.specs.Prelude.{ℕ, List};

    ghost Value = { List ℕ };

    ghost view = { λ c. c.items.items };
}

impl Counts {
    /// The numbers of a vector.
    pub fn from_vec(items: Vec<u32>) -> Counts
        ensures { result ≡ items.items }
    {
        Counts { items }
    }

    /// The numbers, one for each lane.
    pub fn as_slice(&self) -> &[u32]
        ensures { result.now ≡ self.now }
    {
        self.items.as_slice()
    }
}

/// The names of fields, by number. Contracts see them as the list of their texts.
#[derive(Drop)]
pub struct FieldNames {
    names: NameTable,
}

impl Model for FieldNames {
    ghost use Rattle.std.specs.Prelude.{ℕ, List};

    ghost Value = { List (List ℕ) };

    ghost view = { λ n. n.names };
}

impl FieldNames {
    /// The names of a table.
    pub(crate) fn from_table(names: NameTable) -> FieldNames
        ensures { result ≡ names }
    {
        FieldNames { names }
    }

    /// The name with a number; none where there are no more than so many names.
    pub fn get(&self, number: u32) -> Option<&str>
        ensures { MatchOption result (slice_get self.now number ≡ None) (λ name. slice_get self.now number ≡ Some name.now) }
    {
        self.names.get(number)
    }
}

/// What an input says, with its names replaced by numbers.
#[derive(Drop)]
pub struct Script {
    /// The classes that the header tells, with their fields, and `Object`.
    pub classes: ClassTable,
    /// The names of fields, by number.
    pub fields: FieldNames,
    /// The lines that do something, in order. Those of the header do nothing of their own.
    pub lines: Lines,
    /// For each lane how many object variables it has.
    pub vars: Counts,
    /// How many weak variables there are.
    pub weaks: u32,
}
