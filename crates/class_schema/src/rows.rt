//! What a table keeps of its classes and fields.
ghost use Rattle.std.specs.Prelude.{◌≡◌, ◌∷◌, [], ◌++◌, ◌≤◌, ◌+◌, ◌<◌, ◌==◌, IfOk, is_ok, if◌then◌else◌, length, OnOk, OnErr};
ghost use Rattle.std.specs.List.{find};
ghost use Rattle.class_schema.specs.Row.{with_row};

use crate::field::{Field, FieldKind};
use std::alloc::{AllocError, Global};
use std::marker::Model;
use world_model::{ClassId, Ready};

/// What is kept of a field that a class has or inherits.
#[derive(Clone, Copy)]
pub struct FieldRow {
    /// The number of its name.
    pub name: usize,
    /// The line that told it.
    pub line: u32,
    pub field: Field,
}

/// The fields of a class, in order. Contracts see it as their list.
#[derive(Drop)]
pub struct FieldRows {
    items: Vec<FieldRow>,
}

impl Model for FieldRows {
    ghost use Rattle.std.specs.Prelude.{List};
    ghost use Rattle.class_schema.specs.declared.rows.FieldRow.{FieldRow};

    ghost Value = { List FieldRow };

    ghost view = { λ r. r.items.items };
}

impl FieldRows {
    /// No field.
    pub fn new(alloc: Global) -> FieldRows
        ensures { result ≡ [] }
    {
        FieldRows {
            items: Vec::new(alloc),
        }
    }

    pub fn len(&self) -> usize
        ensures { result ≡ length self.now }
    {
        self.items.len()
    }

    /// The same fields, for a child.
    pub fn copy(&self, alloc: Global) -> Result<FieldRows, AllocError>
        ensures { IfOk result (λ rows. rows ≡ self.now) }
    {
        let items = Vec::from_slice(alloc, self.items.as_slice())?;
        Ok(FieldRows { items })
    }

    pub fn push(&mut self, row: FieldRow) -> Result<(), AllocError>
        ensures { self.new ≡ (if is_ok result then self.old ++ row ∷ [] else self.old) }
    {
        self.items.push(row)?;
        Ok(())
    }

    /// The first field whose name has this number.
    pub fn find(&self, name: usize) -> Option<FieldRow>
        ensures { result ≡ find (λ row. row.name == name) self.now }
    {
        first_named(&self.items, name)
    }
}

fn first_named(rows: &[FieldRow], name: usize) -> Option<FieldRow>
    ensures { result ≡ find (λ row. row.name == name) rows.now }
{
    for row in rows {
        if row.name == name {
            return Some(*row);
        }
    }
    None
}

/// What is kept of a class beside its name.
#[derive(Drop)]
pub struct ClassRow {
    /// The line that told it, 0 for `Object`.
    pub line: u32,
    /// Its parent; `Object` has none.
    pub parent: Option<ClassId>,
    /// Whether a class has this one as its parent.
    pub has_child: bool,
    /// How many ancestors it has.
    pub depth: u32,
    /// An ancestor some way up, at which a search for ancestors may go on; of `Object` it is `Object`.
    pub jump: ClassId,
    /// How many of its fields are its parent's.
    pub inherited: usize,
    /// Its parent's fields, and then its own.
    pub fields: FieldRows,
    /// How many slots its fields of references take.
    pub refs: u32,
    /// How many slots its other fields take.
    pub plain: u32,
    pub ready: Ready,
}

impl ClassRow {
    /// Adds a field of a name and a line, for objects of so many slots.
    pub fn push(
        &mut self,
        slots: u32,
        name: usize,
        line: u32,
        kind: FieldKind,
        count: u32,
    ) -> Result<(), AllocError>
        requires few { slots ≤ 64 }
        requires some { 1 ≤ count }
        requires room { self.old.refs + self.old.plain + count ≤ slots }
        ensures ok { OnOk result (self.new ≡ with_row self.old slots name line kind count) }
        ensures err { OnErr result (self.new ≡ self.old) }
    {
        let is_ref = match kind {
            FieldKind::Ref(_) => true,
            FieldKind::Weak => false,
            FieldKind::Int => false,
        };
        let first = if is_ref {
            self.refs
        } else {
            slots - 1 - self.plain
        };
        let field = Field { kind, first, count };
        self.fields.push(FieldRow { name, line, field })?;
        if is_ref {
            self.refs += count;
        } else {
            self.plain += count;
        }
        Ok(())
    }
}
