//! The table of classes.
ghost use Rattle.std.specs.Prelude.{◌≡◌, ◌∷◌, [], ◌<◌, ◌≤◌, ◌+◌, length, IfOk, IfSome, OnOk, OnErr, IsTrue, Some, None, option_map, nat_lt, slice_get, string_bytes, true, false};
ghost use Rattle.world_model.specs.Sizes.{Sizes};
ghost use Rattle.world_model.specs.LaneSteps.{is_lawful, is_readiness};
ghost use Rattle.class_schema.specs.Ancestry.{object, class_at, parents, has_children, IsA, is_a, fields};
ghost use Rattle.class_schema.specs.Layout.{used_slots};
ghost use Rattle.class_schema.specs.Table.{find_class, taken, admitted, with_class, AddsClass, field_line, find_field, has_field, no_room, field_refusal, with_field, AddsField, SetsReady, kind_of};
ghost use Rattle.class_schema.specs.Lawful.{has_target, FitsIn, IsSchema};

use crate::field::{Field, FieldKind};
use crate::refusal::{AddErr, SchemaErr};
use crate::rows::{ClassRow, FieldRow, FieldRows};
use indexmap::{IndexMap, IndexSet};
use std::alloc::{AllocError, Global};
use std::marker::Model;
use world_model::{ClassId, Kind, Ready};

/// The classes of a script, 1 to 4,096, by their ids from 0. Contracts see it as the slots of each
/// object and the list of the classes.
///
/// `Object` has id 0, line 0 and no parent.
#[derive(Drop)]
pub struct ClassTable {
    alloc: Global,
    slots: u32,
    classes: IndexMap<String, ClassRow>,
    /// The names of all fields, by number.
    names: IndexSet<String>,
}

impl Model for ClassTable {
    ghost use Rattle.class_schema.specs.Class.{Schema};
    ghost use Rattle.class_schema.specs.Rows.{classes_of, texts, Keeps};

    ghost Value = { Schema };

    ghost view = { λ t. record { slots = t.slots; classes = classes_of (texts t.names.keys) t.classes.entries } };

    ghost invariant = { λ t. Keeps t.slots t.names.keys t.classes.entries };
}

/// Whether the name with this number is this one.
fn is_number(names: &IndexSet<String>, number: usize, name: &str) -> bool
    ensures { result ≡ true → option_map string_bytes (slice_get names.now.keys number) ≡ Some name.now }
{
    match names.get_index(number) {
        Some(key) => key.as_str() == name,
        None => false,
    }
}

impl ClassTable {
    /// A table of the class `Object` alone, for objects of so many cells, 1 to 64.
    pub fn new(alloc: Global, slots: u32) -> Result<ClassTable, AllocError>
        requires some { 1 ≤ slots }
        requires few { slots ≤ 64 }
        ensures { IfOk result (λ table. table ≡ record { slots = slots; classes = object ∷ [] }) }
    {
        let name = String::from_str(alloc, "Object")?;
        let mut classes = IndexMap::new(alloc);
        let row = ClassRow {
            line: 0,
            parent: None,
            has_child: false,
            depth: 0,
            jump: ClassId(0),
            inherited: 0,
            fields: FieldRows::new(alloc),
            refs: 0,
            plain: 0,
            ready: Ready::After(0),
        };
        classes.insert(name, row)?;
        let names = IndexSet::new(alloc);
        Ok(ClassTable {
            alloc,
            slots,
            classes,
            names,
        })
    }

    /// The class of this name; none exactly where no class has it.
    pub fn find_class(&self, name: &str) -> Option<ClassId>
        ensures class { result ≡ find_class self.now.classes name.now }
        ensures known { IfSome result (λ id. id.0 < length self.now.classes) }
    {
        match self.classes.get_index_of(name) {
            Some(index) => Some(ClassId(index as u32)),
            None => None,
        }
    }

    // The line that told the class of this name.
    fn taken(&self, name: &str) -> Option<u32>
        ensures { result ≡ taken self.now.classes name.now }
    {
        match self.classes.get(name) {
            Some(row) => Some(row.line),
            None => None,
        }
    }

    // How many classes there are.
    fn count(&self) -> usize
        ensures { result ≡ length self.now.classes }
    {
        self.classes.len()
    }

    // The parent of a new class of this name, or why there can be none.
    fn admit(&self, name: &str, parent: &str) -> Result<ClassId, SchemaErr>
        ensures { result ≡ admitted self.now.classes name.now parent.now }
    {
        if let Some(line) = self.taken(name) {
            return Err(SchemaErr::NameTaken(line));
        }
        let Some(parent) = self.find_class(parent) else {
            return Err(SchemaErr::NoParent);
        };
        if self.count() >= 4096 {
            return Err(SchemaErr::TooManyClasses);
        }
        Ok(parent)
    }

    /// Adds a class that a line tells, and answers its id. It has the fields and the readiness of
    /// its parent.
    ///
    /// The refusals in order: another class has the name, with that class's line; no class has the
    /// name of the parent; there are 4,096 classes. After an error the table is as it was.
    pub fn add_class(&mut self, line: u32, name: &str, parent: &str) -> Result<ClassId, AddErr>
        ensures { AddsClass self.old line name.now parent.now self.new result }
    {
        let parent = match self.admit(name, parent) {
            Ok(parent) => parent,
            Err(refusal) => return Err(AddErr::Schema(refusal)),
        };
        let id = ClassId(self.count() as u32);
        match self.push(line, name, parent) {
            Ok(()) => Ok(id),
            Err(_) => Err(AddErr::Memory),
        }
    }

    fn push(&mut self, line: u32, name: &str, parent: ClassId) -> Result<(), AllocError>
        requires absent { taken self.old.classes name.now ≡ None }
        requires parent { parent.0 < length self.old.classes }
        requires room { length self.old.classes < 4096 }
        ensures ok { OnOk result (self.new ≡ with_class self.old line name.now parent) }
        ensures err { OnErr result (self.new ≡ self.old) }
    {
        let key = String::from_str(self.alloc, name)?;
        let jump = self.jump_below(parent);
        let above = &self.classes[parent.0 as usize];
        let row = ClassRow {
            line,
            parent: Some(parent),
            has_child: false,
            depth: above.depth + 1,
            jump,
            inherited: above.fields.len(),
            fields: above.fields.copy(self.alloc)?,
            refs: above.refs,
            plain: above.plain,
            ready: above.ready,
        };
        self.classes.insert(key, row)?;
        self.classes[parent.0 as usize].has_child = true;
        Ok(())
    }

    // Where a search for the ancestors of a child of this class may go on: as far up as doubles the
    // last jump, or at the class itself (Myers 1983).
    fn jump_below(&self, parent: ClassId) -> ClassId
        requires { parent.0 < length self.now.classes }
        ensures { IsA (parents self.now.classes) parent result }
    {
        let row = &self.classes[parent.0 as usize];
        let near = &self.classes[row.jump.0 as usize];
        let far = &self.classes[near.jump.0 as usize];
        if row.depth + far.depth == 2 * near.depth {
            near.jump
        } else {
            parent
        }
    }

    /// Adds a field that a line tells, of so many elements, 1 to 64, to a class.
    ///
    /// The refusals in order: the class has children; the class or an ancestor has a field of the
    /// name, with that field's line; the slots that are used and those that are asked for are more
    /// than there are. After an error the table is as it was.
    pub fn add_field(
        &mut self,
        line: u32,
        class: ClassId,
        name: &str,
        kind: FieldKind,
        count: u32,
    ) -> Result<(), AddErr>
        requires class { class.0 < length self.old.classes }
        requires target { IsTrue (has_target (length self.old.classes) kind) }
        requires some { 1 ≤ count }
        requires few { count ≤ 64 }
        ensures { AddsField self.old class (record { name = name.now; line = line; kind = kind; count = count }) self.new result }
    {
        if let Some(refusal) = self.field_refusal(class, name, count) {
            return Err(AddErr::Schema(refusal));
        }
        match self.push_field(line, class, name, kind, count) {
            Ok(()) => Ok(()),
            Err(_) => Err(AddErr::Memory),
        }
    }

    // What is kept of the field of this name, of the class or an ancestor.
    fn find_row(&self, class: ClassId, name: &str) -> Option<FieldRow>
        requires { class.0 < length self.now.classes }
        ensures line { option_map (λ row. row.line) result ≡ field_line self.now.classes class name.now }
        ensures field { option_map (λ row. row.field) result ≡ find_field self.now class name.now }
    {
        match self.names.get_index_of(name) {
            Some(number) => self.classes[class.0 as usize].fields.find(number),
            None => None,
        }
    }

    // Why so many slots cannot be had.
    fn no_room(&self, class: ClassId, count: u32) -> Option<SchemaErr>
        requires class { class.0 < length self.now.classes }
        requires few { count ≤ 64 }
        ensures { result ≡ no_room self.now.slots (used_slots (fields self.now.classes class)) count }
    {
        let row = &self.classes[class.0 as usize];
        let used = row.refs + row.plain;
        if used + count > self.slots {
            Some(SchemaErr::TooManySlots { used, asked: count })
        } else {
            None
        }
    }

    // Whether a class has this one as its parent.
    fn has_children(&self, class: ClassId) -> bool
        requires { class.0 < length self.now.classes }
        ensures { result ≡ has_children (parents self.now.classes) class }
    {
        self.classes[class.0 as usize].has_child
    }

    // Why a field of this name and count is refused.
    fn field_refusal(&self, class: ClassId, name: &str, count: u32) -> Option<SchemaErr>
        requires class { class.0 < length self.now.classes }
        requires few { count ≤ 64 }
        ensures { result ≡ field_refusal self.now class name.now count }
    {
        let is_parent = self.has_children(class);
        if is_parent {
            return Some(SchemaErr::HasChildren);
        }
        if let Some(row) = self.find_row(class, name) {
            return Some(SchemaErr::NameTaken(row.line));
        }
        self.no_room(class, count)
    }

    fn push_field(
        &mut self,
        line: u32,
        class: ClassId,
        name: &str,
        kind: FieldKind,
        count: u32,
    ) -> Result<(), AllocError>
        requires class { class.0 < length self.old.classes }
        requires target { IsTrue (has_target (length self.old.classes) kind) }
        requires some { 1 ≤ count }
        requires few { count ≤ 64 }
        requires admitted { field_refusal self.old class name.now count ≡ None }
        ensures ok { OnOk result (self.new ≡ with_field self.old class (record { name = name.now; line = line; kind = kind; count = count })) }
        ensures err { OnErr result (self.new ≡ self.old) }
    {
        let number = match self.names.get_index_of(name) {
            Some(number) => number,
            None => return self.push_named(line, class, name, kind, count),
        };
        self.classes[class.0 as usize].push(self.slots, number, line, kind, count)?;
        Ok(())
    }

    // The same where no field has the name yet.
    fn push_named(
        &mut self,
        line: u32,
        class: ClassId,
        name: &str,
        kind: FieldKind,
        count: u32,
    ) -> Result<(), AllocError>
        requires class { class.0 < length self.old.classes }
        requires target { IsTrue (has_target (length self.old.classes) kind) }
        requires some { 1 ≤ count }
        requires few { count ≤ 64 }
        requires absent { has_field self.old.classes name.now ≡ false }
        requires admitted { field_refusal self.old class name.now count ≡ None }
        ensures ok { OnOk result (self.new ≡ with_field self.old class (record { name = name.now; line = line; kind = kind; count = count })) }
        ensures err { OnErr result (self.new ≡ self.old) }
    {
        let key = String::from_str(self.alloc, name)?;
        self.names.reserve(1)?;
        let number = self.names.len();
        self.classes[class.0 as usize].push(self.slots, number, line, kind, count)?;
        self.names.insert(key)?;
        Ok(())
    }

    /// Sets when the objects of a class are ready, which its children will inherit.
    ///
    /// The one refusal is `HasChildren`; the table is then as it was.
    pub fn set_ready(&mut self, class: ClassId, ready: Ready) -> Result<(), SchemaErr>
        requires class { class.0 < length self.old.classes }
        requires ready { IsTrue (is_readiness ready) }
        ensures { SetsReady self.old class ready self.new result }
    {
        if self.has_children(class) {
            return Err(SchemaErr::HasChildren);
        }
        self.classes[class.0 as usize].ready = ready;
        Ok(())
    }

    /// The field of this name, of the class or an ancestor; none exactly where none has it.
    pub fn find_field(&self, class: ClassId, name: &str) -> Option<Field>
        requires { class.0 < length self.now.classes }
        ensures field { result ≡ find_field self.now class name.now }
        ensures fits { IfSome result (FitsIn self.now class) }
    {
        let _ = &self.classes;
        match self.find_row(class, name) {
            Some(row) => Some(row.field),
            None => None,
        }
    }

    /// The same as `find_field`, where the caller guesses the number of the field's name among all
    /// names of fields, from 0 in the order in which they were told first. A right guess saves the
    /// search for the name; a wrong one costs a comparison.
    pub fn find_field_hinted(&self, class: ClassId, name: &str, guess: u32) -> Option<Field>
        requires { class.0 < length self.now.classes }
        ensures field { result ≡ find_field self.now class name.now }
        ensures fits { IfSome result (FitsIn self.now class) }
    {
        if !is_number(&self.names, guess as usize, name) {
            return self.find_field(class, name);
        }
        match self.classes[class.0 as usize].fields.find(guess as usize) {
            Some(row) => Some(row.field),
            None => None,
        }
    }

    /// Whether some class has a field of this name.
    pub fn has_field(&self, name: &str) -> bool
        ensures { result ≡ has_field self.now.classes name.now }
    {
        self.names.contains(name)
    }

    /// Whether a class is another, or descends from it.
    pub fn is_a(&self, class: ClassId, of: ClassId) -> bool
        requires class { class.0 < length self.now.classes }
        requires of { of.0 < length self.now.classes }
        ensures test { result ≡ is_a self.now.classes class of }
        ensures yes { IsTrue result → IsA (parents self.now.classes) class of }
        ensures no { IsA (parents self.now.classes) class of → IsTrue result }
    {
        let _ = &self.classes;
        let mut at = class;
        while at.0 > of.0 {
            at = self.step_up(at, of);
        }
        at.0 == of.0
    }

    // An ancestor of a class, at which the search for another, with a lower id, may go on.
    fn step_up(&self, class: ClassId, of: ClassId) -> ClassId
        requires class { class.0 < length self.now.classes }
        requires below { of.0 < class.0 }
        ensures up { result.0 < class.0 }
        ensures yes { IsA (parents self.now.classes) result of → IsA (parents self.now.classes) class of }
        ensures no { IsA (parents self.now.classes) class of → IsA (parents self.now.classes) result of }
    {
        let row = &self.classes[class.0 as usize];
        if row.jump.0 >= of.0 {
            return row.jump;
        }
        match row.parent {
            Some(parent) => parent,
            None => ClassId(0),
        }
    }

    /// Whether this is the id of a class of the table.
    pub fn has_class(&self, class: ClassId) -> bool
        ensures { result ≡ nat_lt class.0 (length self.now.classes) }
    {
        (class.0 as usize) < self.classes.len()
    }

    /// What the objects of a class are made of.
    pub fn kind(&self, class: ClassId) -> Kind
        requires { class.0 < length self.now.classes }
        ensures kind { result ≡ kind_of self.now class }
        ensures lawful { (z : Sizes) → z.slots ≡ self.now.slots → IsTrue (is_lawful z result) }
    {
        let row = &self.classes[class.0 as usize];
        Kind {
            class,
            refs: row.refs,
            plain: row.plain,
            ready: row.ready,
        }
    }

    /// The name of a class.
    pub fn class_name(&self, class: ClassId) -> &str
        requires { class.0 < length self.now.classes }
        ensures { result.now ≡ (class_at self.now.classes class).name }
    {
        match self.classes.get_index(class.0 as usize) {
            Some((name, _)) => name.as_str(),
            None => "",
        }
    }

    /// Does nothing: its contract tells the layer above what is true of each table.
    pub fn lawful(&self)
        ensures { IsSchema self.now }
    {
        let _ = self.classes.len();
    }
}
