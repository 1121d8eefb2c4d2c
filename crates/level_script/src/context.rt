//! What the lines so far have made known, and what one more line adds.
ghost use Rattle.std.specs.Prelude.{◌≡◌, ◌≤◌, length, IsTrue, IfOk, IfSome, Ok};
ghost use Rattle.class_schema.specs.Lawful.{has_target};
ghost use Rattle.level_script.specs.Context.{AreLawful, start, with_line, after_class, elements_in, kind_found, with_named, after_field, after_lane_line, after_said, Takes, script_from};

use crate::cause::{Cause, Stop};
use crate::forms::{Identifier, Number};
use crate::lanes::Lanes;
use crate::limits::Limits;
use crate::names::NameTable;
use crate::said::{Does, FieldOf, Said};
use crate::script::{Cmd, FieldNames, GcCmd, Line, Lines, Script};
use crate::tables::Tables;
use class_schema::{AddErr, ClassTable, FieldKind};
use std::alloc::{AllocError, Global};

/// How many elements a field has.
fn elements_in(count: &Option<Number>) -> Option<u32>
    ensures count { result ≡ elements_in count.now }
    ensures some { IfSome result (λ n. 1 ≤ n) }
    ensures few { IfSome result (λ n. n ≤ 64) }
{
    let Some(count) = count else {
        return Some(1);
    };
    match count.get() {
        Some(value) if 1 <= value && value <= 64 => Some(value as u32),
        _ => None,
    }
}

/// What the lines so far have made known.
#[derive(Drop)]
pub struct Context {
    tables: Tables,
    /// Whether no line of another command than those of the header has come.
    in_header: bool,
    lanes: Lanes,
    /// The lines that do something.
    lines: Lines,
}

impl Context {
    /// What is known before the first line.
    pub fn new(alloc: Global, limits: &Limits) -> Result<Context, AllocError>
        requires { AreLawful limits.now }
        ensures { IfOk result (λ context. context ≡ start limits.now) }
    {
        let classes = ClassTable::new(alloc, limits.slots)?;
        let lanes = Lanes::new(alloc, limits.lanes)?;
        let tables = Tables {
            classes,
            fields: NameTable::new(alloc),
            weaks: NameTable::new(alloc),
            strong: limits.strong,
        };
        Ok(Context {
            tables,
            in_header: true,
            lanes,
            lines: Lines::new(alloc),
        })
    }

    /// Appends a line that does something, which ends the header.
    fn push(&mut self, number: u32, cmd: Cmd) -> Result<(), Stop>
        ensures { Takes (Ok (with_line self.old number cmd)) self.new result }
    {
        self.in_header = false;
        match self.lines.push(Line { number, cmd }) {
            Ok(()) => Ok(()),
            Err(_) => Err(Stop::Memory),
        }
    }

    /// A line of the header that tells a class.
    fn add_class(
        &mut self,
        number: u32,
        name: &Identifier<'_>,
        parent: &Identifier<'_>,
    ) -> Result<(), Stop>
        ensures { Takes (after_class number self.old name.now parent.now) self.new result }
    {
        match self
            .tables
            .classes
            .add_class(number, name.as_str(), parent.as_str())
        {
            Ok(_) => Ok(()),
            Err(AddErr::Schema(refusal)) => Err(Stop::Faulty(Cause::Schema(refusal))),
            Err(AddErr::Memory) => Err(Stop::Memory),
        }
    }

    /// What the elements of a field are.
    fn kind_found(&self, of: &FieldOf<'_>) -> Option<FieldKind>
        ensures kind { result ≡ kind_found self.now.tables.classes.classes of.now }
        ensures known { IfSome result (λ kind. IsTrue (has_target (length self.now.tables.classes.classes) kind)) }
    {
        match of {
            FieldOf::Ref(name) => match self.tables.classes.find_class(name.as_str()) {
                Some(class) => Some(FieldKind::Ref(class)),
                None => None,
            },
            FieldOf::Weak => Some(FieldKind::Weak),
            FieldOf::Int => Some(FieldKind::Int),
        }
    }

    /// The name of a field of the table is known.
    fn name_field(&mut self, name: &Identifier<'_>) -> Result<(), Stop>
        ensures { Takes (with_named self.old name.now (Ok self.old.tables.classes)) self.new result }
    {
        match self.tables.fields.add(name.as_str()) {
            Ok(_) => Ok(()),
            Err(_) => Err(Stop::Memory),
        }
    }

    /// A line of the header that tells a field of a class.
    fn add_field(
        &mut self,
        number: u32,
        class: &Identifier<'_>,
        name: &Identifier<'_>,
        of: &FieldOf<'_>,
        count: &Option<Number>,
    ) -> Result<(), Stop>
        ensures { Takes (after_field number self.old class.now name.now of.now count.now) self.new result }
    {
        let Some(count) = elements_in(count) else {
            return Err(Stop::Faulty(Cause::Number));
        };
        let Some(class) = self.tables.classes.find_class(class.as_str()) else {
            return Err(Stop::Faulty(Cause::UnknownName));
        };
        let Some(kind) = self.kind_found(of) else {
            return Err(Stop::Faulty(Cause::UnknownName));
        };
        match self
            .tables
            .classes
            .add_field(number, class, name.as_str(), kind, count)
        {
            Ok(()) => self.name_field(name),
            Err(AddErr::Schema(refusal)) => Err(Stop::Faulty(Cause::Schema(refusal))),
            Err(AddErr::Memory) => Err(Stop::Memory),
        }
    }

    /// A line of a lane.
    pub fn lane_line(&mut self, number: u32, lane: &Number, does: &Does<'_>) -> Result<(), Stop>
        ensures { Takes (after_lane_line number self.old lane.now does.now) self.new result }
    {
        let Some(lane) = self.lanes.find(lane) else {
            return Err(Stop::Faulty(Cause::Number));
        };
        let cmd = self.lanes.step(lane, &mut self.tables, does)?;
        self.push(number, Cmd::Lane(lane, cmd))
    }

    /// A line that says this.
    pub fn act(&mut self, number: u32, said: &Said<'_>) -> Result<(), Stop>
        ensures { Takes (after_said number self.old said.now) self.new result }
    {
        match said {
            Said::Nothing => Ok(()),
            Said::Class { name, parent } => self.add_class(number, name, parent),
            Said::Field {
                class,
                name,
                of,
                count,
            } => self.add_field(number, class, name, of, count),
            Said::Full => self.push(number, Cmd::Gc(GcCmd::Full)),
            Said::Lane { lane, does } => self.lane_line(number, lane, does),
        }
    }

    /// Whether a line of the header may follow.
    pub fn is_in_header(&self) -> bool
        ensures { result ≡ self.now.in_header }
    {
        self.in_header
    }

    /// The script that the lines are.
    pub fn into_script(self, alloc: Global) -> Result<Script, AllocError>
        ensures { IfOk result (λ script. script ≡ script_from self) }
    {
        let vars = self.lanes.counts(alloc)?;
        let tables = self.tables;
        let weaks = tables.weaks.count();
        Ok(Script {
            classes: tables.classes,
            fields: FieldNames::from_table(tables.fields),
            lines: self.lines,
            vars,
            weaks,
        })
    }
}
