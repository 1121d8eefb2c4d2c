//! The lanes of a script, as far as it has been read.
ghost use Rattle.std.specs.Prelude.{◌≡◌, ◌&&◌, ◌<◌, ◌≤◌, length, map, replicate, IfOk, OnOk, Some, slice_get};
ghost use Rattle.level_script.specs.Names.{number_in};
ghost use Rattle.level_script.specs.Operands.{is_in_range};
ghost use Rattle.level_script.specs.Context.{with_weak};
ghost use Rattle.level_script.specs.Lanes.{closed_lane, bound_var, spot_found, bound_target, weak_target, known_of, known_bound, operands_known, with_command, with_frame, with_var, with_bound, lane_step, lane_index, Steps, StepsAt, count_of};

use crate::cause::{Cause, Stop};
use crate::forms::{Identifier, Number};
use crate::lane_cmd::{LaneCmd, command_of, frame_of};
use crate::names::{NameTable, NumberSet};
use crate::operand::{Binds, Frame, Known, Operand, Place, below, element_in};
use crate::said::Does;
use crate::script::{Counts, Spot};
use crate::tables::Tables;
use std::alloc::{AllocError, Global};
use std::marker::Model;

/// The number of the weak variable whose value is stored, or none.
fn weak_target(weaks: &NameTable, to: &Option<Identifier<'_>>) -> Option<Option<u32>>
    ensures { result ≡ weak_target weaks.now to.now }
{
    let Some(name) = to else {
        return Some(None);
    };
    Some(Some(weaks.find(name.as_str())?))
}

/// Whether the numbers of a line are in their ranges, where a lane has so many strong pointers.
fn are_in_range(strong: u32, does: &Does<'_>) -> bool
    ensures { result ≡ (is_in_range strong does.now.first && is_in_range strong does.now.second) }
{
    does.first.is_in_range(strong) && does.second.is_in_range(strong)
}

/// A lane.
#[derive(Drop)]
pub struct LaneNames {
    /// Whether its frame is open.
    opened: bool,
    /// The names of its object variables, by number.
    names: NameTable,
    /// The numbers of those that are bound in the open frame.
    bound: NumberSet,
}

impl LaneNames {
    /// A lane whose frame was never open, with no variable.
    fn new(alloc: Global) -> LaneNames
        ensures { result ≡ closed_lane }
    {
        LaneNames {
            opened: false,
            names: NameTable::new(alloc),
            bound: NumberSet::new(alloc),
        }
    }

    /// The number of a variable that is bound in the open frame.
    fn bound_var(&self, name: &str) -> Option<u32>
        ensures { result ≡ bound_var self.now name.now }
    {
        let number = self.names.find(name)?;
        if self.bound.has(number) {
            Some(number)
        } else {
            None
        }
    }

    /// The variable whose object is stored, or none.
    fn target(&self, to: &Option<Identifier<'_>>) -> Option<Option<u32>>
        ensures { result ≡ bound_target self.now to.now }
    {
        let Some(name) = to else {
            return Some(None);
        };
        Some(Some(self.bound_var(name.as_str())?))
    }

    /// An element of a variable that is bound, in a field whose name is known.
    fn spot(&self, fields: &NameTable, place: &Place<'_>) -> Option<Spot>
        ensures { result ≡ spot_found self.now fields.now place.now }
    {
        let element = element_in(&place.element)?;
        let var = self.bound_var(place.var.as_str())?;
        let field = fields.find(place.field.as_str())?;
        Some(Spot {
            var,
            field,
            element,
        })
    }

    /// What a word stands for, if its names are known.
    fn known(&self, tables: &Tables, word: &Operand<'_>) -> Option<Known>
        ensures { result ≡ known_of tables.now self.now word.now }
    {
        match word {
            Operand::Nothing => Some(Known::Nothing),
            Operand::Var(name) => Some(Known::Var(self.bound_var(name.as_str())?)),
            Operand::Target(to) => Some(Known::Target(self.target(to)?)),
            Operand::Class(name) => Some(Known::Class(tables.classes.find_class(name.as_str())?)),
            Operand::Spot(place) => Some(Known::Spot(self.spot(&tables.fields, place)?)),
            Operand::Switch(on) => Some(Known::Switch(*on)),
            Operand::Value(number) => Some(Known::Value(number.get()?)),
            Operand::Strong(number) => Some(Known::Strong(below(number, tables.strong)?)),
            Operand::Index(number) => Some(Known::Index(element_in(number)?)),
            Operand::Weak(name) => Some(Known::Weak(tables.weaks.find(name.as_str())?)),
            Operand::WeakTarget(to) => Some(Known::WeakTarget(weak_target(&tables.weaks, to)?)),
        }
    }

    /// What the words stand for, but for those that are bound, if all names are known.
    fn operands(&self, tables: &Tables, does: &Does<'_>) -> Option<(Known, Known)>
        ensures { result ≡ operands_known (known_of tables.now self.now does.now.first) (known_of tables.now self.now does.now.second) }
    {
        let first = self.known(tables, &does.first)?;
        let second = self.known(tables, &does.second)?;
        Some((first, second))
    }

    /// Opens or closes the frame; a close ends the variables.
    fn enter(&mut self, frame: Frame)
        ensures { self.new ≡ with_frame frame self.old }
    {
        match frame {
            Frame::Opens => self.opened = true,
            Frame::Closes => {
                self.opened = false;
                self.bound.clear();
            }
            Frame::Inside => {}
            Frame::Anywhere => {}
        }
    }

    /// Binds a variable, and gives its number.
    pub fn bind_var(&mut self, name: &str) -> Result<u32, AllocError>
        ensures number { IfOk result (λ number. number ≡ number_in self.old.names name.now) }
        ensures bound { OnOk result (self.new ≡ with_var name.now self.old) }
    {
        let number = self.names.add(name)?;
        self.bound.add(number)?;
        Ok(number)
    }

    /// Binds what a line binds, and tells what that is. After an error nothing is said of the lane.
    fn bind(
        &mut self,
        tables: &mut Tables,
        seen: &mut NumberSet,
        binds: &Binds<'_>,
    ) -> Result<Known, Stop>
        ensures lane { Steps (with_command (with_bound binds.now self.old) (known_bound tables.old self.old binds.now)) self.new result }
        ensures tables { OnOk result (tables.new ≡ with_weak binds.now tables.old) }
    {
        match binds {
            Binds::Nothing => Ok(Known::Nothing),
            Binds::Var(name) => match self.bind_var(name.as_str()) {
                Ok(var) => Ok(Known::Var(var)),
                Err(_) => Err(Stop::Memory),
            },
            Binds::Weak(name) => match tables.weaks.add(name.as_str()) {
                Ok(weak) => Ok(Known::Weak(weak)),
                Err(_) => Err(Stop::Memory),
            },
            Binds::Members(words) => self.bind_members(&tables.classes, seen, words),
        }
    }

    /// Does what a line of the lane says. After an error nothing is said of the lane.
    fn step(
        &mut self,
        tables: &mut Tables,
        seen: &mut NumberSet,
        does: &Does<'_>,
    ) -> Result<LaneCmd, Stop>
        ensures lane { Steps (lane_step tables.old self.old does.now) self.new result }
        ensures tables { OnOk result (tables.new ≡ with_weak does.now.binds tables.old) }
    {
        if !are_in_range(tables.strong, does) {
            return Err(Stop::Faulty(Cause::Number));
        }
        let frame = frame_of(does.verb);
        if !frame.allows(self.opened) {
            return Err(Stop::Faulty(Cause::Frame));
        }
        let Some((first, second)) = self.operands(tables, does) else {
            return Err(Stop::Faulty(Cause::UnknownName));
        };
        self.enter(frame);
        let bound = self.bind(tables, seen, &does.binds)?;
        match command_of(does.verb, bound, first, second) {
            Some(cmd) => Ok(cmd),
            None => Err(Stop::Faulty(Cause::UnknownName)),
        }
    }

    /// How many object variables the lane has.
    fn count(&self) -> u32
        ensures { result ≡ count_of self.now }
    {
        self.names.count()
    }
}

/// The lanes, at most 8. Contracts see them as their list.
#[derive(Drop)]
pub struct Lanes {
    items: Vec<LaneNames>,
    /// The variables of the members of one line, by which a variable that stands twice is found.
    seen: NumberSet,
}

impl Model for Lanes {
    ghost use Rattle.std.specs.Prelude.{List, length, ◌≤◌};
    ghost use Rattle.level_script.specs.declared.lanes.LaneNames.{LaneNames};

    ghost Value = { List LaneNames };

    ghost view = { λ l. l.items.items };

    ghost invariant = { λ l. length l.items.items ≤ 8 };
}

impl Lanes {
    /// So many closed lanes, with no variable.
    pub fn new(alloc: Global, count: u32) -> Result<Lanes, AllocError>
        requires { count ≤ 8 }
        ensures { IfOk result (λ lanes. lanes ≡ replicate count closed_lane) }
    {
        let mut items = Vec::new(alloc);
        for _ in 0..count {
            items.push(LaneNames::new(alloc))?;
        }
        Ok(Lanes {
            items,
            seen: NumberSet::new(alloc),
        })
    }

    /// The lane that a number names.
    pub fn find(&self, lane: &Number) -> Option<u32>
        ensures { result ≡ lane_index (length self.now) lane.now }
    {
        match lane.get() {
            Some(value) if value < self.items.len() as u64 => Some(value as u32),
            _ => None,
        }
    }

    /// Does what a line of a lane says.
    pub fn step(&mut self, lane: u32, tables: &mut Tables, does: &Does<'_>) -> Result<LaneCmd, Stop>
        requires { lane < length self.old }
        ensures lane { StepsAt tables.old self.old lane does.now self.new result }
        ensures tables { OnOk result (tables.new ≡ with_weak does.now.binds tables.old) }
    {
        let lane = &mut self.items[lane as usize];
        lane.step(tables, &mut self.seen, does)
    }

    /// How many object variables each lane has.
    pub fn counts(&self, alloc: Global) -> Result<Counts, AllocError>
        ensures { IfOk result (λ counts. counts ≡ map count_of self.now) }
    {
        let items = self.items.iter().map(|lane| lane.count()).collect(alloc)?;
        Ok(Counts::from_vec(items))
    }
}
