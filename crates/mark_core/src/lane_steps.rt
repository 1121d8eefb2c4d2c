//! What the events of a lane do.
ghost use Rattle.std.specs.Prelude.{◌≡◌, ℕ, ◌<◌, ◌≤◌, Bool, not, true, false, Some, None, Option, IfSome};
ghost use Rattle.mark_core.specs.Lawful.{Lawful};
ghost use Rattle.mark_core.specs.Machine.{InHand};
ghost use Rattle.mark_core.specs.Numbered.{cell_of, step_of};
ghost use Rattle.mark_core.specs.Shown.{state, sizes};
ghost use Rattle.mark_core.specs.Steps.{FrameClose, Shade, SwapCell, LoadCell, AddRow, SetDirty, LoadHead, LaneMay, after_lane, gains, marks, is_live};
ghost use Rattle.mark_core.specs.Units.{IsStackOf};

use crate::machine::Machine;
use crate::types::{Cell, Event, Place};
use world_model::Phase;

impl Machine {
    /// A unit is marked. If it was white it stands here now; the answer says whether it was.
    pub(crate) fn shade(&mut self, unit: u32, place: Place) -> bool
        requires unit { unit < self.old.shape.units }
        requires alive { (state self.old).doomed unit ≡ false }
        requires stack { IsStackOf self.old.shape.markers place }
        ensures state { state self.new ≡ marks (state self.old) unit place }
        ensures shape { self.new.shape ≡ self.old.shape }
        ensures was { result ≡ not ((state self.old).marked unit) }
    {
        if self.is_marked(unit) {
            self.mark(unit);
            return false;
        }
        self.mark(unit);
        self.put(unit, place);
        true
    }

    // The lane holds what was given.
    fn gain(&mut self, lane: u32, got: Option<u32>)
        requires lane { lane < self.old.shape.lanes }
        requires unit { IfSome got (λ u. u < self.old.shape.units) }
        ensures state { state self.new ≡ gains (state self.old) lane got }
        ensures shape { self.new.shape ≡ self.old.shape }
    {
        if let Some(u) = got {
            self.hold(lane, u);
        }
    }

    fn lane_closes(&mut self, lane: u32)
        requires { lane < self.old.shape.lanes }
        ensures state { state self.new ≡ after_lane (sizes self.old.shape) (state self.old) lane FrameClose }
        ensures shape { self.new.shape ≡ self.old.shape }
    {
        self.set_lane_open(lane, false);
        self.drop_held(lane);
    }

    fn lane_shades(&mut self, lane: u32, unit: u32)
        requires lane { lane < self.old.shape.lanes }
        requires may { LaneMay (sizes self.old.shape) (state self.old) lane (Shade unit) }
        requires lawful { Lawful (sizes self.old.shape) (state self.old) }
        ensures state { state self.new ≡ after_lane (sizes self.old.shape) (state self.old) lane (Shade unit) }
        ensures shape { self.new.shape ≡ self.old.shape }
    {
        if self.shade(unit, Place::InHand(lane)) {
            self.set_hand(lane, Some(unit));
        }
    }

    fn lane_swaps(&mut self, lane: u32, cell: u32, to: Option<u32>)
        requires lane { lane < self.old.shape.lanes }
        requires may { LaneMay (sizes self.old.shape) (state self.old) lane (SwapCell (cell_of self.old.shape cell) to) }
        requires lawful { Lawful (sizes self.old.shape) (state self.old) }
        ensures state { state self.new ≡ after_lane (sizes self.old.shape) (state self.old) lane (SwapCell (cell_of self.old.shape cell) to) }
        ensures shape { self.new.shape ≡ self.old.shape }
    {
        match self.cell_of(cell) {
            Cell::CellOf { cell, .. } => {
                let old = self.target(cell);
                self.set_target(cell, to);
                self.gain(lane, old);
            }
            Cell::StrongOf { lane: of, .. } => {
                let old = self.root(self.shape().units as u64 + of as u64);
                self.set_strong(of, to);
                self.gain(lane, old);
            }
        }
    }

    fn lane_loads(&mut self, lane: u32, cell: u32)
        requires lane { lane < self.old.shape.lanes }
        requires may { LaneMay (sizes self.old.shape) (state self.old) lane (LoadCell (cell_of self.old.shape cell)) }
        requires lawful { Lawful (sizes self.old.shape) (state self.old) }
        ensures state { state self.new ≡ after_lane (sizes self.old.shape) (state self.old) lane (LoadCell (cell_of self.old.shape cell)) }
        ensures shape { self.new.shape ≡ self.old.shape }
    {
        match self.cell_of(cell) {
            Cell::CellOf { cell, .. } => {
                let got = self.target(cell);
                self.gain(lane, got);
            }
            Cell::StrongOf { lane: of, .. } => {
                let got = self.root(self.shape().units as u64 + of as u64);
                self.gain(lane, got);
            }
        }
    }

    fn lane_adds(&mut self, lane: u32, row: u32, unit: u32)
        requires lane { lane < self.old.shape.lanes }
        requires unit { unit < self.old.shape.units }
        ensures state { state self.new ≡ after_lane (sizes self.old.shape) (state self.old) lane (AddRow row unit) }
        ensures shape { self.new.shape ≡ self.old.shape }
    {
        self.put(unit, Place::InRow(row));
        self.set_hand(lane, None);
        self.set_lane_owes(lane, true);
    }

    fn lane_dirties(&mut self, lane: u32)
        requires { lane < self.old.shape.lanes }
        ensures state { state self.new ≡ after_lane (sizes self.old.shape) (state self.old) lane SetDirty }
        ensures shape { self.new.shape ≡ self.old.shape }
    {
        self.set_dirty(true);
        self.set_lane_owes(lane, false);
    }

    // Whether a unit is in the world.
    fn is_live(&self, u: u32) -> bool
        ensures { result ≡ is_live (state self.now).phase (state self.now).doomed (state self.now).marked u }
    {
        match self.phase() {
            Phase::Marking => !self.is_doomed(u),
            Phase::Idle | Phase::Gathering => !self.is_doomed(u) && self.is_marked(u),
        }
    }

    fn lane_loads_head(&mut self, lane: u32, unit: u32)
        requires lane { lane < self.old.shape.lanes }
        requires unit { unit < self.old.shape.units }
        ensures state { state self.new ≡ after_lane (sizes self.old.shape) (state self.old) lane (LoadHead unit) }
        ensures shape { self.new.shape ≡ self.old.shape }
    {
        if self.is_lane_open(lane) && self.is_live(unit) {
            self.hold(lane, unit);
        }
    }

    pub(crate) fn lane_does(&mut self, lane: u32, event: Event)
        requires lane { lane < self.old.shape.lanes }
        requires may { LaneMay (sizes self.old.shape) (state self.old) lane (step_of self.old.shape event) }
        requires lawful { Lawful (sizes self.old.shape) (state self.old) }
        ensures state { state self.new ≡ after_lane (sizes self.old.shape) (state self.old) lane (step_of self.old.shape event) }
        ensures shape { self.new.shape ≡ self.old.shape }
    {
        match event {
            Event::FrameOpen => self.set_lane_open(lane, true),
            Event::FrameClose => self.lane_closes(lane),
            Event::Shade { unit } => self.lane_shades(lane, unit),
            Event::SwapCell { cell, to } => self.lane_swaps(lane, cell, to),
            Event::LoadCell { cell } => self.lane_loads(lane, cell),
            Event::AddRow { row, unit } => self.lane_adds(lane, row, unit),
            Event::SetDirty => self.lane_dirties(lane),
            Event::LoadHead { unit } => self.lane_loads_head(lane, unit),
            Event::RootBit { unit, on } => {
                if let Some(on) = on {
                    self.set_root_bit(unit, on);
                }
            }
            Event::LoadRow { .. } => {}
            Event::BeginExchange
            | Event::TakeRow { .. }
            | Event::ClearDirty
            | Event::CommitExchange
            | Event::DoomHead { .. }
            | Event::Settle => {}
        }
    }
}
