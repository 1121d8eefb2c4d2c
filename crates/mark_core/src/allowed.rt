//! Which events an actor may do.
ghost use Rattle.std.specs.Prelude.{◌≡◌, ℕ, ◌<◌, ◌≤◌, ◌↔◌, Bool, true, false, IsTrue, Some, None};
ghost use Rattle.mark_core.specs.Machine.{Lane, Marker, Collector, words};
ghost use Rattle.mark_core.specs.Numbered.{actor_of, cell_of, step_of};
ghost use Rattle.mark_core.specs.Shown.{state, sizes};
ghost use Rattle.mark_core.specs.Steps.{LoadCell, RootBit, IsFree, MayStore, MayUse, found_of, is_roots, LaneMay, MarkerMay, CollectorMay, Allowed};

use crate::machine::Machine;
use crate::types::{Actor, Cell, Event, Job, Place};
use world_model::Phase;

impl Machine {
    pub(crate) fn actor_of(&self, actor: u32) -> Actor
        ensures { result ≡ actor_of self.now.shape actor }
    {
        let z = self.shape();
        if actor < z.lanes {
            return Actor::Lane(actor);
        }
        if actor == z.lanes + z.markers {
            Actor::Collector
        } else {
            Actor::Marker(actor - z.lanes)
        }
    }

    pub(crate) fn cell_of(&self, n: u32) -> Cell
        ensures { result ≡ cell_of self.now.shape n }
    {
        let z = self.shape();
        let cells = z.units * z.cells;
        if n < cells {
            Cell::CellOf {
                unit: n / z.cells,
                cell: n,
            }
        } else {
            Cell::StrongOf {
                lane: n - cells,
                number: 0,
            }
        }
    }

    /// The number of words of a row.
    pub(crate) fn words(&self) -> u32
        ensures { result ≡ words (sizes self.now.shape) }
    {
        ((self.shape().units as u64 + 63) / 64) as u32
    }

    // Whether a lane is open, has nothing in hand and owes nothing.
    fn is_free(&self, lane: u32) -> bool
        ensures { IsTrue result ↔ IsFree (state self.now) lane }
    {
        self.is_lane_open(lane) && self.hand(lane).is_none() && !self.lane_owes(lane)
    }

    // Whether a lane may store this.
    fn may_store(&self, lane: u32, to: Option<u32>) -> bool
        ensures { IsTrue result ↔ MayStore (state self.now) lane to }
    {
        match to {
            Some(u) => self.holds(lane, u) && (self.phase() != Phase::Marking || self.is_marked(u)),
            None => true,
        }
    }

    // Whether a lane may load and swap this cell.
    fn may_use(&self, lane: u32, n: u32) -> bool
        ensures { IsTrue result ↔ MayUse (sizes self.now.shape) (state self.now) lane (cell_of self.now.shape n) }
    {
        match self.cell_of(n) {
            Cell::CellOf { unit, .. } => self.holds(lane, unit),
            Cell::StrongOf { lane: of, .. } => of == lane,
        }
    }

    fn is_row_word(&self, row: u32, word: u32) -> bool
        ensures { IsTrue result ↔ ((row ≤ self.now.shape.markers) × (word < words (sizes self.now.shape))) }
    {
        row <= self.shape().markers && word < self.words()
    }

    pub(crate) fn lane_may(&self, lane: u32, event: Event) -> bool
        ensures { IsTrue result ↔ LaneMay (sizes self.now.shape) (state self.now) lane (step_of self.now.shape event) }
    {
        match event {
            Event::FrameOpen => !self.is_lane_open(lane),
            Event::FrameClose => self.is_free(lane),
            Event::Shade { unit } => {
                self.is_free(lane) && self.phase() == Phase::Marking && self.holds(lane, unit)
            }
            Event::SwapCell { cell, to } => {
                self.is_free(lane) && self.may_use(lane, cell) && self.may_store(lane, to)
            }
            Event::LoadCell { cell } => self.is_free(lane) && self.may_use(lane, cell),
            Event::AddRow { row, unit } => {
                self.is_at(unit, Place::InHand(lane)) && row == self.shape().markers
            }
            Event::SetDirty => self.lane_owes(lane),
            Event::LoadRow { row, word } => self.is_row_word(row, word),
            Event::LoadHead { unit } => unit < self.shape().units,
            Event::RootBit { unit, on } => self.lane_may_root(lane, unit, on),
            Event::BeginExchange
            | Event::TakeRow { .. }
            | Event::ClearDirty
            | Event::CommitExchange
            | Event::DoomHead { .. }
            | Event::Settle => false,
        }
    }

    // Whether a unit stands here.
    pub(crate) fn is_at(&self, u: u32, p: Place) -> bool
        ensures { IsTrue result ↔ (state self.now).place u ≡ p }
    {
        self.place(u as u64) == p
    }

    fn lane_may_root(&self, lane: u32, unit: u32, on: Option<bool>) -> bool
        ensures { IsTrue result ↔ LaneMay (sizes self.now.shape) (state self.now) lane (RootBit unit unit on) }
    {
        match on {
            Some(true) => {
                self.is_free(lane) && unit < self.shape().units && self.may_store(lane, Some(unit))
            }
            Some(false) => {
                self.is_free(lane) && unit < self.shape().units && self.holds(lane, unit)
            }
            None => false,
        }
    }

    pub(crate) fn marker_may(&self, m: u32, event: Event) -> bool
        requires { m < self.now.shape.markers }
        ensures { IsTrue result ↔ MarkerMay (sizes self.now.shape) (state self.now) m (step_of self.now.shape event) }
    {
        match event {
            Event::FrameOpen => !self.is_marker_open(m),
            Event::FrameClose => {
                self.is_marker_open(m)
                    && self.scan(m).is_none()
                    && !self.marker_owes(m)
                    && self.has_no_stack(m)
            }
            Event::Shade { unit } => {
                self.phase() == Phase::Marking && self.has_found_at_cursor(m, unit)
            }
            Event::LoadCell { cell } => self.marker_may_load(m, cell),
            Event::AddRow { row, unit } => self.is_at(unit, Place::OnStack(m)) && row == m,
            Event::TakeRow { row, word } => {
                self.is_marker_open(m)
                    && self.scan(m).is_none()
                    && self.has_no_stack(m)
                    && self.is_row_word(row, word)
            }
            Event::SetDirty => self.marker_owes(m),
            Event::LoadRow { row, word } => self.is_row_word(row, word),
            Event::LoadHead { unit } => unit < self.shape().units,
            Event::BeginExchange
            | Event::SwapCell { .. }
            | Event::ClearDirty
            | Event::CommitExchange
            | Event::DoomHead { .. }
            | Event::Settle
            | Event::RootBit { .. } => false,
        }
    }

    // Whether a marker's found is this unit.
    fn has_found_at_cursor(&self, m: u32, u: u32) -> bool
        ensures { IsTrue result ↔ found_of ((state self.now).scan m) ≡ Some u }
    {
        match self.scan(m) {
            Some(scan) => scan.found == Some(u),
            None => false,
        }
    }

    // Whether a marker's cursor is at this cell, and it has no found.
    fn marker_may_load(&self, m: u32, n: u32) -> bool
        ensures { IsTrue result ↔ MarkerMay (sizes self.now.shape) (state self.now) m (LoadCell (cell_of self.now.shape n)) }
    {
        match self.scan(m) {
            Some(scan) => scan.next == n && scan.found.is_none(),
            None => false,
        }
    }

    pub(crate) fn collector_may(&self, event: Event) -> bool
        ensures { IsTrue result ↔ CollectorMay (sizes self.now.shape) (state self.now) (step_of self.now.shape event) }
    {
        match event {
            Event::BeginExchange => self.job() == Job::NoJob && self.phase() == Phase::Idle,
            Event::Shade { unit } => {
                self.is_in_roots()
                    && self.has_found(unit)
                    && self.own_hand().is_none()
                    && self.phase() == Phase::Marking
            }
            Event::LoadCell { cell } => self.collector_may_load(cell),
            Event::AddRow { row, unit } => {
                self.is_at(unit, Place::InCollector) && row == self.shape().markers
            }
            Event::ClearDirty => self.job() == Job::NoJob && self.phase() == Phase::Marking,
            Event::LoadRow { row, word } => self.is_row_word(row, word),
            Event::CommitExchange => {
                self.job()
                    == Job::Look {
                        row: self.shape().markers + 1,
                        word: 0,
                    }
            }
            Event::LoadHead { unit } => unit < self.shape().units,
            Event::DoomHead { unit } => {
                self.phase() == Phase::Gathering && !self.is_marked(unit) && !self.is_doomed(unit)
            }
            Event::Settle => self.phase() == Phase::Gathering && self.has_no_white(),
            Event::RootBit { unit, on } => {
                on.is_none() && self.job() == Job::Roots(unit as u64) && unit < self.shape().units
            }
            Event::FrameOpen
            | Event::FrameClose
            | Event::SwapCell { .. }
            | Event::TakeRow { .. }
            | Event::SetDirty => false,
        }
    }

    fn is_in_roots(&self) -> bool
        ensures { IsTrue result ↔ is_roots (state self.now).job ≡ true }
    {
        match self.job() {
            Job::Roots(_) => true,
            _ => false,
        }
    }

    // Whether the collector is in Roots at this strong pointer.
    fn collector_may_load(&self, n: u32) -> bool
        ensures { IsTrue result ↔ CollectorMay (sizes self.now.shape) (state self.now) (LoadCell (cell_of self.now.shape n)) }
    {
        match self.cell_of(n) {
            Cell::CellOf { .. } => false,
            Cell::StrongOf { lane, .. } => {
                self.job() == Job::Roots(self.shape().units as u64 + lane as u64)
                    && lane < self.shape().lanes
            }
        }
    }

    /// Whether this actor may do this event now.
    pub(crate) fn may(&self, actor: Actor, event: Event) -> bool
        ensures { IsTrue result ↔ Allowed (sizes self.now.shape) (state self.now) actor (step_of self.now.shape event) }
    {
        match actor {
            Actor::Lane(lane) => lane < self.shape().lanes && self.lane_may(lane, event),
            Actor::Marker(m) => m < self.shape().markers && self.marker_may(m, event),
            Actor::Collector => self.collector_may(event),
        }
    }
}
