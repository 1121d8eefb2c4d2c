//! What the events of the collector do.
ghost use Rattle.std.specs.Prelude.{◌≡◌, ℕ, ◌+◌, ◌<◌, ◌≤◌, ◌^◌, Bool, true, false, not, Some, None, Option, IfSome, IsTrue, ◌↔◌};
ghost use Rattle.mark_core.specs.Lawful.{Lawful};
ghost use Rattle.mark_core.specs.Numbered.{cell_of, step_of};
ghost use Rattle.mark_core.specs.Shown.{state, sizes};
ghost use Rattle.mark_core.specs.Steps.{BeginExchange, Shade, LoadCell, AddRow, ClearDirty, LoadRow, CommitExchange, RootBit, CollectorMay, after_collector, rests, roots_done, finds_root, is_zero_word, first_look, next_word};
ghost use Rattle.mark_core.specs.Machine.{Roots, row_bit, words};

use crate::machine::Machine;
use crate::types::{Cell, Event, Job, Place};
use world_model::Phase;

impl Machine {
    fn begin(&mut self)
        ensures state { state self.new ≡ after_collector (sizes self.old.shape) (state self.old) BeginExchange }
        ensures shape { self.new.shape ≡ self.old.shape }
    {
        if self.frames() == 0 {
            self.set_phase(Phase::Marking);
            self.flip();
            self.forget_scanned();
            self.set_job(Job::Roots(0));
        }
    }

    // Roots ends when all places are loaded, and hand and found are empty.
    fn rest(&mut self)
        ensures state { state self.new ≡ rests (sizes self.old.shape) (state self.old) }
        ensures shape { self.new.shape ≡ self.old.shape }
    {
        if self.is_done() {
            self.set_job(Job::NoJob);
        }
    }

    fn is_done(&self) -> bool
        ensures { result ≡ roots_done (sizes self.now.shape) (state self.now).job (state self.now).own_hand (state self.now).own_found }
    {
        let z = self.shape();
        match self.job() {
            Job::Roots(p) => {
                p >= z.units as u64 + z.lanes as u64
                    && self.own_hand().is_none()
                    && self.found_nothing()
            }
            Job::NoJob => false,
            Job::Look { .. } => false,
        }
    }

    // What was loaded from a place of the root set comes to found.
    fn find_root(&mut self, got: Option<u32>)
        requires { IfSome got (λ u. u < self.old.shape.units) }
        ensures state { state self.new ≡ record (state self.old) { own_found = finds_root (state self.old).own_found got } }
        ensures shape { self.new.shape ≡ self.old.shape }
    {
        if let Some(u) = got {
            self.set_found(u, true);
        }
    }

    fn collector_shades(&mut self, unit: u32)
        requires may { CollectorMay (sizes self.old.shape) (state self.old) (Shade unit) }
        requires lawful { Lawful (sizes self.old.shape) (state self.old) }
        ensures state { state self.new ≡ after_collector (sizes self.old.shape) (state self.old) (Shade unit) }
        ensures shape { self.new.shape ≡ self.old.shape }
    {
        if self.shade(unit, Place::InCollector) {
            self.set_own_hand(Some(unit));
        }
        self.set_found(unit, false);
        self.rest();
    }

    // A place of the root set is loaded.
    fn load_root(&mut self, p: u64)
        requires place { p < 2 ^ 33 }
        requires lawful { Lawful (sizes self.old.shape) (state self.old) }
        ensures state { state self.new ≡ rests (sizes self.old.shape) (record (state self.old) { job = Roots (p + 1); own_found = finds_root (state self.old).own_found ((state self.old).root p) }) }
        ensures shape { self.new.shape ≡ self.old.shape }
    {
        let got = self.root(p);
        self.set_job(Job::Roots(p + 1));
        self.find_root(got);
        self.rest();
    }

    fn collector_loads_cell(&mut self, n: u32)
        requires may { CollectorMay (sizes self.old.shape) (state self.old) (LoadCell (cell_of self.old.shape n)) }
        requires lawful { Lawful (sizes self.old.shape) (state self.old) }
        ensures state { state self.new ≡ after_collector (sizes self.old.shape) (state self.old) (LoadCell (cell_of self.old.shape n)) }
        ensures shape { self.new.shape ≡ self.old.shape }
    {
        if let Cell::StrongOf { lane, .. } = self.cell_of(n) {
            self.load_root(self.shape().units as u64 + lane as u64);
        }
    }

    fn collector_adds(&mut self, row: u32, unit: u32)
        requires { unit < self.old.shape.units }
        ensures state { state self.new ≡ after_collector (sizes self.old.shape) (state self.old) (AddRow row unit) }
        ensures shape { self.new.shape ≡ self.old.shape }
    {
        self.put(unit, Place::InRow(row));
        self.set_own_hand(None);
        self.rest();
    }

    // The first word of the first row, or the end of the rows where they have no words.
    fn first_look(&self) -> Job
        ensures { result ≡ first_look (sizes self.now.shape) }
    {
        let z = self.shape();
        if self.words() > 0 {
            Job::Look { row: 0, word: 0 }
        } else {
            Job::Look {
                row: z.markers + 1,
                word: 0,
            }
        }
    }

    fn begin_look(&mut self)
        ensures state { state self.new ≡ after_collector (sizes self.old.shape) (state self.old) ClearDirty }
        ensures shape { self.new.shape ≡ self.old.shape }
    {
        let first = self.first_look();
        self.set_dirty(false);
        self.set_job(first);
    }

    // Whether a unit's bit in a row is set.
    pub(crate) fn row_bit(&self, row: u32, u: u64) -> bool
        ensures { result ≡ row_bit (state self.now).place row u }
    {
        match self.place(u) {
            Place::InRow(r) => r == row,
            _ => false,
        }
    }

    // Whether a word of a row is zero.
    fn is_zero_word(&self, row: u32, word: u32) -> bool
        ensures { result ≡ is_zero_word (state self.now).place row word }
    {
        let first = 64 * word as u64;
        for i in 0..64u64 {
            if self.row_bit(row, first + i) {
                return false;
            }
        }
        true
    }

    // What comes behind this word of the rows.
    fn next_word(&self, row: u32, word: u32) -> Job
        requires row { row ≤ self.now.shape.markers }
        requires word { word < words (sizes self.now.shape) }
        ensures { result ≡ next_word (sizes self.now.shape) row word }
    {
        let z = self.shape();
        if word + 1 < self.words() {
            Job::Look {
                row,
                word: word + 1,
            }
        } else {
            Job::Look {
                row: row + 1,
                word: 0,
            }
        }
    }

    fn look(&mut self, row: u32, word: u32)
        requires row { row ≤ self.old.shape.markers }
        requires word { word < words (sizes self.old.shape) }
        ensures state { state self.new ≡ after_collector (sizes self.old.shape) (state self.old) (LoadRow row word) }
        ensures shape { self.new.shape ≡ self.old.shape }
    {
        let here = Job::Look { row, word };
        if self.job() == here {
            if self.is_zero_word(row, word) {
                let next = self.next_word(row, word);
                self.set_job(next);
            } else {
                self.set_job(Job::NoJob);
            }
        }
    }

    fn commit(&mut self)
        ensures state { state self.new ≡ after_collector (sizes self.old.shape) (state self.old) CommitExchange }
        ensures shape { self.new.shape ≡ self.old.shape }
    {
        if self.frames() == 0 && !self.is_dirty() {
            self.set_phase(Phase::Gathering);
        }
        self.set_job(Job::NoJob);
    }

    pub(crate) fn collector_does(&mut self, event: Event)
        requires may { CollectorMay (sizes self.old.shape) (state self.old) (step_of self.old.shape event) }
        requires lawful { Lawful (sizes self.old.shape) (state self.old) }
        ensures state { state self.new ≡ after_collector (sizes self.old.shape) (state self.old) (step_of self.old.shape event) }
        ensures shape { self.new.shape ≡ self.old.shape }
    {
        match event {
            Event::BeginExchange => self.begin(),
            Event::Shade { unit } => self.collector_shades(unit),
            Event::LoadCell { cell } => self.collector_loads_cell(cell),
            Event::AddRow { row, unit } => self.collector_adds(row, unit),
            Event::ClearDirty => self.begin_look(),
            Event::LoadRow { row, word } => self.look(row, word),
            Event::CommitExchange => self.commit(),
            Event::DoomHead { unit } => self.doom(unit),
            Event::Settle => self.set_phase(Phase::Idle),
            Event::RootBit { unit, on } => {
                if on.is_none() {
                    self.load_root(unit as u64);
                }
            }
            Event::LoadHead { .. } => {}
            Event::FrameOpen
            | Event::FrameClose
            | Event::SwapCell { .. }
            | Event::TakeRow { .. }
            | Event::SetDirty => {}
        }
    }
}
