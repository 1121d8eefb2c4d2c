//! What the events of a marker do.
ghost use Rattle.std.specs.Prelude.{◌≡◌, ℕ, ◌+◌, ◌*◌, ◌<◌, ◌≤◌, Bool, true, false, Some, None, Option, if◌then◌else◌};
ghost use Rattle.mark_core.specs.Changes.{set_at};
ghost use Rattle.mark_core.specs.Lawful.{Lawful};
ghost use Rattle.mark_core.specs.Machine.{Nowhere, InRow, OnStack, words, same_place};
ghost use Rattle.mark_core.specs.Numbered.{cell_of, step_of};
ghost use Rattle.mark_core.specs.Shown.{state, sizes, scan_of, IsInUnit, own_cells};
ghost use Rattle.mark_core.specs.Steps.{FrameClose, Shade, LoadCell, AddRow, SetDirty, TakeRow, LoadHead, MarkerMay, after_marker, leaves, moves_on, finds, starts, marker_loads, takes};

use crate::machine::Machine;
use crate::types::{Cell, Event, Place, ScanAt};

impl Machine {
    // The cell behind the last of a unit.
    fn end_of(&self, unit: u32) -> u32
        requires { unit < self.now.shape.units }
        ensures { result ≡ (unit + 1) * self.now.shape.cells }
    {
        let z = self.shape();
        (unit + 1) * z.cells
    }

    // A scan at its end leaves its unit scanned.
    fn end_scan(&mut self, unit: u32)
        requires { unit < self.old.shape.units }
        ensures state { state self.new ≡ leaves (state self.old) unit }
        ensures shape { self.new.shape ≡ self.old.shape }
    {
        self.put(unit, Place::Nowhere);
        self.set_scanned(unit);
    }

    // The cursor of this scan moves on, and at the end of the unit the scan ends.
    fn move_on(&mut self, m: u32, scan: ScanAt)
        requires marker { m < self.old.shape.markers }
        requires in_unit { IsInUnit self.old.shape (Some scan) }
        ensures state { state self.new ≡ moves_on (state self.old) m (scan_of self.old.shape (Some scan)) }
        ensures shape { self.new.shape ≡ self.old.shape }
    {
        let end = self.end_of(scan.unit);
        let next = scan.next + 1;
        if next < end {
            let on = ScanAt {
                unit: scan.unit,
                next,
                found: None,
            };
            self.set_scan(m, Some(on));
        } else {
            self.end_scan(scan.unit);
            self.set_scan(m, None);
        }
    }

    fn marker_shades(&mut self, m: u32, unit: u32)
        requires marker { m < self.old.shape.markers }
        requires may { MarkerMay (sizes self.old.shape) (state self.old) m (Shade unit) }
        requires lawful { Lawful (sizes self.old.shape) (state self.old) }
        ensures state { state self.new ≡ after_marker (sizes self.old.shape) (state self.old) m (Shade unit) }
        ensures shape { self.new.shape ≡ self.old.shape }
    {
        let scan = self.scan(m);
        self.shade(unit, Place::OnStack(m));
        if let Some(scan) = scan {
            self.move_on(m, scan);
        }
    }

    fn marker_loads_cell(&mut self, m: u32, n: u32)
        requires marker { m < self.old.shape.markers }
        requires may { MarkerMay (sizes self.old.shape) (state self.old) m (LoadCell (cell_of self.old.shape n)) }
        ensures state { state self.new ≡ after_marker (sizes self.old.shape) (state self.old) m (LoadCell (cell_of self.old.shape n)) }
        ensures shape { self.new.shape ≡ self.old.shape }
    {
        if let Cell::CellOf { cell, .. } = self.cell_of(n) {
            self.find(m, self.target(cell));
        }
    }

    // The marker finds this at its cursor.
    fn find(&mut self, m: u32, got: Option<u32>)
        requires { m < self.old.shape.markers }
        ensures state { state self.new ≡ finds (state self.old) m ((state self.old).scan m) got }
        ensures shape { self.new.shape ≡ self.old.shape }
    {
        let scan = match self.scan(m) {
            Some(scan) => scan,
            None => return,
        };
        match got {
            Some(_) => {
                let on = ScanAt {
                    unit: scan.unit,
                    next: scan.next,
                    found: got,
                };
                self.set_scan(m, Some(on));
            }
            None => self.move_on(m, scan),
        }
    }

    fn marker_adds(&mut self, m: u32, row: u32, unit: u32)
        requires marker { m < self.old.shape.markers }
        requires unit { unit < self.old.shape.units }
        ensures state { state self.new ≡ after_marker (sizes self.old.shape) (state self.old) m (AddRow row unit) }
        ensures shape { self.new.shape ≡ self.old.shape }
    {
        self.put(unit, Place::InRow(row));
        self.set_marker_owes(m, true);
    }

    fn marker_dirties(&mut self, m: u32)
        requires { m < self.old.shape.markers }
        ensures state { state self.new ≡ after_marker (sizes self.old.shape) (state self.old) m SetDirty }
        ensures shape { self.new.shape ≡ self.old.shape }
    {
        self.set_dirty(true);
        self.set_marker_owes(m, false);
    }

    // The unit of a bit of a row comes to the stack.
    fn take_bit(&mut self, m: u32, row: u32, u: u64)
        requires { m < self.old.shape.markers }
        ensures state { state self.new ≡ record (state self.old) { place = if same_place ((state self.old).place u) (InRow row) then set_at (state self.old).place u (OnStack m) else (state self.old).place } }
        ensures shape { self.new.shape ≡ self.old.shape }
    {
        let z = self.shape();
        let place = self.place(u);
        if u >= z.units as u64 {
            return;
        }
        if let Place::InRow(r) = place {
            if r == row {
                self.put(u as u32, Place::OnStack(m));
            }
        }
    }

    fn marker_takes(&mut self, m: u32, row: u32, word: u32)
        requires { m < self.old.shape.markers }
        ensures state { state self.new ≡ after_marker (sizes self.old.shape) (state self.old) m (TakeRow row word) }
        ensures shape { self.new.shape ≡ self.old.shape }
    {
        let first = 64 * word as u64;
        for i in 0..64u64 {
            self.take_bit(m, row, first + i);
        }
    }

    // The marker starts the scan of a unit.
    fn start(&mut self, m: u32, unit: u32)
        requires marker { m < self.old.shape.markers }
        requires unit { unit < self.old.shape.units }
        ensures state { state self.new ≡ starts (state self.old) m unit (own_cells self.old.shape unit) }
        ensures shape { self.new.shape ≡ self.old.shape }
    {
        let z = self.shape();
        if z.cells == 0 {
            self.end_scan(unit);
        } else {
            let scan = ScanAt {
                unit,
                next: self.end_of(unit) - z.cells,
                found: None,
            };
            self.put(unit, Place::UnderScan(m));
            self.set_scan(m, Some(scan));
        }
    }

    fn marker_loads_head(&mut self, m: u32, unit: u32)
        requires marker { m < self.old.shape.markers }
        requires unit { unit < self.old.shape.units }
        ensures state { state self.new ≡ after_marker (sizes self.old.shape) (state self.old) m (LoadHead unit) }
        ensures shape { self.new.shape ≡ self.old.shape }
    {
        match self.scan(m) {
            None => {
                if self.is_at(unit, Place::OnStack(m)) {
                    self.start(m, unit);
                }
            }
            Some(scan) => {
                if scan.found == Some(unit) && self.is_marked(unit) {
                    self.move_on(m, scan);
                }
            }
        }
    }

    pub(crate) fn marker_does(&mut self, m: u32, event: Event)
        requires marker { m < self.old.shape.markers }
        requires may { MarkerMay (sizes self.old.shape) (state self.old) m (step_of self.old.shape event) }
        requires lawful { Lawful (sizes self.old.shape) (state self.old) }
        ensures state { state self.new ≡ after_marker (sizes self.old.shape) (state self.old) m (step_of self.old.shape event) }
        ensures shape { self.new.shape ≡ self.old.shape }
    {
        match event {
            Event::FrameOpen => self.set_marker_open(m, true),
            Event::FrameClose => self.set_marker_open(m, false),
            Event::Shade { unit } => self.marker_shades(m, unit),
            Event::LoadCell { cell } => self.marker_loads_cell(m, cell),
            Event::AddRow { row, unit } => self.marker_adds(m, row, unit),
            Event::TakeRow { row, word } => self.marker_takes(m, row, word),
            Event::SetDirty => self.marker_dirties(m),
            Event::LoadHead { unit } => self.marker_loads_head(m, unit),
            Event::LoadRow { .. } => {}
            Event::BeginExchange
            | Event::SwapCell { .. }
            | Event::ClearDirty
            | Event::CommitExchange
            | Event::DoomHead { .. }
            | Event::Settle
            | Event::RootBit { .. } => {}
        }
    }
}
