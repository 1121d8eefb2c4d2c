//! The state of the machine over vectors, and its changes of one kind of thing at a time.
ghost use Rattle.std.specs.Prelude.{◌≡◌, ℕ, ◌+◌, ◌*◌, ◌<◌, ◌≤◌, ◌^◌, ◌↔◌, Bool, true, false, not, IsTrue, Some, None, IfOk, replicate, if◌then◌else◌};
ghost use Rattle.mark_core.specs.Changes.{set_at, set_in};
ghost use Rattle.mark_core.specs.Machine.{Nowhere, frames};
ghost use Rattle.mark_core.specs.Shown.{state, sizes, scan_of, IsShape, IsInUnit, own_cells};
ghost use Rattle.mark_core.specs.Start.{start};
ghost use Rattle.mark_core.specs.Steps.{none_set, no_stack, no_white};
ghost use Rattle.mark_core.specs.Units.{IsStackOf};

use crate::colours::Colours;
use crate::flags::Flags;
use crate::places::{Places, sets};
use crate::types::{Job, Place, ScanAt, Shape};
use std::alloc::{AllocError, Global};
use std::marker::Model;
use world_model::Phase;

#[derive(Drop)]
pub(crate) struct Machine {
    shape: Shape,
    phase: Phase,
    dirty: bool,
    lane_open: Flags,
    marker_open: Flags,
    colours: Colours,
    targets: Vec<Option<u32>>,
    rooted: Flags,
    strong: Vec<Option<u32>>,
    places: Places,
    scanned: Flags,
    holds: Vec<Flags>,
    hand: Vec<Option<u32>>,
    lane_owes: Flags,
    scan: Vec<Option<ScanAt>>,
    marker_owes: Flags,
    job: Job,
    own_hand: Option<u32>,
    own_found: Flags,
}

impl Model for Machine {
    ghost use Rattle.mark_core.specs.Shown.{Shown, HasSizes};

    ghost Value = { Shown };

    ghost use Rattle.mark_core.specs.View.{view_of};

    ghost view = { view_of };

    ghost invariant = { λ c. HasSizes (view_of c) };
}

// What is made and read.
impl Machine {
    /// Live units, each marked, with empty cells; no root, phase Idle, parity false.
    pub(crate) fn new(alloc: Global, shape: Shape) -> Result<Machine, AllocError>
        requires { IsShape shape }
        ensures { IfOk result (λ m. (m.shape ≡ shape) × (state m ≡ start (sizes shape) (own_cells shape))) }
    {
        let lane_open = Flags::new(alloc, shape.lanes)?;
        let marker_open = Flags::new(alloc, shape.markers)?;
        let colours = Colours::new(alloc, shape.units)?;
        let targets = nones(alloc, shape.units * shape.cells)?;
        let rooted = Flags::new(alloc, shape.units)?;
        let strong = nones(alloc, shape.lanes)?;
        let places = Places::new(alloc, shape.units, shape.markers)?;
        let scanned = Flags::new(alloc, shape.units)?;
        let holds = sets(alloc, shape.lanes, shape.units)?;
        let hand = nones(alloc, shape.lanes)?;
        let lane_owes = Flags::new(alloc, shape.lanes)?;
        let scan = no_scans(alloc, shape.markers)?;
        let marker_owes = Flags::new(alloc, shape.markers)?;
        let own_found = Flags::new(alloc, shape.units)?;
        Ok(Machine {
            shape,
            phase: Phase::Idle,
            dirty: false,
            lane_open,
            marker_open,
            colours,
            targets,
            rooted,
            strong,
            places,
            scanned,
            holds,
            hand,
            lane_owes,
            scan,
            marker_owes,
            job: Job::NoJob,
            own_hand: None,
            own_found,
        })
    }

    pub(crate) fn shape(&self) -> Shape
        ensures shape { result ≡ self.now.shape }
        ensures lawful { IsShape result }
    {
        self.shape
    }

    pub(crate) fn phase(&self) -> Phase
        ensures { result ≡ (state self.now).phase }
    {
        self.phase
    }

    pub(crate) fn is_dirty(&self) -> bool
        ensures { result ≡ (state self.now).dirty }
    {
        self.dirty
    }

    pub(crate) fn is_lane_open(&self, lane: u32) -> bool
        ensures { result ≡ (state self.now).lane_open lane }
    {
        self.lane_open.get(lane)
    }

    pub(crate) fn is_marker_open(&self, m: u32) -> bool
        ensures { result ≡ (state self.now).marker_open m }
    {
        self.marker_open.get(m)
    }

    pub(crate) fn is_doomed(&self, u: u32) -> bool
        ensures { result ≡ (state self.now).doomed u }
    {
        self.colours.is_doomed(u)
    }

    pub(crate) fn is_marked(&self, u: u32) -> bool
        ensures { result ≡ (state self.now).marked u }
    {
        self.colours.is_marked(u)
    }

    pub(crate) fn place(&self, u: u64) -> Place
        ensures place { result ≡ (state self.now).place u }
        ensures beyond { self.now.shape.units ≤ u → result ≡ Nowhere }
    {
        self.places.get(u as usize)
    }

    pub(crate) fn holds(&self, lane: u32, u: u32) -> bool
        ensures { result ≡ (state self.now).holds lane u }
    {
        match self.holds.get(lane as usize) {
            Some(held) => held.get(u),
            None => false,
        }
    }

    pub(crate) fn hand(&self, lane: u32) -> Option<u32>
        ensures { result ≡ (state self.now).hand lane }
    {
        match self.hand.get(lane as usize) {
            Some(hand) => *hand,
            None => None,
        }
    }

    pub(crate) fn target(&self, cell: u32) -> Option<u32>
        ensures { result ≡ (state self.now).cell cell }
    {
        match self.targets.get(cell as usize) {
            Some(target) => *target,
            None => None,
        }
    }

    pub(crate) fn lane_owes(&self, lane: u32) -> bool
        ensures { result ≡ (state self.now).lane_owes lane }
    {
        self.lane_owes.get(lane)
    }

    pub(crate) fn marker_owes(&self, m: u32) -> bool
        ensures { result ≡ (state self.now).marker_owes m }
    {
        self.marker_owes.get(m)
    }

    pub(crate) fn scan(&self, m: u32) -> Option<ScanAt>
        ensures scan { scan_of self.now.shape result ≡ (state self.now).scan m }
        ensures in_unit { IsInUnit self.now.shape result }
    {
        match self.scan.get(m as usize) {
            Some(scan) => *scan,
            None => None,
        }
    }

    /// What a place of the root set names: the root bits by their units' numbers, then the strong pointers.
    pub(crate) fn root(&self, p: u64) -> Option<u32>
        ensures { result ≡ (state self.now).root p }
    {
        if p < self.shape.units as u64 {
            return if self.rooted.get(p as u32) {
                Some(p as u32)
            } else {
                None
            };
        }
        match self.strong.get((p - self.shape.units as u64) as usize) {
            Some(target) => *target,
            None => None,
        }
    }

    pub(crate) fn parity(&self) -> bool
        ensures { result ≡ (state self.now).parity }
    {
        self.colours.parity()
    }

    pub(crate) fn job(&self) -> Job
        ensures { result ≡ (state self.now).job }
    {
        self.job
    }

    pub(crate) fn own_hand(&self) -> Option<u32>
        ensures { result ≡ (state self.now).own_hand }
    {
        self.own_hand
    }

    pub(crate) fn has_found(&self, u: u32) -> bool
        ensures { result ≡ (state self.now).own_found u }
    {
        self.own_found.get(u)
    }

    /// How many frames are open.
    pub(crate) fn frames(&self) -> u32
        ensures frames { result ≡ frames (sizes self.now.shape) (state self.now) }
        ensures few { result ≤ 24 }
    {
        self.lane_open.count() + self.marker_open.count()
    }

    /// Whether each unit is marked or doomed.
    pub(crate) fn has_no_white(&self) -> bool
        ensures { IsTrue result ↔ no_white (sizes self.now.shape) (state self.now).doomed (state self.now).marked ≡ true }
    {
        self.colours.has_no_white()
    }

    /// Whether the collector has nothing in found.
    pub(crate) fn found_nothing(&self) -> bool
        ensures { IsTrue result ↔ none_set (state self.now).own_found self.now.shape.units ≡ true }
    {
        self.own_found.count() == 0
    }

    pub(crate) fn has_no_stack(&self, m: u32) -> bool
        requires { m < self.now.shape.markers }
        ensures { IsTrue result ↔ no_stack (sizes self.now.shape) (state self.now).place m ≡ true }
    {
        self.places.has_no_stack(m)
    }
}

// What is written.
impl Machine {
    pub(crate) fn set_lane_open(&mut self, lane: u32, b: bool)
        requires { lane < self.old.shape.lanes }
        ensures state { state self.new ≡ record (state self.old) { lane_open = set_at (state self.old).lane_open lane b } }
        ensures shape { self.new.shape ≡ self.old.shape }
    {
        self.lane_open.set(lane, b);
    }

    pub(crate) fn set_dirty(&mut self, b: bool)
        ensures state { state self.new ≡ record (state self.old) { dirty = b } }
        ensures shape { self.new.shape ≡ self.old.shape }
    {
        self.dirty = b;
    }

    pub(crate) fn put(&mut self, u: u32, p: Place)
        requires unit { u < self.old.shape.units }
        requires stack { IsStackOf self.old.shape.markers p }
        ensures state { state self.new ≡ record (state self.old) { place = set_at (state self.old).place u p } }
        ensures shape { self.new.shape ≡ self.old.shape }
    {
        self.places.put(u as usize, p);
    }

    pub(crate) fn mark(&mut self, u: u32)
        requires unit { u < self.old.shape.units }
        requires alive { (state self.old).doomed u ≡ false }
        ensures state { state self.new ≡ record (state self.old) { marked = set_at (state self.old).marked u true } }
        ensures shape { self.new.shape ≡ self.old.shape }
    {
        self.colours.mark(u);
    }

    pub(crate) fn hold(&mut self, lane: u32, u: u32)
        requires lane { lane < self.old.shape.lanes }
        requires unit { u < self.old.shape.units }
        ensures state { state self.new ≡ record (state self.old) { holds = set_in (state self.old).holds lane u true } }
        ensures shape { self.new.shape ≡ self.old.shape }
    {
        self.holds[lane as usize].set(u, true);
    }

    pub(crate) fn set_target(&mut self, cell: u32, to: Option<u32>)
        requires { cell < self.old.shape.units * self.old.shape.cells }
        ensures state { state self.new ≡ record (state self.old) { cell = set_at (state self.old).cell cell to } }
        ensures shape { self.new.shape ≡ self.old.shape }
    {
        self.targets[cell as usize] = to;
    }

    pub(crate) fn set_marker_open(&mut self, m: u32, b: bool)
        requires { m < self.old.shape.markers }
        ensures state { state self.new ≡ record (state self.old) { marker_open = set_at (state self.old).marker_open m b } }
        ensures shape { self.new.shape ≡ self.old.shape }
    {
        self.marker_open.set(m, b);
    }

    pub(crate) fn set_phase(&mut self, phase: Phase)
        ensures state { state self.new ≡ record (state self.old) { phase = phase } }
        ensures shape { self.new.shape ≡ self.old.shape }
    {
        self.phase = phase;
    }

    /// Flips the parity: what is marked is not from now on, and what is not is.
    pub(crate) fn flip(&mut self)
        ensures state { state self.new ≡ record (state self.old) { parity = not (state self.old).parity; marked = λ u. not ((state self.old).marked u) } }
        ensures shape { self.new.shape ≡ self.old.shape }
    {
        self.colours.flip();
    }

    pub(crate) fn doom(&mut self, u: u32)
        requires { u < self.old.shape.units }
        ensures state { state self.new ≡ record (state self.old) { doomed = set_at (state self.old).doomed u true } }
        ensures shape { self.new.shape ≡ self.old.shape }
    {
        self.colours.doom(u);
    }

    pub(crate) fn set_root_bit(&mut self, u: u32, on: bool)
        requires { u < self.old.shape.units }
        ensures state { state self.new ≡ record (state self.old) { root = set_at (state self.old).root u (if on then Some u else None) } }
        ensures shape { self.new.shape ≡ self.old.shape }
    {
        self.rooted.set(u, on);
    }

    pub(crate) fn set_strong(&mut self, lane: u32, to: Option<u32>)
        requires { lane < self.old.shape.lanes }
        ensures state { state self.new ≡ record (state self.old) { root = set_at (state self.old).root (self.old.shape.units + lane) to } }
        ensures shape { self.new.shape ≡ self.old.shape }
    {
        self.strong[lane as usize] = to;
    }

    pub(crate) fn set_scanned(&mut self, u: u32)
        requires { u < self.old.shape.units }
        ensures state { state self.new ≡ record (state self.old) { scanned = set_at (state self.old).scanned u true } }
        ensures shape { self.new.shape ≡ self.old.shape }
    {
        self.scanned.set(u, true);
    }

    pub(crate) fn forget_scanned(&mut self)
        ensures state { state self.new ≡ record (state self.old) { scanned = λ u. false } }
        ensures shape { self.new.shape ≡ self.old.shape }
    {
        self.scanned.clear();
    }

    pub(crate) fn drop_held(&mut self, lane: u32)
        requires { lane < self.old.shape.lanes }
        ensures state { state self.new ≡ record (state self.old) { holds = set_at (state self.old).holds lane (λ u. false) } }
        ensures shape { self.new.shape ≡ self.old.shape }
    {
        self.holds[lane as usize].clear();
    }

    pub(crate) fn set_hand(&mut self, lane: u32, hand: Option<u32>)
        requires { lane < self.old.shape.lanes }
        ensures state { state self.new ≡ record (state self.old) { hand = set_at (state self.old).hand lane hand } }
        ensures shape { self.new.shape ≡ self.old.shape }
    {
        self.hand[lane as usize] = hand;
    }

    pub(crate) fn set_lane_owes(&mut self, lane: u32, b: bool)
        requires { lane < self.old.shape.lanes }
        ensures state { state self.new ≡ record (state self.old) { lane_owes = set_at (state self.old).lane_owes lane b } }
        ensures shape { self.new.shape ≡ self.old.shape }
    {
        self.lane_owes.set(lane, b);
    }

    pub(crate) fn set_scan(&mut self, m: u32, scan: Option<ScanAt>)
        requires m { m < self.old.shape.markers }
        requires in_unit { IsInUnit self.old.shape scan }
        ensures state { state self.new ≡ record (state self.old) { scan = set_at (state self.old).scan m (scan_of self.old.shape scan) } }
        ensures shape { self.new.shape ≡ self.old.shape }
    {
        self.scan[m as usize] = scan;
    }

    pub(crate) fn set_marker_owes(&mut self, m: u32, b: bool)
        requires { m < self.old.shape.markers }
        ensures state { state self.new ≡ record (state self.old) { marker_owes = set_at (state self.old).marker_owes m b } }
        ensures shape { self.new.shape ≡ self.old.shape }
    {
        self.marker_owes.set(m, b);
    }

    pub(crate) fn set_job(&mut self, job: Job)
        ensures state { state self.new ≡ record (state self.old) { job = job } }
        ensures shape { self.new.shape ≡ self.old.shape }
    {
        self.job = job;
    }

    pub(crate) fn set_own_hand(&mut self, hand: Option<u32>)
        ensures state { state self.new ≡ record (state self.old) { own_hand = hand } }
        ensures shape { self.new.shape ≡ self.old.shape }
    {
        self.own_hand = hand;
    }

    pub(crate) fn set_found(&mut self, u: u32, b: bool)
        requires { u < self.old.shape.units }
        ensures state { state self.new ≡ record (state self.old) { own_found = set_at (state self.old).own_found u b } }
        ensures shape { self.new.shape ≡ self.old.shape }
    {
        self.own_found.set(u, b);
    }
}

fn nones(alloc: Global, n: u32) -> Result<Vec<Option<u32>>, AllocError>
    ensures { IfOk result (λ v. v.items ≡ replicate n None) }
{
    Ok(vec![in alloc; None; n as usize]?)
}

fn no_scans(alloc: Global, n: u32) -> Result<Vec<Option<ScanAt>>, AllocError>
    ensures { IfOk result (λ v. v.items ≡ replicate n None) }
{
    Ok(vec![in alloc; None; n as usize]?)
}
