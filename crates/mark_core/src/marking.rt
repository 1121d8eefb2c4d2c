//! The machine, event by event.
ghost use Rattle.std.specs.Prelude.{◌≡◌, ℕ, ◌+◌, ◌*◌, ◌<◌, ◌≤◌, ◌^◌, ◌↔◌, Bool, true, IsTrue, IsSome, IfOk, length};
ghost use Rattle.mark_core.specs.Numbered.{actor_of, cell_of, step_of};
ghost use Rattle.mark_core.specs.Runs.{Allows, IsDone, Ran, IsLawful};
ghost use Rattle.mark_core.specs.Shown.{state, sizes, own_cells};
ghost use Rattle.mark_core.specs.Start.{start};
ghost use Rattle.mark_core.specs.Words.{target_of, old_word};

use crate::machine::Machine;
use crate::types::{Actor, Event, Shape};
use std::alloc::{AllocError, Global};
use std::marker::Model;
use world_model::Phase;

/// The pure machine of marking over vectors.
///
/// Its actors are the lanes from 0, then the markers, then the collector. Every machine is lawful: it was
/// made so, and each event keeps it so. No call but `new` takes memory. `allows` and `step` take constant
/// time; a taken, looked at or shown word of a row costs its 64 bits.
#[derive(Drop)]
pub struct Core {
    machine: Machine,
}

impl Model for Core {
    ghost use Rattle.mark_core.specs.Shown.{Shown};
    ghost use Rattle.mark_core.specs.Runs.{IsLawful};

    ghost Value = { Shown };

    ghost view = { λ c. c.machine };

    ghost invariant = { λ c. IsLawful c.machine };
}

impl Core {
    /// So many live units with so many empty cells each, no root, phase Idle, parity false.
    pub fn new(
        alloc: Global,
        lanes: u32,
        markers: u32,
        units: u32,
        cells: u32,
    ) -> Result<Core, AllocError>
        requires few { units * cells + lanes < 2 ^ 32 }
        requires lanes_from { 1 ≤ lanes }
        requires lanes_to { lanes ≤ 8 }
        requires markers_from { 1 ≤ markers }
        requires markers_to { markers ≤ 16 }
        ensures shape { IfOk result (λ c. c.shape ≡ record { lanes = lanes; markers = markers; units = units; cells = cells }) }
        ensures state { IfOk result (λ c. state c ≡ start (sizes c.shape) (own_cells c.shape)) }
    {
        let shape = Shape {
            lanes,
            markers,
            units,
            cells,
        };
        let machine = Machine::new(alloc, shape)?;
        Ok(Core { machine })
    }

    /// Whether this actor may do this event now.
    pub fn allows(&self, actor: u32, event: Event) -> bool
        ensures { IsTrue result ↔ Allows self.now actor event }
    {
        let actor = self.machine.actor_of(actor);
        self.machine.may(actor, event)
    }

    /// Does an event that is allowed, and answers the word that it found: of the gate, of a head, of a row,
    /// of the root set, or of a cell, which is 0 for none and else 1 and the unit.
    pub fn step(&mut self, actor: u32, event: Event) -> u64
        requires { Allows self.old actor event }
        ensures done { IsDone self.old actor event self.new }
        ensures old { result ≡ old_word (sizes self.old.shape) (state self.old) (step_of self.old.shape event) }
    {
        let old = self.machine.old_word(event);
        match self.machine.actor_of(actor) {
            Actor::Lane(lane) => self.machine.lane_does(lane, event),
            Actor::Marker(m) => self.machine.marker_does(m, event),
            Actor::Collector => self.machine.collector_does(event),
        }
        old
    }

    /// Does these events, each by its actor, one after the other.
    ///
    /// `Err(k)` says that event `k`, from 0, is the first that is not allowed; those before it were done.
    pub fn run(&mut self, events: &[(u32, Event)]) -> Result<(), u32>
        requires { length events.now < 2 ^ 32 }
        ensures { Ran self.old events.now result self.new }
    {
        for k in 0..events.len() {
            let (actor, event) = events[k];
            if !self.allows(actor, event) {
                return Err(k as u32);
            }
            self.step(actor, event);
        }
        Ok(())
    }

    /// The machine is lawful, after whatever events.
    pub fn is_lawful(&self)
        ensures { IsLawful self.now }
    {
        let _ = &self.machine;
    }

    pub fn shape(&self) -> Shape
        ensures { result ≡ self.now.shape }
    {
        self.machine.shape()
    }

    pub fn phase(&self) -> Phase
        ensures { result ≡ (state self.now).phase }
    {
        self.machine.phase()
    }

    /// Whether a unit is doomed. A number without a unit counts as doomed.
    pub fn is_doomed(&self, unit: u32) -> bool
        ensures { result ≡ (state self.now).doomed unit }
    {
        self.machine.is_doomed(unit)
    }

    /// Whether a unit is marked.
    pub fn is_marked(&self, unit: u32) -> bool
        ensures { result ≡ (state self.now).marked unit }
    {
        self.machine.is_marked(unit)
    }

    /// The unit that a cell or strong pointer names, or none.
    pub fn target(&self, cell: u32) -> Option<u32>
        ensures { result ≡ target_of (sizes self.now.shape) (state self.now) (cell_of self.now.shape cell) }
    {
        self.machine.target_at(cell)
    }

    /// Whether the root bit of a unit is set.
    pub fn is_root(&self, unit: u32) -> bool
        requires { unit < self.now.shape.units }
        ensures { IsTrue result ↔ IsSome ((state self.now).root unit) }
    {
        self.machine.root(unit as u64).is_some()
    }
}
