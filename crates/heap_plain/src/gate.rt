//! The gate: the phase, and which frames are open.
ghost use Rattle.std.specs.Prelude.{◌≡◌, ◌<◌, ◌^◌, IfOk, count_by, length, replicate, true, false};
ghost use Rattle.std.proofs.Math.ListN.{set};
ghost use Rattle.heap_plain.specs.Types.{Idle};

use crate::filled::filled;
use std::alloc::{AllocError, Global};
use std::marker::Model;
use world_model::Phase;

/// The phase of the collector, and of each lane whether its frame is open.
#[derive(Drop)]
pub(crate) struct Gate {
    phase: Phase,
    frames: Vec<bool>,
}

impl Model for Gate {
    ghost use Rattle.heap_plain.specs.Parts.{Gate as Gated};

    ghost Value = { Gated };

    ghost view = { λ g. record { phase = g.phase; frames = g.frames.items } };
}

impl Gate {
    /// Idle, with the frame of each lane closed.
    pub(crate) fn new(alloc: Global, lanes: usize) -> Result<Gate, AllocError>
        ensures { IfOk result (λ g. g ≡ record { phase = Idle; frames = replicate lanes false }) }
    {
        Ok(Gate {
            phase: Phase::Idle,
            frames: filled(alloc, lanes, false)?,
        })
    }

    /// The phase.
    pub(crate) fn phase(&self) -> Phase
        ensures { result ≡ self.now.phase }
    {
        self.phase
    }

    /// How many frames are open.
    pub(crate) fn opened(&self) -> u32
        requires { length self.now.frames < 2 ^ 32 }
        ensures { result ≡ count_by (λ is_open. is_open) self.now.frames }
    {
        self.frames.iter().filter(|is_open| **is_open).count() as u32
    }

    /// Enters a phase.
    pub(crate) fn enter(&mut self, phase: Phase)
        ensures { self.new ≡ record self.old { phase = phase } }
    {
        self.phase = phase;
    }

    /// Opens the frame of a lane.
    pub(crate) fn open(&mut self, lane: u32)
        requires { lane < length self.old.frames }
        ensures { self.new ≡ record self.old { frames = set self.old.frames lane true } }
    {
        self.frames[lane as usize] = true;
    }

    /// Closes the frame of a lane.
    pub(crate) fn close(&mut self, lane: u32)
        requires { lane < length self.old.frames }
        ensures { self.new ≡ record self.old { frames = set self.old.frames lane false } }
    {
        self.frames[lane as usize] = false;
    }
}
