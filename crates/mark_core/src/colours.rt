//! The colours of the units.
ghost use Rattle.std.specs.Prelude.{◌≡◌, ℕ, ◌<◌, ◌^◌, ◌↔◌, Bool, true, false, not, ◌&&◌, IsTrue, IfOk, length, replicate};
ghost use lib.ListN.{get_or};
ghost use Rattle.mark_core.specs.Changes.{set_at};
ghost use Rattle.mark_core.specs.Steps.{none_set};
ghost use Rattle.mark_core.specs.Units.{marked_in, doomed_in};

use crate::flags::Flags;
use std::alloc::{AllocError, Global};
use std::marker::Model;

/// The parity, and for each unit its colour and whether it is doomed.
///
/// Beside them it has the units that are not doomed apart by their colour, so that it can tell in constant
/// time whether some are white, also after the parity was flipped.
#[derive(Drop)]
pub(crate) struct Colours {
    parity: bool,
    colour: Flags,
    doomed: Flags,
    on: Flags,
    off: Flags,
}

impl Model for Colours {
    ghost use Rattle.mark_core.specs.Units.{Painted, AreApart};

    ghost Value = { Painted };

    ghost view = { λ c. record { parity = c.parity; colour = c.colour; doomed = c.doomed } };

    ghost invariant = { λ c. AreApart c.colour c.doomed c.on c.off };
}

impl Colours {
    pub(crate) fn parity(&self) -> bool
        ensures { result ≡ self.now.parity }
    {
        self.parity
    }

    /// The colour bit of a unit.
    pub(crate) fn colour(&self, u: u32) -> bool
        ensures { result ≡ get_or self.now.colour u false }
    {
        self.colour.get(u)
    }

    pub(crate) fn is_marked(&self, u: u32) -> bool
        ensures { result ≡ marked_in self.now u }
    {
        self.colour.get(u) == self.parity
    }

    pub(crate) fn is_doomed(&self, u: u32) -> bool
        ensures { result ≡ doomed_in self.now u }
    {
        self.colour.bound() <= u || self.doomed.get(u)
    }

    /// Marks a unit that is not doomed.
    pub(crate) fn mark(&mut self, u: u32)
        requires in_range { u < length self.old.colour }
        requires alive { doomed_in self.old u ≡ false }
        ensures marked { marked_in self.new ≡ set_at (marked_in self.old) u true }
        ensures doomed { doomed_in self.new ≡ doomed_in self.old }
        ensures parity { self.new.parity ≡ self.old.parity }
        ensures units { length self.new.colour ≡ length self.old.colour }
    {
        self.colour.set(u, self.parity);
        self.on.set(u, self.parity);
        self.off.set(u, !self.parity);
    }

    pub(crate) fn doom(&mut self, u: u32)
        requires in_range { u < length self.old.colour }
        ensures marked { marked_in self.new ≡ marked_in self.old }
        ensures doomed { doomed_in self.new ≡ set_at (doomed_in self.old) u true }
        ensures parity { self.new.parity ≡ self.old.parity }
        ensures units { length self.new.colour ≡ length self.old.colour }
    {
        self.doomed.set(u, true);
        self.on.set(u, false);
        self.off.set(u, false);
    }

    /// What is marked is not from now on, and what is not is.
    pub(crate) fn flip(&mut self)
        ensures marked { marked_in self.new ≡ (λ u. not (marked_in self.old u)) }
        ensures doomed { doomed_in self.new ≡ doomed_in self.old }
        ensures parity { self.new.parity ≡ not self.old.parity }
        ensures units { length self.new.colour ≡ length self.old.colour }
    {
        self.parity = !self.parity;
    }

    /// Whether each unit is marked or doomed.
    pub(crate) fn has_no_white(&self) -> bool
        ensures { IsTrue result ↔ none_set (λ u. not (doomed_in self.now u) && not (marked_in self.now u)) (length self.now.colour) ≡ true }
    {
        if self.parity {
            self.off.count() == 0
        } else {
            self.on.count() == 0
        }
    }

    /// So many units, each marked, and the parity false.
    pub(crate) fn new(alloc: Global, units: u32) -> Result<Colours, AllocError>
        ensures { IfOk result (λ c. c ≡ record { parity = false; colour = replicate units false; doomed = replicate units false }) }
    {
        let colour = Flags::new(alloc, units)?;
        let doomed = Flags::new(alloc, units)?;
        let on = Flags::new(alloc, units)?;
        let off = all_in(alloc, units)?;
        Ok(Colours {
            parity: false,
            colour,
            doomed,
            on,
            off,
        })
    }
}

// The set of all numbers below a bound.
fn all_in(alloc: Global, bound: u32) -> Result<Flags, AllocError>
    ensures { IfOk result (λ f. (length f ≡ bound) × ((i : ℕ) → i < bound → get_or f i false ≡ true)) }
{
    let mut all = Flags::new(alloc, bound)?;
    for i in 0..bound {
        all.set(i, true);
    }
    Ok(all)
}
