//! The marks of a collection, and its worklist.
ghost use Rattle.std.specs.Prelude.{◌≡◌, ◌-◌, ◌<◌, [], IfOk, get_or, length, replicate, true, false};
ghost use Rattle.std.proofs.Math.ListN.{set};
ghost use Rattle.heap_plain.specs.Painted.{IsNextGrey, greyed, blackened};

use crate::filled::{fill, filled};
use std::alloc::{AllocError, Global};
use std::marker::Model;

/// Which units are marked, each by the index of its first member, and the worklist: the units that were
/// marked since the collection began, in that order, of which the first ones are black and the rest grey.
#[derive(Drop)]
pub(crate) struct Colours {
    marked: Vec<bool>,
    work: Vec<u32>,
    scanned: usize,
    pushed: usize,
}

impl Model for Colours {
    ghost use Rattle.std.specs.Prelude.{length};
    ghost use Rattle.heap_plain.specs.Painted.{Painted, painted, HasWork};

    ghost Value = { Painted };

    ghost view = { λ c. painted c.marked.items c.work.items c.scanned c.pushed };

    ghost invariant = { λ c. HasWork (length c.marked.items) (length c.work.items) c.scanned c.pushed };
}

impl Colours {
    /// No unit is marked, of so many items.
    pub(crate) fn new(alloc: Global, items: usize) -> Result<Colours, AllocError>
        ensures { IfOk result (λ c. c ≡ record { marked = replicate items false; listed = []; scanned = 0 }) }
    {
        Ok(Colours {
            marked: filled(alloc, items, false)?,
            work: filled(alloc, items, 0)?,
            scanned: 0,
            pushed: 0,
        })
    }

    /// Takes all marks away, and empties the worklist.
    pub(crate) fn clear(&mut self)
        ensures { self.new ≡ record { marked = replicate (length self.old.marked) false; listed = []; scanned = 0 } }
    {
        let items = self.marked.len();
        fill(&mut self.marked, 0, items, false);
        self.scanned = 0;
        self.pushed = 0;
    }

    /// Whether a unit is marked.
    pub(crate) fn is_marked(&self, head: u32) -> bool
        requires { head < length self.now.marked }
        ensures { result ≡ get_or self.now.marked head false }
    {
        self.marked[head as usize]
    }

    /// Marks a new unit, which is black: it refers to nothing.
    pub(crate) fn bear(&mut self, head: u32)
        requires { head < length self.old.marked }
        ensures { self.new ≡ record self.old { marked = set self.old.marked head true } }
    {
        self.marked[head as usize] = true;
    }

    /// Marks a unit, and lists it as grey.
    pub(crate) fn mark(&mut self, head: u32)
        requires unit { head < length self.old.marked }
        requires room { length self.old.listed < length self.old.marked }
        ensures { self.new ≡ greyed self.old head }
    {
        let unit = head as usize;
        self.marked[unit] = true;
        self.work[self.pushed] = head;
        self.pushed += 1;
    }

    /// How many units are grey.
    pub(crate) fn grey(&self) -> usize
        ensures { result ≡ length self.now.listed - self.now.scanned }
    {
        self.pushed - self.scanned
    }

    /// The unit that was marked first of the grey ones.
    pub(crate) fn next(&self) -> u32
        requires { self.now.scanned < length self.now.listed }
        ensures { IsNextGrey self.now result }
    {
        self.work[self.scanned]
    }

    /// Makes the grey unit that was marked first black.
    pub(crate) fn blacken(&mut self)
        requires { self.old.scanned < length self.old.listed }
        ensures { self.new ≡ blackened self.old }
    {
        self.scanned += 1;
    }
}
