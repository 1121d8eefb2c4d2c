//! The serials of weak pointers.
ghost use Rattle.std.specs.Prelude.{◌≡◌, ◌+◌, ◌<◌, ◌≤◌, ◌^◌, IfOk, get_or, length, replicate, ℕ};
ghost use Rattle.std.proofs.Math.ListN.{set};
ghost use Rattle.heap_plain.specs.Listing.{chained, chain};
ghost use Rattle.heap_plain.specs.Serials.{weak_at, weak_index, Draws, all_cleared};

use crate::filled::filled;
use std::alloc::{AllocError, Global};
use std::marker::Model;
use world_model::{SerialsSpent, Weak};

/// Which serial each object has whose weak pointer was asked for, by the index at which the object
/// stands, and how many serials each lane has drawn.
#[derive(Drop)]
pub(crate) struct Serials {
    serials: Vec<u32>,
    drawn: Vec<u32>,
}

impl Model for Serials {
    ghost use Rattle.heap_plain.specs.Serials.{Serials as Shown};

    ghost Value = { Shown };

    ghost view = { λ s. record { serials = s.serials.items; drawn = s.drawn.items } };
}

impl Serials {
    /// No object has one, of so many items, and none of so many lanes has drawn one.
    pub(crate) fn new(alloc: Global, items: usize, lanes: usize) -> Result<Serials, AllocError>
        ensures { IfOk result (λ s. s ≡ record { serials = replicate items 0; drawn = replicate lanes 0 }) }
    {
        Ok(Serials {
            serials: filled(alloc, items, 0)?,
            drawn: filled(alloc, lanes, 0)?,
        })
    }

    /// The weak pointer to the object at an index, if it has one.
    pub(crate) fn at(&self, index: u32) -> Option<Weak>
        requires { index < length self.now.serials }
        ensures { result ≡ weak_at self.now.serials index }
    {
        let serial = self.serials[index as usize];
        if serial == 0 {
            return None;
        }
        Some(Weak { index, serial })
    }

    /// The index of the object whose weak pointer a pair is.
    pub(crate) fn index(&self, pair: Weak) -> Option<u32>
        ensures { result ≡ weak_index self.now.serials pair }
    {
        let index = pair.index as usize;
        if index < self.serials.len() && pair.serial != 0 && self.serials[index] == pair.serial {
            return Some(pair.index);
        }
        None
    }

    /// Gives the object at an index the next serial of a lane, which may draw `limit` of them.
    pub(crate) fn draw(&mut self, lane: u32, index: u32, limit: u32) -> Result<Weak, SerialsSpent>
        requires lane { lane < length self.old.drawn }
        requires few { lane < 16 }
        requires index { index < length self.old.serials }
        requires limit { limit < 2 ^ 28 }
        requires drawn { get_or self.old.drawn lane 0 ≤ limit }
        ensures { Draws lane index limit self.old self.new result }
    {
        let made = self.drawn[lane as usize];
        if made == limit {
            return Err(SerialsSpent { made });
        }
        let serial = (made + 1) * 16 + lane;
        self.serials[index as usize] = serial;
        self.drawn[lane as usize] = made + 1;
        Ok(Weak { index, serial })
    }

    /// Takes their serials from the objects of a unit, of which the first is at `head`: they are
    /// released.
    pub(crate) fn clear(&mut self, next: &[u32], head: u32, count: u32)
        requires chain { (k : ℕ) → k < count → chained next.now head k < length next.now }
        requires items { length next.now ≤ length self.old.serials }
        ensures { self.new ≡ record self.old { serials = all_cleared self.old.serials (chain next.now head count) } }
    {
        let mut index = head;
        for k in 0..count {
            let _ = k;
            self.serials[index as usize] = 0;
            index = next[index as usize];
        }
    }
}
