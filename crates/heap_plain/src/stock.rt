//! The free indexes of a lane.
ghost use Rattle.std.specs.Prelude.{◌≡◌, ◌+◌, ◌*◌, ◌<◌, ◌≤◌, ◌^◌, IfOk, length};
ghost use Rattle.heap_plain.specs.Stocked.{rising, popped, taken, given, full_stocks};

use std::alloc::{AllocError, Global};
use std::marker::Model;

/// The indexes of a lane that are free, in the order in which they are taken: the one that was given
/// back last is the first.
#[derive(Drop)]
pub(crate) struct Stock {
    /// Those from the first one that is not taken on are free.
    places: Vec<u32>,
    taken: usize,
}

impl Model for Stock {
    ghost use Rattle.std.specs.Prelude.{length, ◌≤◌};
    ghost use Rattle.heap_plain.specs.Stocked.{Stocked, stocked};

    ghost Value = { Stocked };

    ghost view = { λ s. stocked s.places.items s.taken };

    ghost invariant = { λ s. s.taken ≤ length s.places.items };
}

impl Stock {
    /// All indexes of a lane are free: `count` from `first` on.
    pub(crate) fn new(alloc: Global, first: usize, count: usize) -> Result<Stock, AllocError>
        requires { first + count ≤ 2 ^ 32 }
        ensures { IfOk result (λ s. s ≡ record { room = count; free = rising first count }) }
    {
        let mut places = Vec::new(alloc);
        for k in 0..count {
            places.push((first + k) as u32)?;
        }
        Ok(Stock { places, taken: 0 })
    }

    /// How many indexes are free.
    pub(crate) fn spare(&self) -> usize
        ensures { result ≡ length self.now.free }
    {
        self.places.len() - self.taken
    }

    /// The index that is taken after `k` others.
    pub(crate) fn peek(&self, k: usize) -> u32
        requires { k < length self.now.free }
        ensures { result ≡ popped self.now.free k }
    {
        self.places[self.taken + k]
    }

    /// Takes so many indexes.
    pub(crate) fn take(&mut self, count: usize)
        requires { count ≤ length self.old.free }
        ensures { self.new ≡ taken self.old count }
    {
        self.taken += count;
    }

    /// Gives an index back, which is the next one to be taken.
    pub(crate) fn give(&mut self, index: u32)
        requires { length self.old.free < self.old.room }
        ensures { self.new ≡ given self.old index }
    {
        self.taken -= 1;
        self.places[self.taken] = index;
    }
}

/// For each lane its free indexes: all of its range of `quota`.
pub(crate) fn full_stocks(
    alloc: Global,
    lanes: usize,
    quota: usize,
) -> Result<Vec<Stock>, AllocError>
    requires { lanes * quota ≤ 2 ^ 20 }
    ensures { IfOk result (λ v. v.items ≡ full_stocks quota lanes) }
{
    let mut all = Vec::new(alloc);
    for lane in 0..lanes {
        all.push(Stock::new(alloc, lane * quota, quota)?)?;
    }
    Ok(all)
}
