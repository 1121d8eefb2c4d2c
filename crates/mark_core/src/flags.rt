//! Sets of numbers.
ghost use Rattle.std.specs.Prelude.{◌≡◌, ℕ, ◌<◌, ◌^◌, Bool, false, IfOk, length, map, replicate, slice_set};
ghost use lib.ListN.{get_or};
ghost use Rattle.mark_core.specs.Sets.{count_in};

use std::alloc::{AllocError, Global};
use std::marker::Model;

/// A set of the numbers below a bound, seen as a list with one test for each number.
///
/// A number is in the set where its stamp is the present one, so all can be taken out in constant time.
#[derive(Drop)]
pub(crate) struct Flags {
    stamps: Vec<u64>,
    present: u64,
    count: u32,
}

impl Model for Flags {
    ghost use Rattle.std.specs.Prelude.{List, Bool};
    ghost use Rattle.mark_core.specs.Sets.{members, AreStamps};

    ghost Value = { List Bool };

    ghost view = { λ f. members f.present f.stamps.items };

    ghost invariant = { λ f. AreStamps f.present f.count f.stamps.items };
}

impl Flags {
    /// The empty set.
    pub(crate) fn new(alloc: Global, bound: u32) -> Result<Flags, AllocError>
        ensures { IfOk result (λ f. f ≡ replicate bound false) }
    {
        let stamps = zeros(alloc, bound)?;
        Ok(Flags {
            stamps,
            present: 1,
            count: 0,
        })
    }

    /// The numbers from 0 up to this one are those that can be in the set.
    pub(crate) fn bound(&self) -> u32
        ensures { result ≡ length self.now }
    {
        self.stamps.len() as u32
    }

    /// Whether a number is in the set. None is, from the bound on.
    pub(crate) fn get(&self, i: u32) -> bool
        ensures { result ≡ get_or self.now i false }
    {
        match self.stamps.get(i as usize) {
            Some(stamp) => *stamp == self.present,
            None => false,
        }
    }

    /// Puts a number in, or takes it out.
    pub(crate) fn set(&mut self, i: u32, b: bool)
        requires { i < length self.old }
        ensures { self.new ≡ slice_set self.old i b }
    {
        if self.get(i) == b {
            return;
        }
        if b {
            self.stamps[i as usize] = self.present;
            self.count += 1;
        } else {
            self.stamps[i as usize] = 0;
            self.count -= 1;
        }
    }

    /// How many numbers are in the set.
    pub(crate) fn count(&self) -> u32
        ensures { result ≡ count_in self.now }
    {
        self.count
    }

    /// Takes all numbers out.
    pub(crate) fn clear(&mut self)
        ensures { self.new ≡ map (λ (b : Bool). false) self.old }
    {
        self.count = 0;
        if self.present < u64::MAX {
            self.present += 1;
            return;
        }
        // Once in 2^64 times the stamps begin anew.
        zero_all(&mut self.stamps);
        self.present = 1;
    }
}

fn zeros(alloc: Global, n: u32) -> Result<Vec<u64>, AllocError>
    ensures { IfOk result (λ v. v.items ≡ replicate n 0) }
{
    Ok(vec![in alloc; 0u64; n as usize]?)
}

fn zero_all(stamps: &mut Vec<u64>)
    ensures length { length stamps.new.items ≡ length stamps.old.items }
    ensures zero { (i : ℕ) → get_or stamps.new.items i 0 ≡ 0 }
{
    for i in 0..stamps.len() {
        stamps[i] = 0;
    }
}
