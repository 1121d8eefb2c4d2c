//! Where the units stand.
ghost use Rattle.std.specs.Prelude.{◌≡◌, ℕ, ◌<◌, ◌^◌, ◌↔◌, Bool, true, false, IsTrue, IfOk, length, replicate, slice_set};
ghost use Rattle.mark_core.specs.Changes.{set_at};
ghost use Rattle.mark_core.specs.Machine.{Nowhere, OnStack, same_place};
ghost use Rattle.mark_core.specs.Steps.{none_set};
ghost use Rattle.mark_core.specs.Units.{place_in, IsStackOf};

use crate::flags::Flags;
use crate::types::Place;
use std::alloc::{AllocError, Global};
use std::marker::Model;

/// Where each unit stands, and so what is on the stack of each marker.
#[derive(Drop)]
pub(crate) struct Places {
    places: Vec<Place>,
    stacks: Vec<Flags>,
}

impl Model for Places {
    ghost use Rattle.std.specs.Prelude.{length};
    ghost use Rattle.mark_core.specs.Units.{Standing, AreStacks};

    ghost Value = { Standing };

    ghost view = { λ s. record { places = s.places.items; markers = length s.stacks.items } };

    ghost invariant = { λ s. AreStacks s.places.items s.stacks.items };
}

impl Places {
    pub(crate) fn new(alloc: Global, units: u32, markers: u32) -> Result<Places, AllocError>
        ensures { IfOk result (λ s. s ≡ record { places = replicate units Nowhere; markers = markers }) }
    {
        let places = vec![in alloc; Place::Nowhere; units as usize]?;
        let stacks = sets(alloc, markers, units)?;
        Ok(Places { places, stacks })
    }

    /// Where a unit stands. A number without a unit stands nowhere.
    pub(crate) fn get(&self, u: usize) -> Place
        ensures { result ≡ place_in self.now u }
    {
        match self.places.get(u) {
            Some(p) => *p,
            None => Place::Nowhere,
        }
    }

    pub(crate) fn put(&mut self, u: usize, p: Place)
        requires unit { u < length self.old.places }
        requires stack { IsStackOf self.old.markers p }
        ensures place { place_in self.new ≡ set_at (place_in self.old) u p }
        ensures units { length self.new.places ≡ length self.old.places }
        ensures markers { self.new.markers ≡ self.old.markers }
    {
        self.leave(u);
        self.enter(u, p);
    }

    // Takes a unit off where it stands.
    fn leave(&mut self, u: usize)
        requires { u < length self.old.places }
        ensures { self.new ≡ record self.old { places = slice_set self.old.places u Nowhere } }
    {
        match self.places[u] {
            Place::OnStack(m) => {
                self.places[u] = Place::Nowhere;
                self.stacks[m as usize].set(u as u32, false);
            }
            _ => {
                self.places[u] = Place::Nowhere;
            }
        }
    }

    // Puts a unit that stands nowhere.
    fn enter(&mut self, u: usize, p: Place)
        requires unit { u < length self.old.places }
        requires nowhere { place_in self.old u ≡ Nowhere }
        requires stack { IsStackOf self.old.markers p }
        ensures { self.new ≡ record self.old { places = slice_set self.old.places u p } }
    {
        self.places[u] = p;
        match p {
            Place::OnStack(m) => {
                self.stacks[m as usize].set(u as u32, true);
            }
            _ => {}
        }
    }

    /// Whether a marker has nothing on its stack.
    pub(crate) fn has_no_stack(&self, m: u32) -> bool
        requires { m < self.now.markers }
        ensures { IsTrue result ↔ none_set (λ u. same_place (place_in self.now u) (OnStack m)) (length self.now.places) ≡ true }
    {
        self.stacks[m as usize].count() == 0
    }
}

/// So many empty sets of the numbers below a bound.
pub(crate) fn sets(alloc: Global, n: u32, bound: u32) -> Result<Vec<Flags>, AllocError>
    ensures { IfOk result (λ v. v.items ≡ replicate n (replicate bound false)) }
{
    let mut all = Vec::with_capacity(alloc, n as usize)?;
    for i in 0..n {
        let _ = i;
        all.push(Flags::new(alloc, bound)?)?;
    }
    Ok(all)
}
