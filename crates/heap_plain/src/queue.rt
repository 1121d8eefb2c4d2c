//! The queue of destruction.
ghost use Rattle.std.specs.Prelude.{◌≡◌, ◌<◌, ◌∷◌, [], ◌++◌, IfOk, MatchOption, get_or, drop, length};
ghost use Rattle.heap_plain.specs.Queue.{Begins, turned};

use crate::filled::filled;
use std::alloc::{AllocError, Global};
use std::marker::Model;

/// The indexes of removed objects: those that are to be begun, in the order in which that is done, and
/// those that are begun and not finished, in the order in which they are asked.
#[derive(Drop)]
pub(crate) struct Queue {
    /// The first `kept` are those that were asked in this round and are not finished, those from `from`
    /// to `begun` the others that are begun and not finished, and those from there to `listed` the ones
    /// that are not begun.
    order: Vec<u32>,
    listed: usize,
    begun: usize,
    from: usize,
    kept: usize,
}

impl Model for Queue {
    ghost use Rattle.std.specs.Prelude.{length};
    ghost use Rattle.heap_plain.specs.Queue.{Queued, queued, HasPlaces};

    ghost Value = { Queued };

    ghost view = { λ q. queued q.order.items q.listed q.begun q.from q.kept };

    ghost invariant = { λ q. HasPlaces (length q.order.items) q.listed q.begun q.from q.kept };
}

impl Queue {
    /// An empty queue with room for so many objects.
    pub(crate) fn new(alloc: Global, room: usize) -> Result<Queue, AllocError>
        ensures { IfOk result (λ q. q ≡ record { room = room; todo = []; ring = [] }) }
    {
        Ok(Queue {
            order: filled(alloc, room, 0)?,
            listed: 0,
            begun: 0,
            from: 0,
            kept: 0,
        })
    }

    /// Takes all out.
    pub(crate) fn clear(&mut self)
        ensures { self.new ≡ record { room = self.old.room; todo = []; ring = [] } }
    {
        self.listed = 0;
        self.begun = 0;
        self.from = 0;
        self.kept = 0;
    }

    /// Puts an object behind those that are to be begun.
    pub(crate) fn list(&mut self, index: u32)
        requires none_begun { self.old.ring ≡ [] }
        requires room { length self.old.todo < self.old.room }
        ensures { self.new ≡ record self.old { todo = self.old.todo ++ index ∷ [] } }
    {
        self.order[self.listed] = index;
        self.listed += 1;
    }

    /// Begins the next object that is to be begun, which is then asked behind all others.
    pub(crate) fn begin(&mut self) -> Option<u32>
        ensures { MatchOption result ((self.new ≡ self.old) × (self.old.todo ≡ [])) (Begins self.old self.new) }
    {
        if self.begun == self.listed {
            return None;
        }
        let index = self.order[self.begun];
        self.begun += 1;
        Some(index)
    }

    /// The object that is to be asked next.
    pub(crate) fn next(&self) -> u32
        requires { 0 < length self.now.ring }
        ensures { result ≡ get_or self.now.ring 0 0 }
    {
        self.order[self.from]
    }

    /// Takes the object out that is to be asked next.
    pub(crate) fn finish(&mut self)
        requires all_begun { self.old.todo ≡ [] }
        requires some { 0 < length self.old.ring }
        ensures { self.new ≡ record self.old { ring = drop 1 self.old.ring } }
    {
        let (end, from, kept) = turned(self.begun, self.from + 1, self.kept);
        self.listed = end;
        self.begun = end;
        self.from = from;
        self.kept = kept;
    }

    /// Puts the object that is to be asked next behind all others.
    pub(crate) fn turn(&mut self)
        requires all_begun { self.old.todo ≡ [] }
        requires some { 0 < length self.old.ring }
        ensures { self.new ≡ record self.old { ring = drop 1 self.old.ring ++ get_or self.old.ring 0 0 ∷ [] } }
    {
        self.order[self.kept] = self.order[self.from];
        let (end, from, kept) = turned(self.begun, self.from + 1, self.kept + 1);
        self.listed = end;
        self.begun = end;
        self.from = from;
        self.kept = kept;
    }
}

/// Where the places of a round end, a new one begins with those that were kept.
fn turned(begun: usize, from: usize, kept: usize) -> (usize, usize, usize)
    ensures { result ≡ turned begun from kept }
{
    if from == begun {
        (kept, 0, 0)
    } else {
        (begun, from, kept)
    }
}
