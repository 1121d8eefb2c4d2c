//! What a game does when an object is destroyed.
ghost use Rattle.std.specs.Prelude.{◌≡◌, ◌<◌, ℕ, Bool, false, List, [], length, Option};
ghost use Rattle.world_model.specs.Types.{Name, ClassId, HookCall};
ghost use Rattle.world_model.specs.Types.called;
ghost use Rattle.world_model.specs.Hooks.{Told, SameTest, with_call, told_by, AnswersByWait};

use crate::kind::ClassId;
use crate::name::Name;
use std::marker::Model;

/// A call of a hook.
#[derive(Clone, Copy, Debug, PartialEq, Eq)]
pub enum HookCall {
    /// The object was told to begin its destruction.
    Begin {
        name: Name,
        class: ClassId,
    },
    /// The object was asked for the `poll`-th time whether it is ready to be finished.
    Ready {
        name: Name,
        class: ClassId,
        poll: u32,
        answer: bool,
    },
    /// The object was told to finish its destruction.
    Finish {
        name: Name,
        class: ClassId,
    },
}

/// What a game does when an object is destroyed.
///
/// Hooks mean two things: the list of their calls, where they tell it, and a test that each answer
/// of `ready` meets, which no call changes.
pub trait Hooks {
    /// The calls so far, where it tells them.
    ghost calls: { Self → Option (List HookCall) };

    /// What an answer of `ready` meets.
    ghost test: { Self → Name → ClassId → ℕ → Bool → Type 0 };

    /// An object begins its destruction.
    fn begin(&mut self, name: Name, class: ClassId)
        ensures told { Told (calls self.old) (calls self.new) (called.Begin name class) }
        ensures test { SameTest (test self.old) (test self.new) };

    /// Whether an object that was begun is ready to be finished. It is asked for the `poll`-th time,
    /// from 1; after 65,535 times `poll` stays there.
    fn ready(&mut self, name: Name, class: ClassId, poll: u32) -> bool
        ensures told { Told (calls self.old) (calls self.new) (called.Ready name class poll result) }
        ensures answer { test self.old name class poll result }
        ensures test { SameTest (test self.old) (test self.new) };

    /// An object finishes its destruction.
    fn finish(&mut self, name: Name, class: ClassId)
        ensures told { Told (calls self.old) (calls self.new) (called.Finish name class) }
        ensures test { SameTest (test self.old) (test self.new) };
}

/// How many calls hooks in memory keep.
const KEPT: usize = 1024;

/// Hooks in memory. They keep their first 1,024 calls, and tell all of them while there are no
/// more. They are ready at each poll after the first `wait`.
#[derive(Drop)]
pub struct MemHooks {
    /// The calls that are kept, in the first `count` places.
    calls: [HookCall; KEPT],
    count: usize,
    /// Whether there was a call that was not kept.
    missed: bool,
    wait: u32,
}

impl Model for MemHooks {
    ghost use Rattle.std.specs.Prelude.{◌≡◌, ◌≤◌, true, take};
    ghost use Rattle.world_model.specs.Hooks.{Remembered};

    ghost Value = { Remembered };

    ghost view = { λ h. record { wait = h.wait; kept = take h.count h.calls; missed = h.missed } };

    ghost invariant = { λ h. (h.count ≤ 1024) × (h.missed ≡ true → h.count ≡ 1024) };
}

impl MemHooks {
    /// Hooks that were not called yet. Each object is ready at its poll `wait + 1` and those after
    /// it.
    pub fn new(wait: u32) -> MemHooks
        ensures { result ≡ record { wait = wait; kept = []; missed = false } }
    {
        let none = HookCall::Finish {
            name: Name { lane: 0, count: 0 },
            class: ClassId(0),
        };
        MemHooks {
            calls: [none; KEPT],
            count: 0,
            missed: false,
            wait,
        }
    }

    /// The first 1,024 calls. Where there are fewer, these are all.
    pub fn calls(&self) -> &[HookCall]
        ensures kept { result.now ≡ self.now.kept }
        ensures all { length result.now < 1024 → self.now.missed ≡ false }
    {
        &self.calls[..self.count]
    }

    /// Keeps a call, if fewer than 1,024 are kept.
    fn keep(&mut self, call: HookCall)
        ensures { self.new ≡ with_call self.old call }
    {
        if self.count < KEPT {
            self.calls[self.count] = call;
            self.count += 1;
        } else {
            self.missed = true;
        }
    }
}

impl Hooks for MemHooks {
    ghost calls = { told_by };

    ghost test = { AnswersByWait };

    fn begin(&mut self, name: Name, class: ClassId) {
        self.keep(HookCall::Begin { name, class });
    }

    fn ready(&mut self, name: Name, class: ClassId, poll: u32) -> bool {
        let answer = poll > self.wait;
        self.keep(HookCall::Ready {
            name,
            class,
            poll,
            answer,
        });
        answer
    }

    fn finish(&mut self, name: Name, class: ClassId) {
        self.keep(HookCall::Finish { name, class });
    }
}
