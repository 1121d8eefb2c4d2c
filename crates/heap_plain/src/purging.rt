//! The steps of destruction.
ghost use Rattle.std.specs.Prelude.{◌≡◌, ◌∷◌, [], ◌++◌, ◌-◌, ◌<◌, ℕ, IsSome, get_or, length};
ghost use Rattle.std.proofs.Math.ListN.{set};
ghost use Rattle.heap_plain.specs.declared.life.Life.TheVariants.{Begun, Finished};
ghost use Rattle.heap_plain.specs.Types.act;
ghost use Rattle.heap_plain.specs.Types.called;
ghost use Rattle.heap_plain.specs.Types.{Collector};
ghost use Rattle.world_model.specs.Calls.{by};
ghost use Rattle.world_model.specs.Hooks.{SameTest};
ghost use Rattle.heap_plain.specs.Parts.{name_at, name_of, class_at, first_at};
ghost use Rattle.heap_plain.specs.Purging.{Tells, asked_acts, asked_calls, next_poll, CanGive, give, give_all, finished_unit};
ghost use Rattle.heap_plain.specs.Listing.{chained};

use crate::life::Life;
use crate::marking::named;
use crate::stock::Stock;
use world_model::{Diary, Hooks, Kind, Name, Pass};

/// Tells the object at an index to begin its destruction, and notes it.
pub(crate) fn begin_at<D: Hooks>(
    names: &[Option<Name>],
    kinds: &[Kind],
    lives: &mut Vec<Life>,
    index: usize,
    hooks: &mut D,
    diary: &mut Diary,
)
    requires named { IsSome (name_at names.now index) }
    requires kinds { index < length kinds.now }
    requires lives { index < length lives.old.items }
    ensures lives { lives.new.items ≡ set lives.old.items index Begun }
    ensures entries { diary.new ≡ diary.old ++ by Collector (act.Begun (name_of names.now index) ∷ []) }
    ensures calls { Tells (D.calls hooks.old) (D.calls hooks.new) (called.Begin (name_of names.now index) (class_at kinds.now index) ∷ []) }
    ensures test { SameTest (D.test hooks.old) (D.test hooks.new) }
{
    let name = named(names, index);
    hooks.begin(name, kinds[index].class);
    diary.begun(Pass::Collector, name);
    lives[index] = Life::Begun;
}

/// The number of the next poll of an object that was polled so often.
fn next_poll(polls: u32) -> u32
    ensures { result ≡ next_poll polls }
{
    if polls < 65535 { polls + 1 } else { 65535 }
}

/// Asks the object at an index whether it is ready, and notes it. If it is, it is told to finish
/// its destruction, and that is noted.
pub(crate) fn ask_at<D: Hooks>(
    names: &[Option<Name>],
    kinds: &[Kind],
    polls: &mut Vec<u32>,
    index: usize,
    hooks: &mut D,
    diary: &mut Diary,
) -> bool
    requires named { IsSome (name_at names.now index) }
    requires kinds { index < length kinds.now }
    requires polls { index < length polls.old.items }
    ensures polls { polls.new.items ≡ set polls.old.items index (next_poll (get_or polls.old.items index 0)) }
    ensures entries { diary.new ≡ diary.old ++ by Collector (asked_acts (name_of names.now index) (next_poll (get_or polls.old.items index 0)) result) }
    ensures calls { Tells (D.calls hooks.old) (D.calls hooks.new) (asked_calls (name_of names.now index) (class_at kinds.now index) (next_poll (get_or polls.old.items index 0)) result) }
    ensures answer { D.test hooks.old (name_of names.now index) (class_at kinds.now index) (next_poll (get_or polls.old.items index 0)) result }
    ensures test { SameTest (D.test hooks.old) (D.test hooks.new) }
{
    let name = named(names, index);
    let class = kinds[index].class;
    let poll = next_poll(polls[index]);
    polls[index] = poll;
    let answer = hooks.ready(name, class, poll);
    diary.asked(Pass::Collector, name, poll, answer);
    if answer {
        hooks.finish(name, class);
        diary.finished(Pass::Collector, name);
    }
    answer
}

/// Counts an object as finished. It tells the first index of its unit, where all members of that
/// are finished then.
pub(crate) fn finish_at(
    firsts: &[u32],
    lives: &mut Vec<Life>,
    waiting: &mut Vec<u32>,
    index: usize,
) -> Option<u32>
    requires firsts { index < length firsts.now }
    requires lives { index < length lives.old.items }
    requires head { first_at firsts.now index < length waiting.old.items }
    requires some { 0 < get_or waiting.old.items (first_at firsts.now index) 0 }
    ensures lives { lives.new.items ≡ set lives.old.items index Finished }
    ensures waiting { waiting.new.items ≡ set waiting.old.items (first_at firsts.now index) (get_or waiting.old.items (first_at firsts.now index) 0 - 1) }
    ensures unit { result ≡ finished_unit (first_at firsts.now index) (get_or waiting.old.items (first_at firsts.now index) 0 - 1) }
{
    let head = firsts[index];
    let rest = waiting[head as usize] - 1;
    lives[index] = Life::Finished;
    waiting[head as usize] = rest;
    if rest == 0 { Some(head) } else { None }
}

/// Takes the object off an index, and gives the index back to its lane.
fn give_back(
    names: &mut Vec<Option<Name>>,
    lives: &mut Vec<Life>,
    stocks: &mut Vec<Stock>,
    index: u32,
)
    requires { CanGive (record { names = names.old.items; lives = lives.old.items; stocks = stocks.old.items }) index }
    ensures { record { names = names.new.items; lives = lives.new.items; stocks = stocks.new.items } ≡ give (record { names = names.old.items; lives = lives.old.items; stocks = stocks.old.items }) index }
{
    let lane = named(names, index as usize).lane;
    names[index as usize] = None;
    lives[index as usize] = Life::Free;
    stocks[lane as usize].give(index);
}

/// Takes the `count` objects of a unit off their indexes, of which the first is `head`, and gives
/// each index back to its lane.
pub(crate) fn release(
    names: &mut Vec<Option<Name>>,
    lives: &mut Vec<Life>,
    stocks: &mut Vec<Stock>,
    next: &[u32],
    head: u32,
    count: u32,
)
    requires chain { (k : ℕ) → k < count → chained next.now head k < length next.now }
    requires can { (k : ℕ) → k < count → CanGive (give_all (record { names = names.old.items; lives = lives.old.items; stocks = stocks.old.items }) next.now head k) (chained next.now head k) }
    ensures { record { names = names.new.items; lives = lives.new.items; stocks = stocks.new.items } ≡ give_all (record { names = names.old.items; lives = lives.old.items; stocks = stocks.old.items }) next.now head count }
{
    let mut index = head;
    for k in 0..count {
        let _ = k;
        give_back(names, lives, stocks, index);
        index = next[index as usize];
    }
}
