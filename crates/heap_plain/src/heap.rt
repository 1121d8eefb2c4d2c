//! The engine over vectors.
ghost use Rattle.std.specs.Prelude.{◌≡◌, ℕ, ◌+◌, ◌*◌, ◌<◌, [], IfOk};
ghost use Rattle.heap_plain.specs.Types.{Collector};
ghost use Rattle.heap_plain.specs.Types.act;
ghost use Rattle.heap_plain.specs.Types.commit;
ghost use Rattle.heap_plain.specs.Parts.{Holds, HoldsNothing};
ghost use Rattle.world_model.specs.Calls.{Appends};
ghost use Rattle.world_model.specs.Engines.{KeepsHeld};

use crate::colours::Colours;
use crate::creating::{answer, classify, decide, fill_popped, fill_rows, link, place, refuse};
use crate::filled::{copy, fill, filled};
use crate::gate::Gate;
use crate::life::Life;
use crate::listing::{list_unit, list_units, member_at};
use crate::marking::{is_done, may_end, may_start, named, starts, stop_of};
use crate::pairing::{draws, given};
use crate::parting::{MEMBERS, loosen};
use crate::purging::{ask_at, begin_at, finish_at, release};
use crate::queue::Queue;
use crate::rooting::store;
use crate::scanning::{shade_roots, shade_strong, shade_unit};
use crate::serials::Serials;
use crate::stock::{Stock, full_stocks};
use crate::storing::{index_of, name_of, referred, rooting, shade_target};
use crate::sweeping::{find_removed, remove_white};
use std::alloc::{AllocError, Global};
use std::marker::{Model, PhantomData};
use world_model::{
    Begin, ClassId, Commit, CreateErr, Diary, DissolveErr, Engine, Hooks, Kind, Marked, Name, Pass,
    Phase, Purged, Ready, Ref, SerialsSpent, Shape, SweepStop, Swept, Weak,
};

/// The kind at an index that was never used.
const NO_KIND: Kind = Kind {
    class: ClassId(0),
    refs: 0,
    plain: 0,
    ready: Ready::After(0),
};

/// A world of objects over vectors, for one owner.
///
/// All memory is taken by `new`: for each index of the shape its name, the first index and the
/// size of its unit, the index of the next member, its kind, a row of reference cells and one of plain
/// cells, whether it lives, its root bit, its mark bit, the number of its polls, the number of members
/// that its unit waits for, a place of the worklist, one among the free indexes of its lane, one of the
/// queue of destruction, and whether it is garbage.
/// Opening and closing a frame, setting a root, reading and writing a cell, and marking an object as
/// garbage and asking for that cost a few steps; making a unit as many as it has cells; taking one apart
/// as many as it has members, and a table of as many places as a unit may have members is cleared for
/// it; a slice of marking as many as the objects that it scans have reference cells; a step of
/// destruction as many as it has objects; the rest looks at all items.
#[derive(Drop)]
pub struct PlainHeap<S: Shape> {
    /// The name at each index, while its object is not released.
    names: Vec<Option<Name>>,
    /// At the index of an object that of the first member of its unit, and there the unit's size.
    firsts: Vec<u32>,
    sizes: Vec<u32>,
    /// At the index of each member of a unit but the last that of the next one.
    next: Vec<u32>,
    kinds: Vec<Kind>,
    /// The cells, a row of slots for each index: the index of the object that a reference cell names,
    /// and the number in a plain one. Marking follows the reference cells of each object alone.
    targets: Vec<Option<u32>>,
    plains: Vec<u64>,
    lives: Vec<Life>,
    roots: Vec<bool>,
    /// Which units are marked, and the worklist of the running collection.
    colours: Colours,
    /// Of each lane the free indexes, and how many objects it has made.
    stocks: Vec<Stock>,
    made: Vec<u64>,
    /// The phase, and which frames are open.
    gate: Gate,
    /// How many removed objects are left, or, while they are being found, are found; and how many
    /// items the sweeps since the last commit have looked at.
    left: u32,
    swept: u32,
    /// The removed objects that are to be begun, and those that are begun and not finished.
    queue: Queue,
    /// How often each removed object was asked, and at the index of the first member of a removed
    /// unit how many of its members are not finished.
    polls: Vec<u32>,
    waiting: Vec<u32>,
    /// The unit that is to be released, by the index of its first member.
    done: Option<u32>,
    /// At the index of each object that lives whether it is marked as garbage.
    garbage: Vec<bool>,
    /// The strong pointers, a row for each lane: the index of the object that one names.
    strong: Vec<Option<u32>>,
    serials: Serials,
    diary: Diary,
    shape: PhantomData<S>,
}

impl<S: Shape> Model for PlainHeap<S> {
    ghost use Rattle.heap_plain.specs.Parts.{Shown};

    ghost Value = { Shown };

    ghost use Rattle.heap_plain.specs.Plain.{IsPlain};

    ghost view = { λ h. record { history = h.diary; names = h.names.items } };

    ghost invariant = { λ h. IsPlain S.sizes (record {
      gate = h.gate;
      objects = record { names = h.names.items; firsts = h.firsts.items; sizes = h.sizes.items; next = h.next.items; lives = h.lives.items };
      rows = record { kinds = h.kinds.items; targets = h.targets.items; plains = h.plains.items };
      roots = h.roots.items;
      garbage = h.garbage.items;
      strong = h.strong.items;
      pairs = h.serials;
      colours = h.colours;
      stock = record { stocks = h.stocks.items; made = h.made.items };
      ends = record { left = h.left; swept = h.swept; queue = h.queue; polls = h.polls.items; waiting = h.waiting.items; done = h.done };
    }) h.diary };
}

impl<S: Shape> PlainHeap<S> {
    /// An empty world. The one call that takes memory.
    pub fn new(alloc: Global) -> Result<PlainHeap<S>, AllocError>
        ensures empty { IfOk result (λ h. h.history ≡ []) }
        ensures nothing_held { IfOk result HoldsNothing }
    {
        let lanes = S::LANES as usize;
        let quota = S::QUOTA as usize;
        let items = lanes * quota;
        let cells = items * S::SLOTS as usize;
        Ok(PlainHeap {
            names: filled(alloc, items, None)?,
            firsts: filled(alloc, items, 0)?,
            sizes: filled(alloc, items, 0)?,
            next: filled(alloc, items, 0)?,
            kinds: filled(alloc, items, NO_KIND)?,
            targets: filled(alloc, cells, None)?,
            plains: filled(alloc, cells, 0)?,
            lives: filled(alloc, items, Life::Free)?,
            roots: filled(alloc, items, false)?,
            colours: Colours::new(alloc, items)?,
            stocks: full_stocks(alloc, lanes, quota)?,
            made: filled(alloc, lanes, 0)?,
            gate: Gate::new(alloc, lanes)?,
            left: 0,
            swept: 0,
            queue: Queue::new(alloc, items)?,
            polls: filled(alloc, items, 0)?,
            waiting: filled(alloc, items, 0)?,
            done: None,
            garbage: filled(alloc, items, false)?,
            strong: filled(alloc, lanes * S::STRONG as usize, None)?,
            serials: Serials::new(alloc, items, lanes)?,
            diary: Diary::new(alloc)?,
            shape: PhantomData,
        })
    }
}

impl<S: Shape> Engine<S> for PlainHeap<S> {
    ghost use Rattle.heap_plain.specs.Parts.{Holds, one_index as one};

    ghost history = { λ h. h.history };

    ghost holds = { Holds };

    ghost held_is_given = { λ e l r h. h.given };

    ghost one_index = { one };

    fn lawful(&self) {
        let _ = self.gate.phase();
    }

    fn open_frame(&mut self, lane: u32) -> Phase {
        let phase = self.gate.phase();
        self.gate.open(lane);
        self.diary.frame_open(Pass::Lane(lane), phase);
        phase
    }

    fn close_frame(&mut self, lane: u32) {
        self.gate.close(lane);
        self.diary.frame_close(Pass::Lane(lane));
    }

    fn create(&mut self, lane: u32, kinds: &[Kind], out: &mut [Ref]) -> Result<(), CreateErr> {
        let asked = kinds.len();
        let made = self.made[lane as usize];
        let free = &self.stocks[lane as usize];
        let decision = decide(asked as u32, S::NAMES - made, free.spare() as u32);
        if let Err(refused) = decision {
            refuse(lane, asked as u32, refused, &mut self.diary);
            return Err(refused);
        }
        let head = free.peek(0);
        let slots = S::SLOTS as usize;
        place(&mut self.names, free, asked, lane, made + 1);
        fill_popped(&mut self.firsts, free, asked, head);
        classify(&mut self.kinds, free, kinds);
        fill_rows(&mut self.targets, free, asked, slots, None);
        fill_rows(&mut self.plains, free, asked, slots, 0);
        fill_popped(&mut self.lives, free, asked, Life::Live);
        link(&mut self.next, free, asked);
        fill_popped(&mut self.garbage, free, asked, false);
        answer(out, free, lane, made + 1);
        self.sizes[head as usize] = asked as u32;
        self.colours.bear(head);
        self.stocks[lane as usize].take(asked);
        self.made[lane as usize] = made + asked as u64;
        self.diary.make(Pass::Lane(lane), kinds, made + 1);
        Ok(())
    }

    fn kind_of(&mut self, _lane: u32, at: Ref) -> Kind {
        self.kinds[at.index as usize]
    }

    fn unit_of(&mut self, _lane: u32, at: Ref) -> Name {
        let head = self.firsts[at.index as usize];
        named(&self.names, head as usize)
    }

    fn member(&mut self, _lane: u32, at: Ref, k: u32) -> Option<Ref> {
        let head = self.firsts[at.index as usize];
        let size = self.sizes[head as usize];
        referred(&self.names, member_at(&self.next, head, size, k))
    }

    fn read_ref(&mut self, lane: u32, at: Ref, slot: u32) -> Option<Ref> {
        let place = at.index as usize * S::SLOTS as usize + slot as usize;
        let got = referred(&self.names, self.targets[place]);
        self.diary
            .read_ref(Pass::Lane(lane), at.name, slot, name_of(got));
        got
    }

    fn write_ref(&mut self, lane: u32, at: Ref, slot: u32, to: Option<Ref>) -> Option<Ref> {
        let place = at.index as usize * S::SLOTS as usize + slot as usize;
        shade_target(
            self.gate.phase(),
            to,
            lane,
            &self.firsts,
            &mut self.colours,
            &mut self.diary,
        );
        let old = referred(&self.names, self.targets[place]);
        self.targets[place] = index_of(to);
        self.diary
            .write_ref(Pass::Lane(lane), at.name, slot, name_of(to), name_of(old));
        old
    }

    fn read_plain(&mut self, lane: u32, at: Ref, slot: u32) -> u64 {
        let place = at.index as usize * S::SLOTS as usize + slot as usize;
        let got = self.plains[place];
        self.diary.read_plain(Pass::Lane(lane), at.name, slot, got);
        got
    }

    fn write_plain(&mut self, lane: u32, at: Ref, slot: u32, value: u64) -> u64 {
        let place = at.index as usize * S::SLOTS as usize + slot as usize;
        let old = self.plains[place];
        self.plains[place] = value;
        self.diary
            .write_plain(Pass::Lane(lane), at.name, slot, value, old);
        old
    }

    fn set_root(&mut self, lane: u32, at: Ref, on: bool) -> bool {
        shade_target(
            self.gate.phase(),
            rooting(on, at),
            lane,
            &self.firsts,
            &mut self.colours,
            &mut self.diary,
        );
        let index = at.index as usize;
        store(&mut self.roots, index, lane, at.name, on, &mut self.diary)
    }

    fn set_strong(&mut self, lane: u32, h: u32, to: Option<Ref>) -> Option<Ref> {
        let place = lane as usize * S::STRONG as usize + h as usize;
        shade_target(
            self.gate.phase(),
            to,
            lane,
            &self.firsts,
            &mut self.colours,
            &mut self.diary,
        );
        let old = referred(&self.names, self.strong[place]);
        self.strong[place] = index_of(to);
        self.diary
            .set_strong(Pass::Lane(lane), h, name_of(to), name_of(old));
        old
    }

    fn get_strong(&mut self, lane: u32, h: u32) -> Option<Ref> {
        let place = lane as usize * S::STRONG as usize + h as usize;
        let got = referred(&self.names, self.strong[place]);
        self.diary.get_strong(Pass::Lane(lane), h, name_of(got));
        got
    }

    fn weak_of(&mut self, lane: u32, at: Ref) -> Result<Weak, SerialsSpent> {
        if let Some(weak) = self.serials.at(at.index) {
            self.diary.weak_of(Pass::Lane(lane), at.name, weak);
            return Ok(weak);
        }
        let drawn = self.serials.draw(lane, at.index, S::SERIALS);
        draws(lane, at.name, drawn, &mut self.diary);
        drawn
    }

    fn resolve(&mut self, lane: u32, weak: Weak) -> Option<Ref> {
        let found = self.serials.index(weak);
        let got = given(&self.names, &self.lives, &self.garbage, found);
        self.diary.resolve(Pass::Lane(lane), weak, name_of(got));
        got
    }

    fn dissolve(&mut self, lane: u32, at: Ref) -> Result<u32, DissolveErr> {
        match self.gate.phase() {
            Phase::Marking => {
                self.diary.no_dissolve(Pass::Lane(lane), at.name);
                return Err(DissolveErr::Marking);
            }
            _ => {}
        }
        let head = self.firsts[at.index as usize];
        let count = self.sizes[head as usize];
        let mut members = [0; MEMBERS];
        list_unit(&self.next, head, count as usize, &mut members);
        let mut left = count;
        while left > 1 {
            left -= 1;
            let index = members[left as usize];
            self.diary
                .loose(Pass::Lane(lane), named(&self.names, index as usize));
            loosen(&mut self.firsts, &mut self.sizes, head, left, index);
        }
        self.diary.dissolve(Pass::Lane(lane), at.name, count);
        Ok(count)
    }

    fn mark_garbage(&mut self, lane: u32, at: Ref) -> bool {
        let index = at.index as usize;
        let old = self.garbage[index];
        self.garbage[index] = true;
        self.diary.mark_garbage(Pass::Lane(lane), at.name, old);
        old
    }

    fn is_valid(&mut self, lane: u32, at: Ref) -> bool {
        let valid = !self.garbage[at.index as usize];
        self.diary.is_valid(Pass::Lane(lane), at.name, valid);
        valid
    }

    fn mark(&mut self, marker: u32, budget: u32) -> Marked {
        self.diary.slice_open(Pass::Marker(marker));
        let mut scanned = 0;
        while self.colours.grey() > 0 && scanned < budget {
            let head = self.colours.next();
            let size = self.sizes[head as usize];
            shade_unit(
                &self.names,
                &self.firsts,
                &self.next,
                &self.kinds,
                &self.targets,
                S::SLOTS as usize,
                head,
                size,
                Pass::Marker(marker),
                &mut self.colours,
                &mut self.diary,
            );
            self.colours.blacken();
            self.diary
                .scanned(Pass::Marker(marker), named(&self.names, head as usize));
            scanned += size;
        }
        let reply = Marked {
            scanned,
            stop: stop_of(scanned, budget),
        };
        self.diary.slice(Pass::Marker(marker), budget, reply);
        reply
    }

    fn phase(&mut self) -> Phase {
        self.gate.phase()
    }

    fn left(&mut self) -> u32 {
        self.left
    }

    fn begin(&mut self) -> Begin {
        let reply = may_start(self.gate.phase(), self.left, self.gate.opened());
        self.diary.begin_gc(Pass::Collector, reply);
        if starts(reply) {
            self.gate.enter(Phase::Marking);
            self.colours.clear();
            shade_roots(
                &self.names,
                &self.firsts,
                &self.roots,
                &mut self.colours,
                &mut self.diary,
            );
            shade_strong(
                &self.names,
                &self.firsts,
                &self.strong,
                S::LANES as usize,
                S::STRONG as usize,
                &mut self.colours,
                &mut self.diary,
            );
            return Begin::Started;
        }
        reply
    }

    /// Where it answers `Unfinished`, the row word is 0 and its bits are 1: a plain heap has no rows.
    fn commit(&mut self) -> Commit
        ensures entries { Appends S.sizes self.old.history self.new.history Collector (act.CommitGc result) }
        ensures held { KeepsHeld (Holds self.old) (Holds self.new) }
        ensures word { (word bits : ℕ) → result ≡ commit.Unfinished word bits → (word ≡ 0) × (bits ≡ 1) }
    {
        let reply = may_end(self.gate.phase(), self.colours.grey(), self.gate.opened());
        self.diary.commit_gc(Pass::Collector, reply);
        if is_done(reply) {
            self.gate.enter(Phase::Gathering);
            self.left = 0;
            self.swept = 0;
            self.queue.clear();
            self.done = None;
            let items = self.polls.len();
            fill(&mut self.polls, 0, items, 0);
            copy(&mut self.waiting, &self.sizes);
            remove_white(&self.firsts, &self.colours, &mut self.lives);
            return Commit::Done;
        }
        reply
    }

    fn sweep(&mut self, budget: u32, found: &mut [Name]) -> Swept {
        let phase = self.gate.phase();
        match phase {
            Phase::Gathering => {}
            _ => {
                let reply = Swept {
                    looked: 0,
                    found: 0,
                    stop: SweepStop::NotGathering(phase),
                };
                self.diary.sweep(Pass::Collector, budget, reply, &[]);
                return reply;
            }
        }
        let (looked, count) = find_removed(
            &self.names,
            &self.lives,
            self.swept as usize,
            budget,
            found,
        );
        list_units(
            &self.lives,
            &self.firsts,
            &self.sizes,
            &self.next,
            self.swept as usize,
            looked as usize,
            &mut self.queue,
        );
        self.swept += looked;
        self.left += count;
        if (self.swept as usize) < self.lives.len() {
            let reply = Swept {
                looked,
                found: count,
                stop: SweepStop::More,
            };
            self.diary
                .sweep(Pass::Collector, budget, reply, &found[..count as usize]);
            return reply;
        }
        self.gate.enter(Phase::Idle);
        let reply = Swept {
            looked,
            found: count,
            stop: SweepStop::Settled,
        };
        self.diary
            .sweep(Pass::Collector, budget, reply, &found[..count as usize]);
        reply
    }

    fn purge<D: Hooks>(&mut self, hooks: &mut D, budget: u32) -> Purged {
        match self.gate.phase() {
            Phase::Gathering => {
                self.diary
                    .purge_gc(Pass::Collector, budget, Purged::Gathering);
                return Purged::Gathering;
            }
            _ => {}
        }
        let mut steps = 0;
        while steps < budget && self.left > 0 {
            steps += 1;
            if let Some(index) = self.queue.begin() {
                begin_at(
                    &self.names,
                    &self.kinds,
                    &mut self.lives,
                    index as usize,
                    hooks,
                    &mut self.diary,
                );
                continue;
            }
            if let Some(head) = self.done {
                let size = self.sizes[head as usize];
                self.done = None;
                self.left -= size;
                self.diary
                    .released(Pass::Collector, named(&self.names, head as usize));
                self.serials.clear(&self.next, head, size);
                release(
                    &mut self.names,
                    &mut self.lives,
                    &mut self.stocks,
                    &self.next,
                    head,
                    size,
                );
                continue;
            }
            let index = self.queue.next();
            let agreed = ask_at(
                &self.names,
                &self.kinds,
                &mut self.polls,
                index as usize,
                hooks,
                &mut self.diary,
            );
            if agreed {
                self.queue.finish();
                self.done = finish_at(
                    &self.firsts,
                    &mut self.lives,
                    &mut self.waiting,
                    index as usize,
                );
                continue;
            }
            self.queue.turn();
        }
        let reply = Purged::Ran {
            steps,
            left: self.left,
        };
        self.diary.purge_gc(Pass::Collector, budget, reply);
        reply
    }
}
