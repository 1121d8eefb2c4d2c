//! A history that costs one store an entry.
ghost use Rattle.std.specs.Prelude.{◌≡◌, List, [], ◌∷◌, ◌++◌, IfOk};
ghost use Rattle.world_model.specs.Types.{Entry, Collector};
ghost use Rattle.world_model.specs.Types.act;

use crate::act::Entry;
use crate::kind::Kind;
use crate::name::{Name, Weak};
use crate::pass::{Pass, Phase};
use crate::reply::{Begin, Commit, Marked, Purged, Swept};
use atomic_table::{Play, Seat, Table, TableRule};
use std::alloc::{AllocError, Global};
use std::collections::LinkedList;
use std::marker::{Brand, Model, PhantomData};

mod acts;

use acts::{
    Asks, Begins, BeginsGc, ClosesFrame, ClosesSlice, CommitsGc, Dissolves, Finishes, GetsStrong,
    GivesWeak, IsFull, Keeps, LacksSerial, Loosens, Makes, MarksGarbage, OpensFrame, OpensSlice,
    PurgesGc, ReadsPlain, ReadsRef, RefusesToDissolve, Releases, Resolves, Roots, Scans,
    SetsStrong, SpendsNames, Sweeps, TellsValid, WritesPlain, WritesRef,
};

/// The rule of the table, which every state meets: nobody shares a diary.
struct Free;

impl TableRule<(), LinkedList<Entry>, ()> for Free {
    ghost holds = { λ _ _. Unit {0} };

    ghost first = { λ _. [] };
}

/// The entry that a store adds, which each call picks.
trait Told {
    ghost said: { Entry };
}

impl Told for Brand {
    ghost said = { record { pass = Collector; act = act.FrameClose } };
}

/// A store adds what was told to the view of the seat.
struct Adds<J> {
    of: PhantomData<J>,
}

impl<J: Told> Play<(), LinkedList<Entry>> for Adds<J> {
    ghost then = { λ _ before _ after. (after.0 ≡ before.0 ++ J.said ∷ []) × (after.1 ≡ before.1) };
}

/// What an act's function is told, as an entry.
pub trait Tells<X> {
    ghost entry: { X → Entry };
}

/// A history, which exists in proofs alone: one word of an atomic table with its one seat, whose
/// view is the history. Contracts see a diary as that list of entries.
///
/// There is one function for each act, which appends the entry of that act by one store to the
/// word. It takes no memory, and what it is told is not kept.
#[derive(Drop)]
pub struct Diary {
    table: Table<(), LinkedList<Entry>, (), Free, Global>,
    seat: Seat<(), LinkedList<Entry>>,
}

impl Model for Diary {
    ghost Value = { List Entry };

    ghost view = { λ d. d.seat.me.0 };

    ghost invariant = { λ d. (d.table.shared.table_id.words ≡ 1) × (d.seat.table_id ≡ d.table.shared.table_id) × (d.seat.me.1 ≡ []) };
}

impl Diary {
    /// An empty history. The one call that takes memory, for the word.
    pub fn new(alloc: Global) -> Result<Diary, AllocError>
        ensures { IfOk result (λ d. d ≡ []) }
    {
        let (table, seat) = Table::of_words(alloc, &[0], &())?;
        Ok(Diary { table, seat })
    }

    /// Appends what the call picks as `J`, which may be any function of `about`.
    fn tell<X, J: Told>(&mut self, about: &X)
        ensures { self.new ≡ self.old ++ J.said ∷ [] }
    {
        let _ = about;
        let table = &self.table;
        table.shared.store::<Adds<J>>(&mut self.seat, 0, 0);
    }

    /// Appends the entry of an act, told by its pass and its parts.
    fn add<X, T: Tells<X>>(&mut self, about: &X)
        ensures { self.new ≡ self.old ++ T.entry about.now ∷ [] }
    {
        self.tell::<X, Brand>(about);
    }

    /// A lane opened its frame, in this phase.
    pub fn frame_open(&mut self, pass: Pass, phase: Phase)
        ensures { self.new ≡ self.old ++ record { pass = pass; act = act.FrameOpen phase } ∷ [] }
    {
        self.add::<(Pass, Phase), OpensFrame>(&(pass, phase));
    }

    /// A lane closed its frame.
    pub fn frame_close(&mut self, pass: Pass)
        ensures { self.new ≡ self.old ++ record { pass = pass; act = act.FrameClose } ∷ [] }
    {
        self.add::<Pass, ClosesFrame>(&pass);
    }

    /// A lane made a unit of these kinds, under its names from `first` on.
    pub fn make(&mut self, pass: Pass, kinds: &[Kind], first: u64)
        ensures { self.new ≡ self.old ++ record { pass = pass; act = act.Make kinds.now first } ∷ [] }
    {
        self.add::<(Pass, &[Kind], u64), Makes>(&(pass, kinds, first));
    }

    /// A lane asked for `asked` objects, and had `free` indexes left.
    pub fn full(&mut self, pass: Pass, asked: u32, free: u32)
        ensures { self.new ≡ self.old ++ record { pass = pass; act = act.Full asked free } ∷ [] }
    {
        self.add::<(Pass, u32, u32), IsFull>(&(pass, asked, free));
    }

    /// A lane asked for `asked` objects, and had `left` names left.
    pub fn names_spent(&mut self, pass: Pass, asked: u32, left: u64)
        ensures { self.new ≡ self.old ++ record { pass = pass; act = act.NamesSpent asked left } ∷ [] }
    {
        self.add::<(Pass, u32, u64), SpendsNames>(&(pass, asked, left));
    }

    /// A lane read a reference cell.
    pub fn read_ref(&mut self, pass: Pass, at: Name, slot: u32, got: Option<Name>)
        ensures { self.new ≡ self.old ++ record { pass = pass; act = act.ReadRef at slot got } ∷ [] }
    {
        self.add::<(Pass, Name, u32, Option<Name>), ReadsRef>(&(pass, at, slot, got));
    }

    /// A lane wrote a reference cell; `old` stood there.
    pub fn write_ref(
        &mut self,
        pass: Pass,
        at: Name,
        slot: u32,
        to: Option<Name>,
        old: Option<Name>,
    )
        ensures { self.new ≡ self.old ++ record { pass = pass; act = act.WriteRef at slot to old } ∷ [] }
    {
        self.add::<(Pass, Name, u32, Option<Name>, Option<Name>), WritesRef>(&(
            pass, at, slot, to, old,
        ));
    }

    /// A lane read a plain cell.
    pub fn read_plain(&mut self, pass: Pass, at: Name, slot: u32, got: u64)
        ensures { self.new ≡ self.old ++ record { pass = pass; act = act.ReadPlain at slot got } ∷ [] }
    {
        self.add::<(Pass, Name, u32, u64), ReadsPlain>(&(pass, at, slot, got));
    }

    /// A lane wrote a plain cell; `old` stood there.
    pub fn write_plain(&mut self, pass: Pass, at: Name, slot: u32, value: u64, old: u64)
        ensures { self.new ≡ self.old ++ record { pass = pass; act = act.WritePlain at slot value old } ∷ [] }
    {
        self.add::<(Pass, Name, u32, u64, u64), WritesPlain>(&(pass, at, slot, value, old));
    }

    /// A lane rooted an object, or took it out of the root set; `old` says whether it was rooted.
    pub fn root(&mut self, pass: Pass, at: Name, on: bool, old: bool)
        ensures { self.new ≡ self.old ++ record { pass = pass; act = act.Root at on old } ∷ [] }
    {
        self.add::<(Pass, Name, bool, bool), Roots>(&(pass, at, on, old));
    }

    /// A lane wrote one of its strong pointers; `old` stood there.
    pub fn set_strong(&mut self, pass: Pass, h: u32, to: Option<Name>, old: Option<Name>)
        ensures { self.new ≡ self.old ++ record { pass = pass; act = act.SetStrong h to old } ∷ [] }
    {
        self.add::<(Pass, u32, Option<Name>, Option<Name>), SetsStrong>(&(pass, h, to, old));
    }

    /// A lane read one of its strong pointers.
    pub fn get_strong(&mut self, pass: Pass, h: u32, got: Option<Name>)
        ensures { self.new ≡ self.old ++ record { pass = pass; act = act.GetStrong h got } ∷ [] }
    {
        self.add::<(Pass, u32, Option<Name>), GetsStrong>(&(pass, h, got));
    }

    /// A lane was given the weak pointer to an object.
    pub fn weak_of(&mut self, pass: Pass, at: Name, got: Weak)
        ensures { self.new ≡ self.old ++ record { pass = pass; act = act.WeakOf at got } ∷ [] }
    {
        self.add::<(Pass, Name, Weak), GivesWeak>(&(pass, at, got));
    }

    /// A lane asked for the first weak pointer to an object, and had drawn all `made` serials.
    pub fn no_serial(&mut self, pass: Pass, at: Name, made: u32)
        ensures { self.new ≡ self.old ++ record { pass = pass; act = act.NoSerial at made } ∷ [] }
    {
        self.add::<(Pass, Name, u32), LacksSerial>(&(pass, at, made));
    }

    /// A lane asked which object a weak pointer gives.
    pub fn resolve(&mut self, pass: Pass, pair: Weak, got: Option<Name>)
        ensures { self.new ≡ self.old ++ record { pass = pass; act = act.Resolve pair got } ∷ [] }
    {
        self.add::<(Pass, Weak, Option<Name>), Resolves>(&(pass, pair, got));
    }

    /// A lane took this member out of its unit.
    pub fn loose(&mut self, pass: Pass, of: Name)
        ensures { self.new ≡ self.old ++ record { pass = pass; act = act.Loose of } ∷ [] }
    {
        self.add::<(Pass, Name), Loosens>(&(pass, of));
    }

    /// A lane has taken apart the unit of an object, which had `count` members.
    pub fn dissolve(&mut self, pass: Pass, at: Name, count: u32)
        ensures { self.new ≡ self.old ++ record { pass = pass; act = act.Dissolve at count } ∷ [] }
    {
        self.add::<(Pass, Name, u32), Dissolves>(&(pass, at, count));
    }

    /// A lane asked for the unit of an object to be taken apart, while a collection marked.
    pub fn no_dissolve(&mut self, pass: Pass, at: Name)
        ensures { self.new ≡ self.old ++ record { pass = pass; act = act.NoDissolve at } ∷ [] }
    {
        self.add::<(Pass, Name), RefusesToDissolve>(&(pass, at));
    }

    /// A lane marked an object as garbage; `old` says whether it was garbage.
    pub fn mark_garbage(&mut self, pass: Pass, at: Name, old: bool)
        ensures { self.new ≡ self.old ++ record { pass = pass; act = act.MarkGarbage at old } ∷ [] }
    {
        self.add::<(Pass, Name, bool), MarksGarbage>(&(pass, at, old));
    }

    /// A lane asked whether an object is valid, which is to say not garbage.
    pub fn is_valid(&mut self, pass: Pass, at: Name, valid: bool)
        ensures { self.new ≡ self.old ++ record { pass = pass; act = act.IsValid at valid } ∷ [] }
    {
        self.add::<(Pass, Name, bool), TellsValid>(&(pass, at, valid));
    }

    /// The collector was asked to begin a collection.
    pub fn begin_gc(&mut self, pass: Pass, reply: Begin)
        ensures { self.new ≡ self.old ++ record { pass = pass; act = act.BeginGc reply } ∷ [] }
    {
        self.add::<(Pass, Begin), BeginsGc>(&(pass, reply));
    }

    /// A marker opened a slice.
    pub fn slice_open(&mut self, pass: Pass)
        ensures { self.new ≡ self.old ++ record { pass = pass; act = act.SliceOpen } ∷ [] }
    {
        self.add::<Pass, OpensSlice>(&pass);
    }

    /// The unit of this object was marked.
    pub fn kept(&mut self, pass: Pass, of: Name)
        ensures { self.new ≡ self.old ++ record { pass = pass; act = act.Kept of } ∷ [] }
    {
        self.add::<(Pass, Name), Keeps>(&(pass, of));
    }

    /// A marker has read all reference cells of the unit of this object.
    pub fn scanned(&mut self, pass: Pass, of: Name)
        ensures { self.new ≡ self.old ++ record { pass = pass; act = act.Scanned of } ∷ [] }
    {
        self.add::<(Pass, Name), Scans>(&(pass, of));
    }

    /// A marker closed its slice.
    pub fn slice(&mut self, pass: Pass, budget: u32, reply: Marked)
        ensures { self.new ≡ self.old ++ record { pass = pass; act = act.Slice budget reply } ∷ [] }
    {
        self.add::<(Pass, u32, Marked), ClosesSlice>(&(pass, budget, reply));
    }

    /// The collector was asked to commit.
    pub fn commit_gc(&mut self, pass: Pass, reply: Commit)
        ensures { self.new ≡ self.old ++ record { pass = pass; act = act.CommitGc reply } ∷ [] }
    {
        self.add::<(Pass, Commit), CommitsGc>(&(pass, reply));
    }

    /// The collector swept, and found these removed objects, in this order.
    pub fn sweep(&mut self, pass: Pass, budget: u32, reply: Swept, found: &[Name])
        ensures { self.new ≡ self.old ++ record { pass = pass; act = act.Sweep budget reply found.now } ∷ [] }
    {
        self.add::<(Pass, u32, Swept, &[Name]), Sweeps>(&(pass, budget, reply, found));
    }

    /// A removed object was told to begin its destruction.
    pub fn begun(&mut self, pass: Pass, of: Name)
        ensures { self.new ≡ self.old ++ record { pass = pass; act = act.Begun of } ∷ [] }
    {
        self.add::<(Pass, Name), Begins>(&(pass, of));
    }

    /// A removed object was asked whether it is ready to be finished, for the `poll`-th time.
    pub fn asked(&mut self, pass: Pass, of: Name, poll: u32, answer: bool)
        ensures { self.new ≡ self.old ++ record { pass = pass; act = act.Asked of poll answer } ∷ [] }
    {
        self.add::<(Pass, Name, u32, bool), Asks>(&(pass, of, poll, answer));
    }

    /// A removed object was told to finish its destruction.
    pub fn finished(&mut self, pass: Pass, of: Name)
        ensures { self.new ≡ self.old ++ record { pass = pass; act = act.Finished of } ∷ [] }
    {
        self.add::<(Pass, Name), Finishes>(&(pass, of));
    }

    /// The removed unit whose first member this is was released.
    pub fn released(&mut self, pass: Pass, of: Name)
        ensures { self.new ≡ self.old ++ record { pass = pass; act = act.Released of } ∷ [] }
    {
        self.add::<(Pass, Name), Releases>(&(pass, of));
    }

    /// The collector purged.
    pub fn purge_gc(&mut self, pass: Pass, budget: u32, reply: Purged)
        ensures { self.new ≡ self.old ++ record { pass = pass; act = act.PurgeGc budget reply } ∷ [] }
    {
        self.add::<(Pass, u32, Purged), PurgesGc>(&(pass, budget, reply));
    }
}
