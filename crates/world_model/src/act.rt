//! The entries of a history.

use crate::kind::Kind;
use crate::list::{Kinds, Names};
use crate::name::{Name, Weak};
use crate::pass::{Pass, Phase};
use crate::reply::{Begin, Commit, Marked, Purged, Swept};

/// What was done: one act for each call and answer, the notes of marking (`SliceOpen`, `Kept`,
/// `Scanned`) and of taking a unit apart (`Loose`), and the steps of destruction (`Begun`, `Asked`, `Finished`, `Released`).
#[derive(Clone, Debug, Drop, PartialEq, Eq)]
pub enum Act {
    /// A lane opened its frame, in this phase.
    FrameOpen {
        phase: Phase,
    },
    /// A lane closed its frame.
    FrameClose,
    /// A lane made a unit of these kinds, under its names from `first` on.
    Make {
        kinds: Kinds,
        first: u64,
    },
    /// A lane asked for `asked` objects, and had `free` indexes left.
    Full {
        asked: u32,
        free: u32,
    },
    /// A lane asked for `asked` objects, and had `left` names left.
    NamesSpent {
        asked: u32,
        left: u64,
    },
    /// A lane read a reference cell.
    ReadRef {
        at: Name,
        slot: u32,
        got: Option<Name>,
    },
    /// A lane wrote a reference cell; `old` stood there.
    WriteRef {
        at: Name,
        slot: u32,
        to: Option<Name>,
        old: Option<Name>,
    },
    /// A lane read a plain cell.
    ReadPlain {
        at: Name,
        slot: u32,
        got: u64,
    },
    /// A lane wrote a plain cell; `old` stood there.
    WritePlain {
        at: Name,
        slot: u32,
        value: u64,
        old: u64,
    },
    /// A lane rooted an object, or took it out of the root set; `old` says whether it was rooted.
    Root {
        at: Name,
        on: bool,
        old: bool,
    },
    /// A lane wrote one of its strong pointers; `old` stood there.
    SetStrong {
        h: u32,
        to: Option<Name>,
        old: Option<Name>,
    },
    /// A lane read one of its strong pointers.
    GetStrong {
        h: u32,
        got: Option<Name>,
    },
    /// A lane was given the weak pointer to an object.
    WeakOf {
        at: Name,
        got: Weak,
    },
    /// A lane asked for the first weak pointer to an object, and had drawn all `made` serials.
    NoSerial {
        at: Name,
        made: u32,
    },
    /// A lane asked which object a weak pointer gives.
    Resolve {
        pair: Weak,
        got: Option<Name>,
    },
    /// A lane took this member out of its unit: it is a unit by itself.
    Loose {
        of: Name,
    },
    /// A lane has taken apart the unit of an object, which had `count` members.
    Dissolve {
        at: Name,
        count: u32,
    },
    /// A lane asked for the unit of an object to be taken apart, while a collection marked.
    NoDissolve {
        at: Name,
    },
    /// A lane marked an object as garbage; `old` says whether it was garbage.
    MarkGarbage {
        at: Name,
        old: bool,
    },
    /// A lane asked whether an object is valid, which is to say not garbage.
    IsValid {
        at: Name,
        valid: bool,
    },
    /// The collector was asked to begin a collection.
    BeginGc {
        reply: Begin,
    },
    /// A marker opened a slice.
    SliceOpen,
    /// The unit of this object was marked: the running collection will not remove it.
    Kept {
        of: Name,
    },
    /// A marker has read all reference cells of the unit of this object.
    Scanned {
        of: Name,
    },
    /// A marker closed its slice.
    Slice {
        budget: u32,
        reply: Marked,
    },
    /// The collector was asked to commit.
    CommitGc {
        reply: Commit,
    },
    /// The collector swept, and found these removed objects, in this order.
    Sweep {
        budget: u32,
        reply: Swept,
        found: Names,
    },
    /// A removed object was told to begin its destruction.
    Begun {
        of: Name,
    },
    /// A removed object was asked whether it is ready to be finished, for the `poll`-th time.
    Asked {
        of: Name,
        poll: u32,
        answer: bool,
    },
    /// A removed object was told to finish its destruction.
    Finished {
        of: Name,
    },
    /// The removed unit whose first member this is was released.
    Released {
        of: Name,
    },
    /// The collector purged.
    PurgeGc {
        budget: u32,
        reply: Purged,
    },
}

/// One entry of a history: who acted, and what was done.
#[derive(Clone, Debug, Drop, PartialEq, Eq)]
pub struct Entry {
    pub pass: Pass,
    pub act: Act,
}
