//! What a seat knows between two steps. No value of these types is ever made: they stand in contracts and proofs.
use mark_core::Job;
use std::collections::LinkedList;
use word_layout::Part;
use world_model::{Entry, Name, Pass, Ref, Weak};

/// What a lane has between two steps.
pub struct LaneView {
    pub lane: u32,
    /// The unit that it marked and did not yet put into a row, by the index of its first member.
    pub hand: Option<u32>,
    /// It put a unit into a row, and did not yet set the dirty bit.
    pub owes: bool,
    /// The items of its free chain, in order.
    pub free: LinkedList<u32>,
    /// The items that it has taken to make objects of them, in order.
    pub making: LinkedList<u32>,
    /// The item whose head it has prepared, before it loosens the object.
    pub prepared: Option<u32>,
    /// The item of the object that it loosened last, and did not yet cut off the chain of the unit that it left.
    pub loose: Option<u32>,
}

/// A scan under way: its unit, by index and by its first member; the cells that are still to be settled, where cell
/// `slot` of item `i` has the number `i * SLOTS + slot`; and the unit that was found in the first of them.
pub struct Scanning {
    pub unit: u32,
    pub first: Name,
    pub left: LinkedList<u32>,
    pub found: Option<u32>,
}

/// What a marker has between two steps.
pub struct MarkerView {
    pub marker: u32,
    /// The units of its stack, by the indexes of their first members.
    pub stack: LinkedList<u32>,
    pub scan: Option<Scanning>,
    pub owes: bool,
    /// The row words that it last found zero while it had neither a stack nor a scan.
    pub zeros: LinkedList<u32>,
}

/// What the sweep knows of the item at its cursor.
pub enum Looking {
    /// Nothing.
    Fresh,
    /// The word of its owner named this unit.
    Owned(u32),
    /// It is the first member of a removed unit that no sweep has met.
    White(Ref),
}

/// What the collector has between two steps.
pub struct CollectorView {
    pub job: Job,
    pub hand: Option<u32>,
    /// The units that it loaded of the root set and did not yet shade.
    pub found: LinkedList<u32>,
    /// Since it cleared the dirty bit no pass of its seat has set it.
    pub clean: bool,
    /// How many items its sweeps have passed in this collection, and what it knows of the next one.
    pub cursor: u32,
    pub looking: Looking,
    /// The removed objects that the running sweep has found, in order.
    pub sweeping: LinkedList<Name>,
    /// The removed chain: the removed objects in the order of destruction, and where they stand.
    pub chain: LinkedList<Ref>,
    /// The first member of the unit whose words it clears, to release it.
    pub clearing: Option<Name>,
    /// The return stock that it has loaded for that.
    pub returned: Option<Returned>,
}

/// A return stock, which has this word still, or is empty: its lane alone takes from it, and takes all.
pub struct Returned {
    pub lane: u32,
    pub word: u64,
}

/// The value of a word that this pass alone changes.
pub struct Known {
    pub pass: Pass,
    pub part: Part,
    pub value: u64,
}

/// What a lane has loaded for a weak pointer since the first load of its serial: the unit that the word of the owner
/// named, whether the head of that unit said that it is in the world, and the reference of the name.
pub struct Memo {
    pub lane: u32,
    pub pair: Weak,
    pub owner: Option<u32>,
    pub lives: Option<bool>,
    pub name: Option<Ref>,
}

/// What a seat knows.
pub struct View {
    pub passes: LinkedList<Pass>,
    /// The history that it has seen.
    pub front: LinkedList<Entry>,
    /// Where objects stand.
    pub refs: LinkedList<Ref>,
    /// Of each of its lanes and markers the newest first.
    pub lanes: LinkedList<LaneView>,
    pub markers: LinkedList<MarkerView>,
    pub collector: CollectorView,
    /// The newest first.
    pub known: LinkedList<Known>,
    /// The counters of its passes that are behind the history, by their parts.
    pub late: LinkedList<Part>,
    pub memos: LinkedList<Memo>,
}
