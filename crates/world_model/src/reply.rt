//! What calls answer.

use crate::pass::Phase;

/// Why no unit was made.
#[derive(Clone, Copy, Debug, PartialEq, Eq)]
pub enum CreateErr {
    /// The lane has `free` indexes left, fewer than were asked for. A collection may free more.
    Full { free: u32 },
    /// The lane has `left` names left, fewer than were asked for. It never gets more.
    NamesSpent { left: u32 },
}

/// The lane has drawn `made` serials, all that it has. It never gets more.
#[derive(Clone, Copy, Debug, PartialEq, Eq)]
pub struct SerialsSpent {
    pub made: u32,
}

/// Why a unit was not taken apart.
#[derive(Clone, Copy, Debug, PartialEq, Eq)]
pub enum DissolveErr {
    /// A collection marks. The unit can be taken apart after its commit.
    Marking,
}

/// Whether a collection began.
#[derive(Clone, Copy, Debug, PartialEq, Eq)]
pub enum Begin {
    Started,
    /// A collection runs already; its phase.
    Running(Phase),
    /// So many objects of the last collection are not released.
    Purging(u32),
    /// So many frames and slices are open.
    Frames(u32),
}

/// Whether a collection committed to what it removes.
#[derive(Clone, Copy, Debug, PartialEq, Eq)]
pub enum Commit {
    Done,
    /// No collection marks; the phase.
    NotMarking(Phase),
    /// Units are still to be scanned: the word of the grey rows that showed some, and its bits.
    Unfinished { word: u32, bits: u64 },
    /// A frame or a slice that may have marked a unit was closed meanwhile.
    Stores,
    /// So many frames and slices are open.
    Frames(u32),
}

/// Why a marking slice stopped.
#[derive(Clone, Copy, Debug, PartialEq, Eq)]
pub enum MarkStop {
    /// Its budget was spent.
    Spent,
    /// It found nothing more to scan.
    Idle,
}

/// What a marking slice did.
#[derive(Clone, Copy, Debug, PartialEq, Eq)]
pub struct Marked {
    /// How many objects it scanned: the members of all units that it scanned.
    pub scanned: u32,
    pub stop: MarkStop,
}

/// Why a sweep stopped.
#[derive(Clone, Copy, Debug, PartialEq, Eq)]
pub enum SweepStop {
    /// Its budget was spent or its buffer full, and items are left.
    More,
    /// It has looked at the last item: all removed objects are found.
    Settled,
    /// No collection gathers; the phase.
    NotGathering(Phase),
}

/// What a sweep did.
#[derive(Clone, Copy, Debug, PartialEq, Eq)]
pub struct Swept {
    /// How many items of the object array it looked at.
    pub looked: u32,
    /// How many removed objects it found.
    pub found: u32,
    pub stop: SweepStop,
}

/// What a purge did.
#[derive(Clone, Copy, Debug, PartialEq, Eq)]
pub enum Purged {
    /// Nothing: the removed objects are still being found.
    Gathering,
    /// It made so many steps of destruction, and so many removed objects are not released.
    Ran { steps: u32, left: u32 },
}

/// What a whole collection did.
#[derive(Clone, Copy, Debug, PartialEq, Eq)]
pub struct Collected {
    /// How many objects it scanned: the members of all units that are reached.
    pub scanned: u32,
}
