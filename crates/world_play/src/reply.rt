//! What each line of a script answers.

use world_model::{ClassId, Name, Names, Phase};

/// The reply to a line. A lane's reply begins with its lane.
#[derive(Clone, Debug, Drop, PartialEq, Eq)]
pub enum Reply {
    /// The frame is open; the phase that it found.
    Opened(u32, Phase),
    /// The frame is closed.
    Closed(u32),
    /// The object that was made.
    New(u32, Name),
    /// The first member of the cluster that was made, and how many members it has.
    Cluster(u32, Name, u32),
    /// Nothing was made, since so many indexes are free.
    Full(u32, u32),
    /// Nothing was made, since so many names are left.
    NamesSpent(u32, u64),
    /// Whether the object was in the root set.
    WasRoot(u32, bool),
    /// What the reference cell or the strong pointer named before.
    Was(u32, Option<Name>),
    /// The number that stood in the cell before.
    WasNumber(u32, u64),
    /// What the reference cell, the strong pointer or the weak pointer gives.
    Is(u32, Option<Name>),
    /// The number in the cell.
    IsNumber(u32, u64),
    /// Whether a weak pointer stood in the cell before.
    WasWeak(u32, bool),
    /// Whether a weak pointer is in the cell.
    IsWeak(u32, bool),
    /// The object to which the weak pointer was given.
    WeakMade(u32, Name),
    /// No weak pointer was given, since the lane has drawn all its serials, which are so many.
    SerialsSpent(u32, u32),
    /// A pair was forged.
    Forged(u32),
    /// Whether two pairs have the same index and the same serial.
    Same(u32, bool),
    /// An object and its class.
    Object(u32, Name, ClassId),
    /// The variable stands for no object.
    NoObject(u32),
    /// The object has no field of this name.
    NoField(u32),
    /// The field is of another kind than the command is for.
    WrongKind(u32),
    /// The field has no such element.
    NoElement(u32),
    /// The object is of no class that the field may refer to.
    WrongClass(u32),
    /// No collection began, since one runs; its phase.
    Running(Phase),
    /// No collection began, since so many objects of the last one are not released.
    Purging(u32),
    /// No collection began, since so many frames are open.
    Pending(u32),
    /// A whole collection: how many objects it removed, how many of these are not released, and
    /// which they are, in the order of their names.
    FullGc(u32, u32, Names),
}
