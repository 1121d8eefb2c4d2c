//! When a collection begins and commits, and why a slice of marking stops.
ghost use Rattle.std.specs.Prelude.{◌≡◌, IsSome, Some};
ghost use Rattle.heap_plain.specs.Parts.{name_at};
ghost use Rattle.heap_plain.specs.Notes.{MayStart, MayEnd, StopsBy, starts, is_done};

use world_model::{Begin, Commit, MarkStop, Name, Phase};

/// What `begin` answers, where so many removed objects are left and so many frames are open.
pub(crate) fn may_start(phase: Phase, left: u32, opened: u32) -> Begin
    ensures { MayStart phase left opened result }
{
    match phase {
        Phase::Idle => {}
        _ => return Begin::Running(phase),
    }
    if left > 0 {
        return Begin::Purging(left);
    }
    if opened > 0 {
        return Begin::Frames(opened);
    }
    Begin::Started
}

/// Whether the answer is that a collection starts.
pub(crate) fn starts(reply: Begin) -> bool
    ensures { result ≡ starts reply }
{
    match reply {
        Begin::Started => true,
        _ => false,
    }
}

/// What `commit` answers, where so many units are grey and so many frames are open.
pub(crate) fn may_end(phase: Phase, grey: usize, opened: u32) -> Commit
    ensures { MayEnd phase grey opened result }
{
    match phase {
        Phase::Marking => {}
        _ => return Commit::NotMarking(phase),
    }
    if grey > 0 {
        return Commit::Unfinished { word: 0, bits: 1 };
    }
    if opened > 0 {
        return Commit::Frames(opened);
    }
    Commit::Done
}

/// Whether the answer is that a collection committed.
pub(crate) fn is_done(reply: Commit) -> bool
    ensures { result ≡ is_done reply }
{
    match reply {
        Commit::Done => true,
        _ => false,
    }
}

/// The name at an index at which there is one.
pub(crate) fn named(names: &[Option<Name>], index: usize) -> Name
    requires { IsSome (name_at names.now index) }
    ensures { name_at names.now index ≡ Some result }
{
    names[index].unwrap()
}

/// Why a slice stops that scanned so many objects and left nothing grey, or spent its budget.
pub(crate) fn stop_of(scanned: u32, budget: u32) -> MarkStop
    ensures { StopsBy scanned budget result }
{
    if scanned < budget {
        MarkStop::Idle
    } else {
        MarkStop::Spent
    }
}
