//! What is true of the machine: each law is the contract of an empty function.
ghost use Rattle.mark_core.specs.GoesOn.{NobodyIsStuck, MarkingsCanEnd, GatheringsCanEnd};
ghost use Rattle.mark_core.specs.Machine.{Sizes};
ghost use Rattle.mark_core.specs.Words.{BitsAreShown, BitsFollow};
ghost use Rattle.mark_core.specs.Laws.{StaysLawful, StepsStayLawful, EventsStayLawful, BareIsLawful, ScannedOnce, CommitsAreRight, ScanCloses, MakingIsLawful, ClearingIsLawful, LooseningIsLawful, FramesAreCounted};

/// After every list of allowed events from the start the machine is lawful.
pub fn stays_lawful()
    ensures { StaysLawful }
{}

/// So it is after one event of a lawful machine.
pub fn steps_stay_lawful()
    ensures { StepsStayLawful }
{}

/// And after every list of them.
pub fn events_stay_lawful()
    ensures { EventsStayLawful }
{}

/// A machine without units is lawful: a heap may begin so, and make its units one by one.
pub fn bare_is_lawful()
    ensures { BareIsLawful }
{}

/// No unit is scanned twice in one marking.
pub fn scanned_once()
    ensures { ScannedOnce }
{}

/// When a commit exchange of a lawful machine succeeds nothing is grey, and whatever a walk from a root bit or
/// strong pointer reaches is marked and in the world.
pub fn commits_are_right()
    ensures { CommitsAreRight }
{}

/// When a scan ends, all cells of its unit name marked units, or none.
pub fn scan_closes()
    ensures { ScanCloses }
{}

/// A machine in which an open lane made a unit is lawful. Nothing named its place before, its cells are empty,
/// and where they are fresh the cells of other units stay as they were.
pub fn making_is_lawful()
    ensures { MakingIsLawful }
{}

/// A machine in which cells of a doomed unit were emptied is lawful. That a unit is released is no event: its
/// place stays doomed, as a place without a unit is.
pub fn clearing_is_lawful()
    ensures { ClearingIsLawful }
{}

/// A machine in which a member of a unit became a unit by itself outside of a marking is lawful.
pub fn loosening_is_lawful()
    ensures { LooseningIsLawful }
{}

/// The number of frames goes up by one with each that opens and down by one with each that closes, is at
/// most that of the lanes and markers, and is 0 only where all are closed.
pub fn frames_are_counted()
    ensures { FramesAreCounted }
{}

/// Each event leaves the scans and the collector something to do, on a machine that has a root set; and so do
/// making, clearing and loosening.
pub fn nobody_is_stuck()
    ensures { (z : Sizes) → NobodyIsStuck z }
{}

/// A marking can end: from every lawful machine with a marker that marks, and where nobody is stuck, there are
/// allowed events that lead to a commit.
pub fn markings_can_end()
    ensures { MarkingsCanEnd }
{}

/// So can a collection: from every lawful machine that gathers there are events that doom what is not marked
/// and lead to phase Idle.
pub fn gatherings_can_end()
    ensures { GatheringsCanEnd }
{}

/// A word of a row or of the root set has the bit of each of its units at its place and no other, as many ones as
/// there are, and is zero exactly where none is set.
pub fn bits_are_shown()
    ensures { BitsAreShown }
{}

/// Where one bit is set or cleared, the word is what a single atomic step on that bit makes of it.
pub fn bits_follow()
    ensures { BitsFollow }
{}
