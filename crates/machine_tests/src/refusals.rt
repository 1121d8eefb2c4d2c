//! Each event with each of its conditions broken: of each list the last event alone is not allowed.
use crate::scripts::{allowed, events};
use mark_core::Core;
use std::alloc::Global;

// A machine of two lanes (0, 1), two markers (2, 3), the collector (4) and three units of one cell each. Cells 3 and 4
// are the strong pointers, row 2 is that of the lanes and the collector.
//
// After these events unit 0 is rooted and names unit 1, unit 2 is named by nothing, and a marking has begun. All
// units are white.
const BEGUN: &str = "0 open, 0 head 0, 0 head 1, 0 set 0, 0 swap 0 1, 0 close, 4 begin";

// The collector goes over the root set, and unit 0 is grey in the lanes' row.
const ROOTS: &str = "4 root 0, 4 root 1, 4 root 2, 4 load 3, 4 load 4, 4 shade 0, 4 add 2 0";

// A marker scans both reached units.
const SCANNED: &str =
    "2 open, 2 take 2 0, 2 head 0, 2 load 0, 2 shade 1, 2 head 1, 2 load 1, 2 close";

const LOOKED: &str = "4 clean, 4 look 0 0, 4 look 1 0, 4 look 2 0";

fn runs(alloc: Global, core: &mut Core, text: &str) -> bool {
    match events(alloc, text) {
        Some(events) => allowed(alloc, core, text) == Some(events.len()),
        None => false,
    }
}

// Whether of these events the last one alone is not allowed.
fn refuses_last(alloc: Global, core: &mut Core, text: &str) -> bool {
    match (events(alloc, text), allowed(alloc, core, text)) {
        (Some(events), Some(k)) => k < events.len() && k == events.len() - 1,
        _ => false,
    }
}

// Whether so many of the lists above were done.
fn run_lists(alloc: Global, core: &mut Core, lists: u32) -> bool {
    (lists < 1 || runs(alloc, core, BEGUN))
        && (lists < 2 || runs(alloc, core, ROOTS))
        && (lists < 3 || runs(alloc, core, SCANNED))
        && (lists < 4 || runs(alloc, core, LOOKED))
}

// Whether the last of these events is not allowed after so many of the lists above, and those before it are.
fn is_refused(alloc: Global, lists: u32, text: &str) -> bool {
    match Core::new(alloc, 2, 2, 3, 1) {
        Ok(mut core) => {
            run_lists(alloc, &mut core, lists) && refuses_last(alloc, &mut core, text)
        }
        Err(_) => false,
    }
}

// Whether the last event of a row is refused. A row is a number of lists above, `: ` and events.
fn is_row(alloc: Global, row: &str) -> bool {
    match row.split_once(": ") {
        Some((lists, text)) => match lists.parse::<u32>() {
            Ok(lists) => is_refused(alloc, lists, text),
            Err(_) => false,
        },
        None => false,
    }
}

// The first row that is not refused. A row that begins with `#` is a comment.
fn other<'a>(alloc: Global, rows: &'a str) -> Option<&'a str> {
    for row in rows.split('\n') {
        if !row.starts_with('#') && !is_row(alloc, row) {
            return Some(row);
        }
    }
    None
}

const FRAMES: &str = "\
# Open already; no lane or marker; no actor.
0: 0 open, 0 open
0: 3 open, 3 open
0: 4 open
0: 5 open
# Closed already.
0: 0 close
0: 2 close
0: 4 close
# A lane with a unit in hand, and one that owes.
1: 0 open, 0 head 0, 0 shade 0, 0 close
1: 0 open, 0 head 0, 0 shade 0, 0 add 2 0, 0 close
# A marker with a stack, with a scan, with a found, and one that owes.
2: 2 open, 2 take 2 0, 2 close
2: 2 open, 2 take 2 0, 2 head 0, 2 close
2: 2 open, 2 take 2 0, 2 head 0, 2 load 0, 2 close
2: 2 open, 2 take 2 0, 2 add 0 0, 2 close
# A lane that closed holds nothing.
0: 0 open, 0 head 0, 0 close, 0 open, 0 load 0";

const BEGINS_AND_COMMITS: &str = "\
# No collector; another phase; a job.
0: 0 begin
0: 2 begin
2: 4 begin
1: 4 begin
# No collector; phase Idle; Roots.
2: 0 clean
0: 4 clean
1: 4 clean
# No job; before the end of the rows; a word with a bit ends the look.
3: 4 commit
3: 4 clean, 4 look 0 0, 4 look 1 0, 4 commit
2: 4 clean, 4 look 0 0, 4 look 1 0, 4 look 2 0, 4 commit
4: 0 commit
# A commit that found a frame ends the job. So does one that found the gate dirty.
4: 0 open, 4 commit, 0 close, 4 commit
4: 0 open, 0 head 2, 0 shade 2, 0 add 2 2, 0 dirty, 0 close, 4 commit, 4 doom 2
# A row or a word that there is not.
0: 4 look 3 0
0: 0 look 0 1";

const SHADES: &str = "\
# Phase Idle; a closed lane; a unit not held; a full hand; owing.
0: 0 open, 0 head 0, 0 shade 0
1: 0 shade 0
1: 0 open, 0 head 0, 0 shade 1
1: 0 open, 0 head 0, 0 head 1, 0 shade 0, 0 shade 1
1: 0 open, 0 head 0, 0 head 1, 0 shade 0, 0 add 2 0, 0 shade 1
# A marker without a found, and with another.
2: 2 open, 2 shade 0
2: 2 open, 2 take 2 0, 2 head 0, 2 load 0, 2 shade 2
# The collector: not in Roots; not found; with a full hand.
2: 4 shade 0
1: 4 shade 0
0: 0 open, 0 head 0, 0 head 1, 0 set 0, 0 set 1, 0 close, 4 begin, 4 root 0, 4 root 1, 4 shade 0, 4 shade 1";

const STORES: &str = "\
# A closed lane; a cell of a unit not held; another lane's pointer; a cell that there is not.
0: 0 swap 3
0: 0 open, 0 head 0, 0 swap 1
0: 0 open, 0 swap 4
0: 1 open, 1 swap 5
# A target not held; a white one in a marking.
0: 0 open, 0 head 0, 0 swap 0 1
1: 0 open, 0 head 0, 0 head 1, 0 swap 0 1
# With a full hand; owing; no lane.
1: 0 open, 0 head 0, 0 shade 0, 0 swap 0
1: 0 open, 0 head 0, 0 shade 0, 0 add 2 0, 0 swap 0
2: 2 open, 2 swap 3
0: 4 swap 3";

const LOADS: &str = "\
# By a lane: closed; of a unit not held; another's pointer; with a full hand; owing.
0: 0 load 3
0: 0 open, 0 load 0
0: 0 open, 0 load 4
1: 0 open, 0 head 0, 0 shade 0, 0 load 0
1: 0 open, 0 head 0, 0 shade 0, 0 add 2 0, 0 load 0
# By a marker: without a scan; at another cell; with a found; a strong pointer.
2: 2 open, 2 load 0
2: 2 open, 2 take 2 0, 2 head 0, 2 load 1
2: 2 open, 2 take 2 0, 2 head 0, 2 load 0, 2 load 0
2: 2 open, 2 load 3
# By the collector: before the root bits; another pointer; a cell of a unit.
1: 4 load 3
1: 4 root 0, 4 root 1, 4 root 2, 4 load 4
1: 4 load 0
# A unit that there is not.
0: 0 head 3
0: 2 head 3
0: 4 head 3";

const ROWS: &str = "\
# A lane with an empty hand; another unit; another row; another lane.
1: 0 open, 0 add 2 0
1: 0 open, 0 head 0, 0 shade 0, 0 add 2 1
1: 0 open, 0 head 0, 0 shade 0, 0 add 0 0
1: 0 open, 0 head 0, 0 shade 0, 1 add 2 0
# A marker: not on its stack; another row; another marker.
2: 2 open, 2 add 0 0
2: 2 open, 2 take 2 0, 2 add 1 0
2: 2 open, 2 take 2 0, 3 add 1 0
# The collector: not in its hand; another row.
2: 4 add 2 0
1: 4 root 0, 4 shade 0, 4 add 0 0
# Taking: a closed marker; with a stack; with a scan; no row; no word; no marker.
2: 2 take 2 0
2: 2 open, 2 take 2 0, 2 take 0 0
2: 2 open, 2 take 2 0, 2 head 0, 2 take 0 0
2: 2 open, 2 take 3 0
2: 2 open, 2 take 2 1
2: 0 open, 0 take 2 0
2: 4 take 2 0
# Nobody owes.
1: 0 open, 0 dirty
1: 2 open, 2 dirty
1: 4 dirty
# Who set the bit owes nothing.
1: 0 open, 0 head 0, 0 shade 0, 0 add 2 0, 0 dirty, 0 dirty";

const ROOT_BITS: &str = "\
# Set: a closed lane; a unit not held; a white one; no lane; with a full hand.
0: 0 set 0
0: 0 open, 0 set 0
1: 0 open, 0 head 1, 0 set 1
1: 4 set 0
1: 0 open, 0 head 0, 0 shade 0, 0 set 0
# Clear: a closed lane; a unit not held; with a full hand.
0: 0 unset 0
0: 0 open, 0 unset 0
1: 0 open, 0 head 0, 0 shade 0, 0 unset 0
# Load: a lane; a marker; no job; another unit's; a skipped one; one that there is not.
1: 0 open, 0 head 0, 0 root 0
1: 2 open, 2 root 0
0: 4 root 0
1: 4 root 1
1: 4 root 0, 4 root 0
1: 4 root 0, 4 root 1, 4 root 2, 4 root 3";

const ENDS: &str = "\
# Doom: phase Marking; a marked unit; a doomed one; none; no collector.
1: 4 doom 2
4: 4 commit, 4 doom 0
4: 4 commit, 4 doom 2, 4 doom 2
4: 4 commit, 4 doom 3
4: 4 commit, 0 doom 2
# Settle: another phase; a white unit is left; no collector; and it ends once.
0: 4 settle
4: 4 commit, 4 settle
4: 4 commit, 4 doom 2, 2 settle
4: 4 commit, 4 doom 2, 4 settle, 4 settle
# A doomed unit is given to nobody.
4: 4 commit, 4 doom 2, 4 settle, 0 open, 0 head 2, 0 load 2";

#[test]
fn events_with_a_broken_condition_are_refused(rt: HostRuntime) {
    let alloc = rt.alloc();
    assert_eq!(rt; other(alloc, FRAMES), None);
    assert_eq!(rt; other(alloc, BEGINS_AND_COMMITS), None);
    assert_eq!(rt; other(alloc, SHADES), None);
    assert_eq!(rt; other(alloc, STORES), None);
    assert_eq!(rt; other(alloc, LOADS), None);
    assert_eq!(rt; other(alloc, ROWS), None);
    assert_eq!(rt; other(alloc, ROOT_BITS), None);
    assert_eq!(rt; other(alloc, ENDS), None);
}
