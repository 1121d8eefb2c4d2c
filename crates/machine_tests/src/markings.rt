//! Worked runs, and the words that events find.
use crate::scripts::{allowed, finds, found};
use mark_core::{
    Core, Event, bare_is_lawful, bits_are_shown, bits_follow, clearing_is_lawful,
    commits_are_right, events_stay_lawful, frames_are_counted, gatherings_can_end,
    loosening_is_lawful, making_is_lawful, markings_can_end, nobody_is_stuck, scan_closes,
    scanned_once, stays_lawful, steps_stay_lawful,
};
use world_model::Phase;

// A machine of one lane (0), one marker (1), the collector (2) and two units of one cell each. Cell 2 is the strong
// pointer, row 1 is that of the lanes and the collector.
//
// Unit 0 is named by the strong pointer, and names unit 1. A marking begins, and unit 0 is grey in the lanes' row.
const ROOTS_SHADED: &str =
    "0 open, 0 head 0, 0 head 1, 0 swap 2 0, 0 swap 0 1, 0 close, 2 begin, 2 root 0, 2 root 1, 2 load 2, 2 shade 0, 2 add 1 0";

// The marker scans both units, and the collection ends.
const SCANNED: &str =
    "1 open, 1 take 1 0, 1 head 0, 1 load 0, 1 shade 1, 1 head 1, 1 load 1, 1 close, 2 clean, 2 look 0 0, 2 look 1 0";

#[test]
fn two_units_are_marked_and_the_collection_ends(rt: HostRuntime) {
    let mut core = Core::new(rt.alloc(), 1, 1, 2, 1).expect(&rt, "memory");
    assert_eq!(rt; allowed(rt.alloc(), &mut core, ROOTS_SHADED), Some(12));
    assert_eq!(rt; core.phase(), Phase::Marking);
    assert_eq!(rt; allowed(rt.alloc(), &mut core, SCANNED), Some(11));
    // Phase Marking and the parity: 1 + 4. Then phase Gathering: 2 + 4.
    assert!(rt; finds(&mut core, &[("2 commit", 5), ("2 settle", 6)]));
    assert_eq!(rt; core.phase(), Phase::Idle);
    assert!(rt; !core.is_doomed(0) && !core.is_doomed(1));
}

#[test]
fn a_white_unit_is_not_stored(rt: HostRuntime) {
    let mut core = Core::new(rt.alloc(), 1, 1, 2, 1).expect(&rt, "memory");
    assert_eq!(rt; allowed(rt.alloc(), &mut core, ROOTS_SHADED), Some(12));
    let stores = "0 open, 0 head 0, 0 head 1, 0 swap 0 1, 0 close";
    assert_eq!(rt; allowed(rt.alloc(), &mut core, stores), Some(3));
    // Those before it were done: the lane holds both units, and may shade unit 1, which is white: live, not of the
    // colour that is the parity.
    assert_eq!(rt; found(&mut core, "0 shade 1"), Some(1));
}

const WORDS: [(&str, u64); 17] = [
    // Idle, parity false, clean, no frame; then one frame.
    ("0 open", 0),
    ("1 open", 256),
    // Live, the colour equal to the parity.
    ("0 head 0", 1),
    ("0 head 1", 1),
    // A cell that names nothing, and then unit 1.
    ("0 swap 0 1", 0),
    ("0 load 0", 2),
    // Root bits of units 0 and 1.
    ("0 set 1", 0),
    ("0 set 0", 2),
    ("0 unset 1", 3),
    ("1 close", 512),
    ("0 close", 256),
    ("2 begin", 0),
    ("2 root 0", 1),
    // White: the colour is not the parity, which is true now. Then marked.
    ("2 shade 0", 1),
    ("2 head 0", 9),
    // The lanes' row without and with the bit of unit 0.
    ("2 add 1 0", 0),
    ("2 look 1 0", 1),
];

#[test]
fn events_find_their_words(rt: HostRuntime) {
    let mut core = Core::new(rt.alloc(), 1, 1, 2, 1).expect(&rt, "memory");
    assert!(rt; finds(&mut core, &WORDS));
    assert_eq!(rt; core.target(0), Some(1));
    assert!(rt; core.is_marked(0) && !core.is_marked(1));
}

// Unit 65 is rooted and names unit 64, cell 66 is the strong pointer: bits 0 and 1 of the second words.
const SECOND_WORD: [(&str, u64); 12] = [
    ("2 load 66", 0),
    ("2 shade 65", 1),
    ("2 add 1 65", 0),
    ("1 open", 5),
    ("1 take 1 1", 2),
    ("1 head 65", 9),
    // What the cell names: 1 and the unit.
    ("1 load 65", 65),
    ("1 shade 64", 1),
    ("1 add 0 64", 0),
    // The word was taken, and is zero now; the other row has the bit of unit 64.
    ("1 take 1 1", 0),
    ("2 look 0 1", 1),
    ("1 take 0 1", 1),
];

#[test]
fn the_second_word_of_a_row_is_taken_twice(rt: HostRuntime) {
    let mut core = Core::new(rt.alloc(), 1, 1, 66, 1).expect(&rt, "memory");
    let begins = "0 open, 0 head 64, 0 head 65, 0 set 65, 0 swap 65 64, 0 close, 2 begin";
    assert_eq!(rt; allowed(rt.alloc(), &mut core, begins), Some(7));
    for unit in 0..66u32 {
        let event = Event::RootBit { unit, on: None };
        assert!(rt; core.allows(2, event));
        // The words of the root set: bit 1 of the second one is set.
        assert_eq!(rt; core.step(2, event), if unit < 64 { 0 } else { 2 });
    }
    assert!(rt; finds(&mut core, &SECOND_WORD));
}

#[test]
fn a_thousand_units(rt: HostRuntime) {
    let mut core = Core::new(rt.alloc(), 8, 16, 1001, 3).expect(&rt, "memory");
    // Unit 1,000 has bit 40 of word 15, and cells 3,000 to 3,002; behind them are the strong pointers.
    let steps = [
        ("7 open", 0),
        ("7 head 1000", 1),
        ("7 set 1000", 0),
        ("7 unset 1000", 1099511627776),
        ("7 swap 3002 1000", 0),
        ("7 load 3002", 1001),
        ("7 swap 3010 1000", 0),
        ("7 load 3010", 1001),
    ];
    assert!(rt; finds(&mut core, &steps));
    assert_eq!(rt; core.target(3010), Some(1000));
    assert_eq!(rt; found(&mut core, "7 head 1001"), None);
}

// The laws hold of every machine: they can be called anywhere.
#[test]
fn laws() {
    stays_lawful();
    steps_stay_lawful();
    events_stay_lawful();
    bare_is_lawful();
    scanned_once();
    commits_are_right();
    scan_closes();
    making_is_lawful();
    clearing_is_lawful();
    loosening_is_lawful();
    frames_are_counted();
    nobody_is_stuck();
    markings_can_end();
    gatherings_can_end();
    bits_are_shown();
    bits_follow();
}
