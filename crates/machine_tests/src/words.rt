//! Words that were worked out by hand.
use word_layout::{
    Gate, Head, Life, Part, Stock, bits_change, colour_changes, dirty_changes, frames_add,
    gates_differ, heads_differ, kinds_differ, pack_gate, pack_head, pack_kind, pack_ref,
    pack_stock, pack_weak, pairs_differ, phase_changes, places_differ, places_fill, places_fit,
    references_differ, rows_reach, stocks_differ, unpack_gate, unpack_head, unpack_kind,
    unpack_ref, unpack_stock, unpack_weak, word_count, word_of,
};
use world_model::{ClassId, Kind, Level, Name, Phase, Ready, Ref, Small, Weak};

#[test]
fn gates(rt: HostRuntime) {
    let g = Gate {
        phase: Phase::Marking,
        parity: true,
        dirty: false,
        frames: 3,
    };
    assert_eq!(rt; pack_gate(g), 773);
    assert_eq!(rt; unpack_gate(773), Some(g));
    let most = Gate {
        phase: Phase::Gathering,
        parity: true,
        dirty: true,
        frames: 255,
    };
    assert_eq!(rt; pack_gate(most), 65294);
    assert_eq!(rt; unpack_gate(65294), Some(most));
    // A phase that there is not, and bits without a name.
    for w in [3, 16, 65536, 65536 + 773, 9223372036854775808] {
        assert_eq!(rt; unpack_gate(w), None);
    }
}

#[test]
fn heads(rt: HostRuntime) {
    let h = Head {
        life: Life::Doomed,
        colour: true,
        polls: 5,
    };
    assert_eq!(rt; pack_head(h), 327690);
    assert_eq!(rt; unpack_head(327690), Some(h));
    let free = Head {
        life: Life::Free,
        colour: false,
        polls: 0,
    };
    assert_eq!(rt; pack_head(free), 0);
    assert_eq!(rt; unpack_head(0), Some(free));
    let most = Head {
        life: Life::Finished,
        colour: true,
        polls: 65535,
    };
    assert_eq!(rt; pack_head(most), 4294901772);
    assert_eq!(rt; unpack_head(4294901772), Some(most));
    for w in [5, 7, 16, 32768, 4294967296] {
        assert_eq!(rt; unpack_head(w), None);
    }
}

#[test]
fn references(rt: HostRuntime) {
    let r = Ref {
        index: 1,
        name: Name { lane: 0, count: 2 },
    };
    assert_eq!(rt; pack_ref(Some(r)), 33554433);
    assert_eq!(rt; unpack_ref(33554433), Some(Some(r)));
    let most = Ref {
        index: 1048575,
        name: Name {
            lane: 15,
            count: 68719476735,
        },
    };
    assert_eq!(rt; pack_ref(Some(most)), 1152921504606846975);
    assert_eq!(rt; unpack_ref(1152921504606846975), Some(Some(most)));
    assert_eq!(rt; pack_ref(None), 0);
    assert_eq!(rt; unpack_ref(0), Some(None));
    // No count, and one that is too large.
    for w in [
        1,
        1048576,
        16777215,
        1152921504606846976,
        18446744073709551615,
    ] {
        assert_eq!(rt; unpack_ref(w), None);
    }
}

#[test]
fn kinds(rt: HostRuntime) {
    let k = Kind {
        class: ClassId(7),
        refs: 2,
        plain: 3,
        ready: Ready::After(100),
    };
    assert_eq!(rt; pack_kind(k), 6712467463);
    assert_eq!(rt; unpack_kind(6712467463), Some(k));
    let never = Kind {
        class: ClassId(4095),
        refs: 0,
        plain: 0,
        ready: Ready::Never,
    };
    assert_eq!(rt; pack_kind(never), 8522829823);
    assert_eq!(rt; unpack_kind(8522829823), Some(never));
    // Readiness 101 and 126, and a bit without a name.
    for w in [6777995264, 8455716864, 8589934592] {
        assert_eq!(rt; unpack_kind(w), None);
    }
}

#[test]
fn stocks_and_pairs(rt: HostRuntime) {
    let one = Stock {
        first: Some(0),
        count: 1,
    };
    assert_eq!(rt; pack_stock(one), 4294967297);
    assert_eq!(rt; unpack_stock(4294967297), Some(one));
    let none = Stock {
        first: None,
        count: 0,
    };
    assert_eq!(rt; pack_stock(none), 0);
    assert_eq!(rt; unpack_stock(0), Some(none));
    let most = Stock {
        first: Some(1048575),
        count: 1048576,
    };
    assert_eq!(rt; pack_stock(most), 4503599628419072);
    assert_eq!(rt; unpack_stock(4503599628419072), Some(most));
    for w in [1048577, 4294967295, 4503603922337792] {
        assert_eq!(rt; unpack_stock(w), None);
    }
    let pair = Weak {
        index: 7,
        serial: 31,
    };
    assert_eq!(rt; pack_weak(pair), 133143986183);
    assert_eq!(rt; unpack_weak(133143986183), pair);
    let empty = Weak {
        index: 0,
        serial: 0,
    };
    assert_eq!(rt; unpack_weak(0), empty);
}

// A level has 4 lanes of 8,192 items, rows of 512 words, 64 strong pointers a lane and 9 rows. The last of each
// kind of part stands right before the first of the next kind.
#[test]
fn places(rt: HostRuntime) {
    assert_eq!(rt; word_of::<Level>(Part::Gate), 0);
    assert_eq!(rt; word_of::<Level>(Part::Cursor), 1);
    assert_eq!(rt; word_of::<Level>(Part::Removed), 2);
    assert_eq!(rt; word_of::<Level>(Part::Left), 3);
    assert_eq!(rt; word_of::<Level>(Part::Polling), 4);
    assert_eq!(rt; word_of::<Level>(Part::FreeStock(0)), 5);
    assert_eq!(rt; word_of::<Level>(Part::FreeStock(3)), 8);
    assert_eq!(rt; word_of::<Level>(Part::ReturnStock(3)), 12);
    assert_eq!(rt; word_of::<Level>(Part::NamesMade(3)), 16);
    assert_eq!(rt; word_of::<Level>(Part::SerialsMade(3)), 20);
    assert_eq!(rt; word_of::<Level>(Part::Strong(1, 2)), 87);
    assert_eq!(rt; word_of::<Level>(Part::Strong(3, 63)), 276);
    assert_eq!(rt; word_of::<Level>(Part::Root(0)), 277);
    assert_eq!(rt; word_of::<Level>(Part::Root(511)), 788);
    assert_eq!(rt; word_of::<Level>(Part::Row(0, 0)), 789);
    assert_eq!(rt; word_of::<Level>(Part::Row(8, 511)), 5396);
}

#[test]
fn places_of_items(rt: HostRuntime) {
    assert_eq!(rt; word_of::<Level>(Part::Head(0)), 5397);
    assert_eq!(rt; word_of::<Level>(Part::Head(32767)), 38164);
    assert_eq!(rt; word_of::<Level>(Part::Owner(32767)), 70932);
    assert_eq!(rt; word_of::<Level>(Part::Next(32767)), 103700);
    assert_eq!(rt; word_of::<Level>(Part::NameOf(32767)), 136468);
    assert_eq!(rt; word_of::<Level>(Part::KindOf(32767)), 169236);
    assert_eq!(rt; word_of::<Level>(Part::Serial(32767)), 202004);
    assert_eq!(rt; word_of::<Level>(Part::Cell(1, 11)), 202028);
    assert_eq!(rt; word_of::<Level>(Part::Cell(32767, 11)), 595220);
    assert_eq!(rt; word_count::<Level>(), 595221);
    // A small world has 2 lanes of 8 items.
    assert_eq!(rt; word_of::<Small>(Part::Gate), 0);
    assert_eq!(rt; word_of::<Small>(Part::ReturnStock(1)), 8);
}

// What single steps make of words: an addition, and bits that are set, cleared, flipped or replaced.
#[test]
fn steps(rt: HostRuntime) {
    let g = Gate {
        phase: Phase::Marking,
        parity: true,
        dirty: false,
        frames: 3,
    };
    assert_eq!(rt; unpack_gate(773 + 256), Some(Gate { frames: 4, ..g }));
    assert_eq!(rt; unpack_gate(773 | 8), Some(Gate { dirty: true, ..g }));
    assert_eq!(rt; unpack_gate(781 & !8), Some(g));
    assert_eq!(rt; unpack_gate(773 ^ 4), Some(Gate { parity: false, ..g }));
    assert_eq!(rt;
        unpack_gate((773 & !3) | 2),
        Some(Gate {
            phase: Phase::Gathering,
            ..g
        })
    );
    let h = Head {
        life: Life::Live,
        colour: false,
        polls: 2,
    };
    assert_eq!(rt; unpack_head(131073), Some(h));
    assert_eq!(rt; unpack_head(131073 | 8), Some(Head { colour: true, ..h }));
    assert_eq!(rt; unpack_head(131081 & !8), Some(h));
    // Bits 0, 5 and 63 of a word of a row, and how many ones it has.
    let row: u64 = 9223372036854775841;
    assert_eq!(rt; row.count_ones(), 3);
    assert_eq!(rt; (row | 2).count_ones(), 4);
    assert_eq!(rt; (row | 32).count_ones(), 3);
    assert_eq!(rt; (row & !32).count_ones(), 2);
    assert_eq!(rt; (row & !2).count_ones(), 3);
}

// The laws hold of every value: they can be called anywhere.
#[test]
fn laws() {
    gates_differ();
    heads_differ();
    pairs_differ();
    references_differ();
    kinds_differ();
    stocks_differ();
    places_fit();
    places_fill();
    rows_reach();
    places_differ();
    frames_add();
    phase_changes();
    dirty_changes();
    colour_changes();
    bits_change();
}
