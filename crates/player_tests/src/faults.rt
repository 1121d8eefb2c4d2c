//! Sources and sinks that fail at one call, at each place.
use crate::words::split;
use level_script::{Cause, SchemaErr, ScriptErr};
use play_io::{MemSink, MemSource, NoPace};
use std::alloc::Global;
use std::thread::Threads;
use world_play::{Status, worldrun};

// The smallest script, of 60 bytes, and what is written for it, 65 bytes in 5 lines.
const SCRIPT: &str = "class A Object\n0 open\n0 new a A\n0 root a on\n0 close\ngc full\n";

const TEXT: &str = "0 open idle\n0 new 0:1\n0 was off\n0 close\ngc full removed 0 left 0\n";

/// A run over memory: how it ended, and what source and sink have seen of it.
#[derive(Drop)]
struct Ran {
    status: Status,
    lines: u64,
    source: MemSource,
    sink: MemSink,
}

/// What one side does: it moves so many bytes a call, and fails at the call of this number, or,
/// with 0, at none.
#[derive(Clone, Copy)]
struct Side {
    piece: u32,
    fails: u32,
}

const SURE: Side = Side {
    piece: 4096,
    fails: 0,
};

// A run of these words over this input.
fn run<R: Threads + Sync>(
    rt: &R,
    alloc: Global,
    words: &str,
    input: &[u8],
    source: Side,
    sink: Side,
) -> Option<Ran> {
    let words = split(alloc, words).ok()?;
    let mut bytes = Vec::new(alloc);
    bytes.extend_from_slice(input).ok()?;
    let mut takes = Vec::new(alloc);
    takes.push(source.fails).ok()?;
    let mut puts = Vec::new(alloc);
    puts.push(sink.fails).ok()?;
    let mut source = MemSource::new(bytes, source.piece.max(1), takes);
    let mut sink = MemSink::new(alloc, sink.piece.max(1), puts);
    let words = words.as_slice();
    let ended = worldrun(rt, alloc, words, &mut source, &mut sink, &NoPace);
    let status = ended.status;
    let lines = ended.lines;
    Some(Ran {
        status,
        lines,
        source,
        sink,
    })
}

// Whether a source that fails at this call, or at none, has this end after so many calls; nothing is
// written unless it is Ok.
fn takes<R: Threads + Sync>(
    rt: &R,
    alloc: Global,
    source: Side,
    status: Status,
    calls: u64,
) -> bool {
    let Some(ran) = run(rt, alloc, "play", SCRIPT.as_bytes(), source, SURE) else {
        return false;
    };
    let ok = status == Status::Ok;
    let text = if ok { TEXT } else { "" };
    ran.status == status
        && ran.sink.bytes() == text.as_bytes()
        && ran.source.calls() == calls
        && ran.source.faults() == if ok { 0 } else { 1 }
}

#[test]
fn a_source_that_fails_is_asked_no_more(rt: HostRuntime) {
    for (piece, calls) in [(1, 61u32), (2, 31), (3, 21), (7, 10), (4096, 2)] {
        for fails in 1..=calls {
            let source = Side { piece, fails };
            assert!(rt; takes(&rt, rt.alloc(), source, Status::ReadFault, u64::from(fails)));
        }
        let source = Side {
            piece,
            fails: calls.saturating_add(1),
        };
        assert!(rt; takes(&rt, rt.alloc(), source, Status::Ok, u64::from(calls)));
    }
}

// Whether a sink that fails at this call has this end after so many calls, and holds the first bytes
// of the text, so many with so many line feeds.
fn puts<R: Threads + Sync>(
    rt: &R,
    alloc: Global,
    sink: Side,
    status: Status,
    calls: u64,
    held: usize,
    lines: u64,
) -> bool {
    let Some(ran) = run(
        rt,
        alloc,
        "play --shape small",
        SCRIPT.as_bytes(),
        SURE,
        sink,
    ) else {
        return false;
    };
    ran.status == status
        && ran.lines == lines
        && TEXT.as_bytes().starts_with(ran.sink.bytes())
        && ran.sink.bytes().len() == held
        && ran.sink.calls() == calls
        && ran.sink.faults() == if status == Status::Ok { 0 } else { 1 }
}

#[test]
fn a_sink_that_fails_is_given_no_more(rt: HostRuntime) {
    let table = [
        (1000, 1, 0, 0),
        (1000, 2, 12, 1),
        (1000, 3, 22, 2),
        (1000, 4, 32, 3),
        (1000, 5, 40, 4),
        (3, 1, 0, 0),
        (3, 2, 3, 0),
        (3, 5, 12, 1),
        (3, 9, 22, 2),
        (3, 13, 32, 3),
        (3, 16, 40, 4),
        (3, 24, 64, 4),
        (1, 65, 64, 4),
    ];
    for (piece, fails, held, lines) in table {
        let sink = Side { piece, fails };
        assert!(rt;
            puts(
                &rt,
                rt.alloc(),
                sink,
                Status::WriteFault,
                u64::from(fails),
                held,
                lines
            )
        );
    }
    for (piece, calls) in [(1, 65u32), (2, 33), (3, 24), (7, 12), (1000, 5)] {
        let sink = Side {
            piece,
            fails: calls.saturating_add(1),
        };
        assert!(rt; puts(&rt, rt.alloc(), sink, Status::Ok, u64::from(calls), 65, 5));
    }
}

// How many bytes a sink holds whose call of this number fails, and with how many line feeds: each
// line is put by itself.
fn held_before(piece: u32, fails: u32) -> (usize, u64) {
    let mut held = 0u32;
    let mut feeds = 0u64;
    let mut left = fails.saturating_sub(1);
    for line in [12u32, 10, 10, 8, 25] {
        let puts = line.div_ceil(piece.max(1));
        if left < puts {
            return (
                held.saturating_add(left.saturating_mul(piece)) as usize,
                feeds,
            );
        }
        left -= puts;
        held = held.saturating_add(line);
        feeds = feeds.saturating_add(1);
    }
    (held as usize, feeds)
}

// Whether a sink that takes so many bytes a call, and so many calls for the whole text, ends so at each of them.
fn fails_at_each_call<R: Threads + Sync>(rt: &R, alloc: Global, piece: u32, calls: u32) -> bool {
    for fails in 1..=calls {
        let sink = Side { piece, fails };
        let (held, lines) = held_before(piece, fails);
        let calls = u64::from(fails);
        if !puts(rt, alloc, sink, Status::WriteFault, calls, held, lines) {
            return false;
        }
    }
    true
}

#[test]
fn a_sink_of_single_bytes_fails_at_each_place(rt: HostRuntime) {
    assert!(rt; fails_at_each_call(&rt, rt.alloc(), 1, 65));
}

#[test]
fn a_sink_of_pairs_fails_at_each_place(rt: HostRuntime) {
    assert!(rt; fails_at_each_call(&rt, rt.alloc(), 2, 33));
}

#[test]
fn a_sink_of_pieces_fails_at_each_place(rt: HostRuntime) {
    assert!(rt; fails_at_each_call(&rt, rt.alloc(), 3, 24));
    assert!(rt; fails_at_each_call(&rt, rt.alloc(), 7, 12));
}

#[test]
fn other_words_read_nothing(rt: HostRuntime) {
    let table = [
        "",
        "run",
        "play play",
        "play --markers 9",
        "play --shape small --markers 3",
        "play --slice 0",
        "play --slice 5 --slice 5",
        "play --slice -5",
        "play --engine words",
        "play -h",
        "play --help",
        "play --version",
        "--help",
        "-h",
        "gen 7 11",
        "gen 7 12",
    ];
    for words in table {
        let ran = run(&rt, rt.alloc(), words, SCRIPT.as_bytes(), SURE, SURE).expect(&rt, "memory");
        assert_eq!(rt; ran.status, Status::Usage);
        assert_eq!(rt; (ran.source.calls(), ran.sink.calls()), (0, 0));
    }
}

#[test]
fn each_option_in_both_spellings(rt: HostRuntime) {
    let table = [
        "play",
        "play --markers 8",
        "play --markers=1",
        "play --slice 1",
        "play --slice=1000000",
        "play --engine plain",
        "play --engine=plain",
        "play --shape level",
        "play --shape=level",
        "play --shape small",
        "play --shape=small",
        "play --shape small --slice=7 --engine plain --markers=2",
    ];
    for words in table {
        let ran = run(&rt, rt.alloc(), words, SCRIPT.as_bytes(), SURE, SURE).expect(&rt, "memory");
        assert_eq!(rt; ran.status, Status::Ok);
        assert_eq!(rt; ran.sink.bytes(), TEXT.as_bytes());
    }
}

// Whether the runs of the first bytes of the script, from so many to fewer than so many, end so.
fn first_bytes_end<R: Threads + Sync>(
    rt: &R,
    alloc: Global,
    first: usize,
    last: usize,
    status: Status,
) -> bool {
    for count in first..last {
        let Some(input) = SCRIPT.as_bytes().get(..count) else {
            return false;
        };
        let Some(ran) = run(rt, alloc, "play", input, SURE, SURE) else {
            return false;
        };
        if ran.status != status {
            return false;
        }
    }
    true
}

fn bad(line: u32, cause: Cause) -> Status {
    Status::Script(ScriptErr { line, cause })
}

#[test]
fn a_script_that_was_cut_short(rt: HostRuntime) {
    let parent = Cause::Schema(SchemaErr::NoParent);
    let table = [
        (0, 1, Status::Ok),
        (1, 5, bad(1, Cause::UnknownCommand)),
        (5, 9, bad(1, Cause::Words)),
        (9, 14, bad(1, parent)),
        (14, 16, Status::Ok),
        (16, 21, bad(2, Cause::UnknownCommand)),
        (21, 23, Status::Ok),
        (23, 27, bad(3, Cause::UnknownCommand)),
        (27, 31, bad(3, Cause::Words)),
        (31, 33, Status::Ok),
        (33, 38, bad(4, Cause::UnknownCommand)),
        (38, 43, bad(4, Cause::Words)),
        (43, 45, Status::Ok),
        (45, 51, bad(5, Cause::UnknownCommand)),
        (51, 53, Status::Ok),
        (53, 59, bad(6, Cause::UnknownCommand)),
        (59, 61, Status::Ok),
    ];
    for (first, last, status) in table {
        assert!(rt; first_bytes_end(&rt, rt.alloc(), first, last, status));
    }
}

#[test]
fn names_are_spent(rt: HostRuntime) {
    let mut script = String::from_str(rt.alloc(), "class A Object\n").expect(&rt, "memory");
    for _ in 0..8u32 {
        script
            .push_str(
                "0 open\n0 new a A\n0 new a A\n0 new a A\n0 new a A\n0 new a A\n0 new a A\n0 new a A\n0 new a A\n0 close\ngc full\n",
            )
            .expect(&rt, "memory");
    }
    script.push_str("0 open\n0 new a A\n").expect(&rt, "memory");
    let input = script.as_bytes();
    let words = "play --shape small";
    let ran = run(&rt, rt.alloc(), words, input, SURE, SURE).expect(&rt, "memory");
    let end =
        "0 new 0:64\n0 close\ngc full removed 8 left 0: 0:57 0:58 0:59 0:60 0:61 0:62 0:63 0:64\n0 open idle\n0 names spent 0\n";
    assert_eq!(rt; (ran.status, ran.lines), (Status::Ok, 90));
    assert!(rt; ran.sink.bytes().ends_with(end.as_bytes()));
}
