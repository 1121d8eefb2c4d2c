//! What the clauses do not say: that the calls succeed, and how much those that never fail move at a
//! time. Of those that fail at the listed calls, worked runs.
use play_io::{
    Failed, MemSink, MemSource, NoPace, Pace, PutErr, Sink, Source, SureSink, SureSource, Turn,
};
use std::test::Fail;

#[test]
fn a_source_gives_pieces_and_then_the_end(rt: HostRuntime) {
    let bytes = vec![in rt.alloc(); 1, 2, 3, 4, 5].expect(&rt, "memory");
    let mut source = SureSource::new(bytes, 3);
    let mut buf = [9u8; 4];
    assert_eq!(rt; source.take(&mut buf), Ok(3));
    assert_eq!(rt; buf, [1, 2, 3, 9]);
    assert_eq!(rt; source.take(&mut buf), Ok(2));
    assert_eq!(rt; buf, [4, 5, 3, 9]);
    assert_eq!(rt; source.take(&mut buf), Ok(0));
}

#[test]
fn a_source_gives_no_more_than_the_buffer_has_room_for(rt: HostRuntime) {
    let bytes = vec![in rt.alloc(); 1, 2, 3].expect(&rt, "memory");
    let mut source = SureSource::new(bytes, 100);
    let mut buf = [0u8; 2];
    assert_eq!(rt; source.take(&mut buf), Ok(2));
    assert_eq!(rt; source.take(&mut buf), Ok(1));
    assert_eq!(rt; buf, [3, 2]);
}

#[test]
fn a_sink_keeps_pieces_in_order(rt: HostRuntime) {
    let mut sink = SureSink::new(rt.alloc(), 2);
    assert_eq!(rt; sink.put(b"abc"), Ok(2));
    assert_eq!(rt; sink.put(b"c"), Ok(1));
    assert_eq!(rt; sink.bytes(), b"abc".as_slice());
}

#[test]
fn no_pace_does_nothing(rt: HostRuntime) {
    let _ = &rt;
    NoPace.turn(0, Turn::Slice);
    NoPace.turn(1, Turn::Line);
}

// Whether a source of the bytes from 1 on answers so, each time with a buffer of four, and gives
// them in order.
fn gives<S: Source>(source: &mut S, answers: &[Result<usize, Failed>]) -> bool {
    let mut next = 1u8;
    for answer in answers {
        let mut buf = [0; 4];
        let got = source.take(&mut buf);
        if got != *answer {
            return false;
        }
        for byte in &buf[..got.unwrap_or(0)] {
            if *byte != next {
                return false;
            }
            next = next.wrapping_add(1);
        }
    }
    true
}

#[test]
fn a_source_fails_at_the_listed_calls(rt: HostRuntime) -> Result<(), Fail> {
    for (piece, fails, answers, faults) in [
        (3, [].as_slice(), [Ok(3), Ok(2), Ok(0), Ok(0)], 0),
        (3, [2].as_slice(), [Ok(3), Err(Failed), Ok(2), Ok(0)], 1),
        (
            100,
            [4, 1, 4].as_slice(),
            [Err(Failed), Ok(4), Ok(1), Err(Failed)],
            2,
        ),
        (
            1,
            [0, 3, 2, 5].as_slice(),
            [Ok(1), Err(Failed), Err(Failed), Ok(1)],
            2,
        ),
    ] {
        let bytes = [1, 2, 3, 4, 5].to_vec(rt.alloc())?;
        let mut source = MemSource::new(bytes, piece, fails.to_vec(rt.alloc())?);
        assert!(rt; gives(&mut source, &answers), "piece {piece}");
        assert_eq!(rt; source.calls(), 4);
        assert_eq!(rt; source.faults(), faults);
    }
    let mut sure = SureSource::new([1, 2, 3, 4, 5].to_vec(rt.alloc())?, 3);
    assert!(rt; gives(&mut sure, &[Ok(3), Ok(2), Ok(0), Ok(0)]));
    Ok(())
}

// Whether a sink answers so, each time given what it did not take yet of five bytes.
fn takes<S: Sink>(sink: &mut S, answers: &[Result<usize, PutErr>]) -> bool {
    let mut rest = b"abcde".as_slice();
    for answer in answers {
        if rest.is_empty() {
            return false;
        }
        let got = sink.put(rest);
        if got != *answer {
            return false;
        }
        rest = &rest[got.unwrap_or(0)..];
    }
    true
}

#[test]
fn a_sink_fails_at_the_listed_calls(rt: HostRuntime) -> Result<(), Fail> {
    for (piece, fails, answers, faults, text) in [
        (
            3,
            [].as_slice(),
            [Ok(3), Ok(2)].as_slice(),
            0,
            b"abcde".as_slice(),
        ),
        (
            3,
            [2].as_slice(),
            [Ok(3), Err(PutErr::Failed), Ok(2)].as_slice(),
            1,
            b"abcde".as_slice(),
        ),
        (
            2,
            [3, 1, 3].as_slice(),
            [Err(PutErr::Failed), Ok(2), Err(PutErr::Failed), Ok(2)].as_slice(),
            2,
            b"abcd".as_slice(),
        ),
        (
            100,
            [0, 2].as_slice(),
            [Ok(5)].as_slice(),
            0,
            b"abcde".as_slice(),
        ),
    ] {
        let mut sink = MemSink::new(rt.alloc(), piece, fails.to_vec(rt.alloc())?);
        assert!(rt; takes(&mut sink, answers), "piece {piece}");
        assert_eq!(rt; sink.bytes(), text);
        assert_eq!(rt; sink.calls(), answers.len() as u64);
        assert_eq!(rt; sink.faults(), faults);
    }
    let mut sure = SureSink::new(rt.alloc(), 3);
    assert!(rt; takes(&mut sure, &[Ok(3), Ok(2)]));
    assert_eq!(rt; sure.bytes(), b"abcde".as_slice());
    Ok(())
}
