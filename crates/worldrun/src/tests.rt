//! What the clauses do not say: that calls succeed, that an interrupted call is made again, that all of a
//! text is told, and that no turn is.
ghost use Rattle.std.specs.Prelude.{refl};

use crate::program::end;
use crate::std_sink::StdSink;
use crate::std_source::StdSource;
use crate::steady::{SteadyRead, SteadyWrite};
use play_io::{Failed, Pace, PutErr, Sink, Source, Turn};
use std::alloc::{AllocError, Global};
use std::io;
use std::io::{BufWriter, ErrorKind, Read, Write};
use std::sync::atomic::{AtomicU32, Ordering};
use world_play::{Status, worldrun};

// Fails each time.
#[derive(Drop)]
struct Broken;

impl Read for Broken {
    fn read(&mut self, buf: &mut [u8]) -> io::Result<usize> {
        let _ = buf;
        Err(io::Error::from(ErrorKind::Other))
    }
}

impl Write for Broken {
    fn write(&mut self, buf: &[u8]) -> io::Result<usize> {
        let _ = buf;
        Err(io::Error::from(ErrorKind::Other))
    }

    fn flush(&mut self) -> io::Result<()> {
        Ok(())
    }
}

// Is interrupted the first time, and then moves one byte.
#[derive(Drop)]
struct Interrupted {
    done: bool,
}

impl SteadyRead for Broken {
    ghost steady = { λ r s none. refl };
}

impl SteadyWrite for Broken {
    ghost steady = { λ r s none. refl };
}

impl Interrupted {
    fn call(&mut self) -> io::Result<usize> {
        if self.done {
            return Ok(1);
        }
        self.done = true;
        Err(io::Error::from(ErrorKind::Interrupted))
    }
}

impl Read for Interrupted {
    fn read(&mut self, buf: &mut [u8]) -> io::Result<usize> {
        Ok(self.call()?.min(buf.len()))
    }
}

impl Write for Interrupted {
    fn write(&mut self, buf: &[u8]) -> io::Result<usize> {
        Ok(self.call()?.min(buf.len()))
    }

    fn flush(&mut self) -> io::Result<()> {
        Ok(())
    }
}

impl SteadyRead for Interrupted {
    ghost steady = { λ r s none. refl };
}

impl SteadyWrite for Interrupted {
    ghost steady = { λ r s none. refl };
}

#[test]
fn a_source_gives_what_is_read(rt: HostRuntime) {
    let mut source = StdSource::new(b"abc".as_slice());
    let mut buf = [9u8; 2];
    assert_eq!(rt; source.take(&mut buf), Ok(2));
    assert_eq!(rt; buf, [97, 98]);
    assert_eq!(rt; source.take(&mut buf), Ok(1));
    assert_eq!(rt; buf, [99, 98]);
    assert_eq!(rt; source.take(&mut buf), Ok(0));
}

#[test]
fn a_sink_writes_what_it_is_given(rt: HostRuntime) {
    let mut bytes = Vec::new(rt.alloc());
    let mut sink = StdSink::new(&mut bytes);
    assert_eq!(rt; sink.put(b"ab"), Ok(2));
    assert_eq!(rt; sink.put(b"c"), Ok(1));
    assert_eq!(rt; bytes.as_slice(), b"abc".as_slice());
}

#[test]
fn a_buffer_is_written_at_the_end(rt: HostRuntime) {
    let mut bytes = Vec::new(rt.alloc());
    let out = BufWriter::new(rt.alloc(), &mut bytes).expect(&rt, "memory");
    let mut sink = StdSink::new(out);
    assert_eq!(rt; sink.put(b"ab"), Ok(2));
    assert_eq!(rt; sink.put(b"c"), Ok(1));
    assert_eq!(rt; sink.finish(Status::Ok), Status::Ok);
    drop(sink);
    assert_eq!(rt; bytes.as_slice(), b"abc".as_slice());
}

#[test]
fn a_last_write_that_fails_is_told(rt: HostRuntime) {
    let out = BufWriter::new(rt.alloc(), Broken).expect(&rt, "memory");
    let mut sink = StdSink::new(out);
    assert_eq!(rt; sink.put(b"a"), Ok(1));
    assert_eq!(rt; sink.finish(Status::ReadFault), Status::ReadFault);
    assert_eq!(rt; sink.finish(Status::Memory), Status::Memory);
    assert_eq!(rt; sink.finish(Status::Ok), Status::WriteFault);
}

#[test]
fn a_failure_is_told(rt: HostRuntime) {
    let mut source = StdSource::new(Broken);
    let mut buf = [9u8; 2];
    assert_eq!(rt; source.take(&mut buf), Err(Failed));
    let mut sink = StdSink::new(Broken);
    assert_eq!(rt; sink.put(b"a"), Err(PutErr::Failed));
}

#[test]
fn an_interrupted_call_is_made_again(rt: HostRuntime) {
    let mut source = StdSource::new(Interrupted { done: false });
    let mut buf = [9u8; 2];
    assert_eq!(rt; source.take(&mut buf), Ok(1));
    let mut sink = StdSink::new(Interrupted { done: false });
    assert_eq!(rt; sink.put(b"a"), Ok(1));
}

#[test]
fn each_status_has_its_text_and_number(rt: HostRuntime) {
    let table = [
        (Status::Ok, "", 0),
        (Status::Usage, "worldrun: usage: play or gen\n", 2),
        (Status::ReadFault, "worldrun: read fault\n", 4),
        (Status::WriteFault, "worldrun: write fault\n", 5),
        (Status::Memory, "worldrun: memory\n", 6),
    ];
    for (status, text, code) in table {
        let mut bytes = Vec::new(rt.alloc());
        let mut err = StdSink::new(&mut bytes);
        let exit = end(rt.alloc(), &status, &mut err);
        assert_eq!(rt; exit.told, Ok(()));
        assert_eq!(rt; exit.code, code);
        assert_eq!(rt; bytes.as_slice(), text.as_bytes());
    }
    let mut err = StdSink::new(Broken);
    let exit = end(rt.alloc(), &Status::Usage, &mut err);
    assert_eq!(rt; (exit.told, exit.code), (Err(PutErr::Failed), 2));
}

// The words of a line.
fn split(alloc: Global, line: &str) -> Result<Vec<String>, AllocError> {
    let mut words = Vec::new(alloc);
    for word in line.split_whitespace() {
        words.push(String::from_str(alloc, word)?)?;
    }
    Ok(words)
}

const SCRIPT: &str = "class A Object\n0 open\n0 new a A\n0 root a on\n0 close\ngc full\n";

const TEXT: &str = "0 open idle\n0 new 0:1\n0 was off\n0 close\ngc full removed 0 left 0\n";

// Counts the turns that it is told.
#[derive(Drop)]
struct Counted {
    turns: AtomicU32,
}

impl Pace for Counted {
    fn turn(&self, worker: u32, at: Turn) {
        let _ = worker;
        let _ = at;
        let _ = self.turns.fetch_add(1, Ordering::SeqCst);
    }
}

#[test]
fn no_turn_is_told(rt: HostRuntime) {
    let words = split(rt.alloc(), "play --markers 8").expect(&rt, "memory");
    let pace = Counted {
        turns: AtomicU32::new(0),
    };
    let mut script = StdSource::new(SCRIPT.as_bytes());
    let mut written = Vec::new(rt.alloc());
    let mut out = StdSink::new(&mut written);
    let ended = worldrun(
        &rt,
        rt.alloc(),
        words.as_slice(),
        &mut script,
        &mut out,
        &pace,
    );
    assert_eq!(rt; ended.status, Status::Ok);
    assert_eq!(rt; written.as_slice(), TEXT.as_bytes());
    assert_eq!(rt; pace.turns.load(Ordering::SeqCst), 0);
    pace.turn(1, Turn::Slice);
    assert_eq!(rt; pace.turns.load(Ordering::SeqCst), 1);
}
