//! A writer of the system as a sink.
ghost use Rattle.std.specs.Prelude.{◌≡◌, ℕ, ◌≤◌, [], length, IfOk};
ghost use Rattle.std.specs.Io.KnownBytes.{WriteAppends, Keeps};
ghost use Rattle.std.specs.Io.Buffered.{writer_buffer, writer_contents};
ghost use Rattle.world_play.specs.declared.status.Status.TheVariants as status;
ghost use Rattle.worldrun.specs.Program.{Finishes};

use crate::steady::SteadyWrite;
use play_io::{PutErr, Sink};
use std::io;
use std::io::{BufWriter, ErrorKind, Write};
use world_play::Status;

/// Writes what it is given, and counts the writes that failed or took nothing. It tells the bytes
/// that the writer tells; standard output and standard error tell none.
#[derive(Drop)]
pub struct StdSink<W: SteadyWrite> {
    pub writer: W,
    pub faults: u64,
}

impl<W: SteadyWrite> StdSink<W> {
    /// A sink that has not failed yet.
    pub fn new(writer: W) -> StdSink<W>
        ensures writer { result.writer ≡ writer }
        ensures faults { result.faults ≡ 0 }
    {
        StdSink { writer, faults: 0 }
    }
}

impl<W: SteadyWrite + Drop> StdSink<BufWriter<W>> {
    /// Writes what the buffer has held back, at the end of a run, and tells how the run ended then:
    /// where that fails, a run that was well ends with a write fault. So it is well only where the
    /// writer beneath holds all. After a fault nothing is written.
    pub fn finish(&mut self, ended: Status) -> Status
        ensures ends { Finishes ended result self.old.faults self.new.faults }
        ensures kept { Keeps (writer_contents W.contents self.old.writer) (writer_contents W.contents self.new.writer) }
        ensures written { result ≡ status.Ok → writer_buffer self.new.writer ≡ [] }
    {
        match ended {
            Status::Ok => {}
            Status::Memory => {
                let _ = self.writer.flush();
                return ended;
            }
            _ => return ended,
        }
        if self.writer.flush().is_ok() {
            return Status::Ok;
        }
        self.faults = self.faults.saturating_add(1);
        Status::WriteFault
    }
}

// Writes once. A write that was interrupted took nothing, and is made again.
fn write_once<W: Write>(writer: &mut W, bytes: &[u8]) -> io::Result<usize>
    ensures bound { IfOk result (λ n. n ≤ length bytes.now) }
    ensures passes { WriteAppends (W.contents writer.old) (W.contents writer.new) result bytes.now }
{
    for _ in 0..u64::MAX {
        match writer.write(bytes) {
            Err(e) if e.kind() == ErrorKind::Interrupted => {}
            result => return result,
        }
    }
    Err(io::Error::from(ErrorKind::Interrupted))
}

impl<W: SteadyWrite> Sink for StdSink<W> {
    ghost held = { λ s. W.contents s.writer };

    ghost faults = { λ s. s.faults };

    fn put(&mut self, bytes: &[u8]) -> Result<usize, PutErr> {
        match write_once(&mut self.writer, bytes) {
            Ok(0) => {
                self.faults = self.faults.saturating_add(1);
                Ok(0)
            }
            Ok(count) => Ok(count),
            Err(_) => {
                self.faults = self.faults.saturating_add(1);
                Err(PutErr::Failed)
            }
        }
    }
}
