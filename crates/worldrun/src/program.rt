//! The program over any source, any writer behind a buffer, and any sink for what is told of a fault.
ghost use Rattle.std.specs.Prelude.{◌≡◌, ◌↔◌, ℕ, [], None, Some, IfSome};
ghost use Rattle.std.specs.Io.Buffered.{writer_buffer, writer_contents, writer_inner};
ghost use Rattle.std.specs.Io.KnownBytes.{Keeps};
ghost use Rattle.world_play.specs.Streams.{Gained, GainedStart, PutCounts};
ghost use Rattle.world_play.specs.Ends.{said, shape_said, HasShape, HasRun, OnDone, OnStopped, OnNone, NamesFault, SaysTaken, SaysRead, SaysWrite, EndsWell, RunKeepsPromise, WritesOutcome, CountsLines, Completes};
ghost use Rattle.world_play.specs.Faults.{fault_text, exit_of};
ghost use Rattle.world_play.specs.declared.status.Status.TheVariants as status;
ghost use Rattle.worldrun.specs.Program.{Tells, Breaks};
ghost use Rattle.std.specs.Prelude.{OnOk, OnErr};

use crate::std_sink::StdSink;
use crate::steady::SteadyWrite;
use play_io::{NoPace, PutErr, Sink, Source};
use std::alloc::Global;
use std::io::BufWriter;
use std::thread::Threads;
use world_play::{Run, Status, exit_code, fault_text, worldrun};

/// The end of the process.
#[derive(Drop)]
pub struct Exit {
    /// Its exit status.
    pub code: u8,
    /// Whether the text of the status was told, and why not all of it.
    pub told: Result<(), PutErr>,
}

/// What a run of the program leaves.
#[derive(Drop)]
pub struct Finished {
    pub status: Status,
    /// How many line feeds the sink took.
    pub lines: u64,
    /// The engine that played, if there was one.
    pub run: Option<Run>,
    pub exit: Exit,
}

// Puts all of the bytes; what a put leaves over is put again.
fn put_text<K: Sink>(out: &mut K, bytes: &[u8]) -> Result<(), PutErr>
    ensures faults { PutCounts (K.faults out.old) (K.faults out.new) result }
    ensures all { OnOk result (Gained (K.held out.old) (K.held out.new) bytes.now) }
    ensures start { OnErr result (GainedStart (K.held out.old) (K.held out.new) bytes.now) }
{
    let mut at = 0;
    while at < bytes.len() {
        let count = out.put(&bytes[at..])?;
        if count == 0 {
            return Err(PutErr::Failed);
        }
        at += count;
    }
    Ok(())
}

// Tells what the status has to say. Where there is no memory for the text nothing is told.
fn tell<K: Sink>(alloc: Global, status: &Status, err: &mut K) -> Result<(), PutErr>
    ensures { Tells (K.held err.old) (K.held err.new) (K.faults err.old) (K.faults err.new) (fault_text status.now) result }
{
    match fault_text(alloc, status) {
        Ok(text) => put_text(err, text.as_slice()),
        Err(_) => Err(PutErr::Memory),
    }
}

/// Ends a run with this status: tells its text, and says the exit status.
pub fn end<K: Sink>(alloc: Global, status: &Status, err: &mut K) -> Exit
    ensures code { result.code ≡ exit_of status.now }
    ensures told { Tells (K.held err.old) (K.held err.new) (K.faults err.old) (K.faults err.new) (fault_text status.now) result.told }
{
    Exit {
        code: exit_code(status),
        told: tell(alloc, status, err),
    }
}

/// Does what the words say, writes out what the buffer has held back, tells what is wrong, and says
/// the exit status. With the exit status 0 the buffer is empty, and the writer beneath it holds the
/// whole text.
///
/// The clauses are those of `worldrun`, of which the call is one, with the last write behind it.
pub fn program<R: Threads + Sync, S: Source, W: SteadyWrite + Drop, K: Sink>(
    rt: &R,
    alloc: Global,
    words: &[String],
    script: &mut S,
    out: &mut StdSink<BufWriter<W>>,
    err: &mut K,
) -> Finished
    ensures code { result.exit.code ≡ exit_of result.status }
    ensures told { Tells (K.held err.old) (K.held err.new) (K.faults err.old) (K.faults err.new) (fault_text result.status) result.exit.told }
    ensures usage { (result.status ≡ status.Usage) ↔ (said words.now ≡ None) }
    ensures unread { result.status ≡ status.Usage → script.new ≡ script.old }
    ensures script { IfSome (shape_said words.now) (λ shape. NamesFault shape (S.left script.old) result.status) }
    ensures taken { SaysTaken (S.left script.old) (S.left script.new) result.status result.run }
    ensures read_fault { SaysRead (S.faults script.old) (S.faults script.new) result.status }
    ensures write_fault { SaysWrite out.old.faults out.new.faults result.status }
    ensures complete { IfSome (shape_said words.now) (λ shape. Completes shape (S.left script.old) (S.faults script.old) (S.faults script.new) out.old.faults out.new.faults result.status) }
    ensures run { HasRun result.status result.run }
    ensures shape { IfSome (shape_said words.now) (λ shape. HasShape shape result.run) }
    ensures unplayed { OnNone result.run (Keeps (writer_contents W.contents out.old.writer) (writer_contents W.contents out.new.writer)) }
    ensures written { result.status ≡ status.Ok → writer_buffer out.new.writer ≡ [] }
    ensures headline { IfSome (said words.now) (λ w. OnDone result.status (IfSome result.run (EndsWell w (S.left script.old) (S.left script.new) (writer_contents W.contents out.old.writer) (W.contents (writer_inner out.new.writer))))) }
    ensures promise { IfSome result.run RunKeepsPromise }
    ensures outcome { IfSome (shape_said words.now) (λ shape. OnDone result.status (WritesOutcome shape (S.left script.old) (writer_contents W.contents out.old.writer) (W.contents (writer_inner out.new.writer)))) }
    ensures early { IfSome (said words.now) (λ w. OnStopped result.status result.run (Breaks w (S.left script.old) (S.left script.new) (writer_contents W.contents out.old.writer) (writer_contents W.contents out.new.writer) result.lines)) }
    ensures lines { CountsLines (writer_contents W.contents out.old.writer) (writer_contents W.contents out.new.writer) result.lines }
{
    let ended = worldrun(rt, alloc, words, script, out, &NoPace);
    let status = out.finish(ended.status);
    let exit = end(alloc, &status, err);
    Finished {
        status,
        lines: ended.lines,
        run: ended.run,
        exit,
    }
}
