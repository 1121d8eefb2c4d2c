//! The top call.
ghost use Rattle.std.specs.Prelude.{◌≡◌, ◌≢◌, ◌≤◌, ◌↔◌, ◌⊎◌, [], None, IfSome, IfOk, IfErr, OnOk, Some, option_map};
ghost use Rattle.level_script.specs.Frames.{IsPlayable};
ghost use Rattle.level_script.specs.Context.{AreLawful};
ghost use Rattle.world_play.specs.Words.{sizes_of};
ghost use Rattle.world_play.specs.Ends.{said, shape_said, limits_of, limits_in, history_of, HasShape, WasTaken, IsScript, Refuses, IsBefore, WritesFault, HasRun, PlayedBy, WasPlayed, OnDone, OnStopped, OnNone, NamesFault, SaysTaken, SaysRead, SaysWrite, EndsWell, EndsEarly, KeepsPromise, RunKeepsPromise, WritesOutcome, CountsLines, TellsScript, Completes, IsSure};
ghost use Rattle.world_play.specs.declared.status.Status.TheVariants as status;

use crate::header::Header;
use crate::player::play;
use crate::status::Status;
use crate::stream::{ReadErr, read_all};
use crate::words::{ShapeName, Words, read_words};
use heap_plain::PlainHeap;
use level_script::{Limits, ParseErr, Script, parse};
use play_io::{NoPace, Pace, PutErr, Sink, Source, SureSink, SureSource};
use std::alloc::Global;
use std::thread::Threads;
use world_model::follows::headline;
use world_model::{Engine, Level, Shape, Small};

/// The most bytes of an input.
const LIMIT: usize = 16777216;

/// The engine that played.
#[derive(Drop)]
pub enum Run {
    /// The plain engine, in shape Level.
    PlainLevel(PlainHeap<Level>),
    /// The plain engine, in shape Small.
    PlainSmall(PlainHeap<Small>),
}

/// How a run ended.
#[derive(Drop)]
pub struct Ended {
    pub status: Status,
    /// How many line feeds the sink took.
    pub lines: u64,
    /// The engine that played, if there was one.
    pub run: Option<Run>,
}

/// How a script was played.
#[derive(Clone, Copy)]
struct Performed {
    status: Status,
    lines: u64,
}

// A run that never had an engine.
fn without_run(status: Status) -> Ended
    requires { IsBefore status }
    ensures status { result.status ≡ status }
    ensures lines { result.lines ≡ 0 }
    ensures run { result.run ≡ None }
{
    Ended {
        status,
        lines: 0,
        run: None,
    }
}

// A run of this engine.
fn with_run(done: Performed, engine: Run) -> Ended
    ensures status { result.status ≡ done.status }
    ensures lines { result.lines ≡ done.lines }
    ensures run { result.run ≡ Some engine }
{
    Ended {
        status: done.status,
        lines: done.lines,
        run: Some(engine),
    }
}

fn limits_of<S: Shape>() -> Limits
    ensures { result ≡ limits_of S.sizes }
{
    Limits {
        lanes: S::LANES,
        slots: S::SLOTS,
        strong: S::STRONG,
        markers: S::MARKERS,
    }
}

fn limits_in(shape: ShapeName) -> Limits
    ensures limits { result ≡ limits_in shape }
    ensures lawful { AreLawful result }
{
    match shape {
        ShapeName::Level => limits_of::<Level>(),
        ShapeName::Small => limits_of::<Small>(),
    }
}

// Reads the whole input as a script within these limits.
fn read_script<S: Source>(alloc: Global, source: &mut S, limits: Limits) -> Result<Script, Status>
    requires { AreLawful limits }
    ensures quiet { IfOk result (λ script. S.faults source.new ≡ S.faults source.old) }
    ensures playable { IfOk result (IsPlayable limits) }
    ensures read { IfOk result (IsScript limits (S.left source.old)) }
    ensures taken { OnOk result (WasTaken (S.left source.old) (S.left source.new)) }
    ensures refused { IfErr result (Refuses limits (S.left source.old) (S.left source.new) (S.faults source.old) (S.faults source.new)) }
{
    let bytes = match read_all(alloc, source, LIMIT) {
        Ok(bytes) => bytes,
        Err(ReadErr::Failed) => return Err(Status::ReadFault),
        Err(ReadErr::Memory) => return Err(Status::Memory),
    };
    match parse(alloc, bytes.as_slice(), limits) {
        Ok(script) => Ok(script),
        Err(ParseErr::Bad(fault)) => Err(Status::Script(fault)),
        Err(ParseErr::Memory) => Err(Status::Memory),
    }
}

// Plays a script on a new engine, with slices of so many objects, items or steps.
fn perform<S: Shape, E: Engine<S>, K: Sink>(
    alloc: Global,
    engine: &mut E,
    script: &Script,
    slice: u32,
    out: &mut K,
) -> Performed
    requires some { 1 ≤ slice }
    requires playable { IsPlayable (limits_of S.sizes) script.now }
    requires start { E.history engine.old ≡ [] }
    ensures write { WritesFault (K.faults out.old) (K.faults out.new) result.status }
    ensures promise { KeepsPromise S.sizes (E.history engine.new) }
    ensures played { PlayedBy S.sizes slice result.status script.now (E.history engine.new) (K.held out.old) (K.held out.new) result.lines }
{
    let header = Header {
        classes: &script.classes,
        fields: &script.fields,
    };
    script.classes.lawful();
    let mut lines = 0;
    let played = play::<S, E, K>(
        alloc,
        engine,
        &header,
        script.lines.as_slice(),
        script.vars.as_slice(),
        script.weaks,
        slice,
        out,
        &mut lines,
    );
    let status = match played {
        Ok(()) => Status::Ok,
        Err(PutErr::Failed) => Status::WriteFault,
        Err(PutErr::Memory) => Status::Memory,
    };
    engine.lawful();
    headline();
    Performed { status, lines }
}

// Plays a script on a new engine of the shape that the words name.
fn perform_in<K: Sink>(alloc: Global, script: &Script, words: Words, out: &mut K) -> Ended
    requires some { 1 ≤ words.slice }
    requires playable { IsPlayable (limits_in words.shape) script.now }
    ensures write { WritesFault (K.faults out.old) (K.faults out.new) result.status }
    ensures run { HasRun result.status result.run }
    ensures promise { IfSome result.run RunKeepsPromise }
    ensures shape { HasShape words.shape result.run }
    ensures played { WasPlayed (sizes_of words.shape) words.slice result.status script.now (option_map history_of result.run) (K.held out.old) (K.held out.new) result.lines }
    ensures unplayed { OnNone result.run (out.new ≡ out.old) }
{
    match words.shape {
        ShapeName::Level => {
            let Ok(mut engine) = PlainHeap::<Level>::new(alloc) else {
                return without_run(Status::Memory);
            };
            let done = perform::<Level, PlainHeap<Level>, K>(
                alloc,
                &mut engine,
                script,
                words.slice,
                out,
            );
            with_run(done, Run::PlainLevel(engine))
        }
        ShapeName::Small => {
            let Ok(mut engine) = PlainHeap::<Small>::new(alloc) else {
                return without_run(Status::Memory);
            };
            let done = perform::<Small, PlainHeap<Small>, K>(
                alloc,
                &mut engine,
                script,
                words.slice,
                out,
            );
            with_run(done, Run::PlainSmall(engine))
        }
    }
}

// Does what the words say.
fn play_words<S: Source, K: Sink>(alloc: Global, words: Words, script: &mut S, out: &mut K) -> Ended
    requires some { 1 ≤ words.slice }
    ensures known { result.status ≢ status.Usage }
    ensures script { NamesFault words.shape (S.left script.old) result.status }
    ensures taken { SaysTaken (S.left script.old) (S.left script.new) result.status result.run }
    ensures read_fault { SaysRead (S.faults script.old) (S.faults script.new) result.status }
    ensures write_fault { SaysWrite (K.faults out.old) (K.faults out.new) result.status }
    ensures complete { Completes words.shape (S.left script.old) (S.faults script.old) (S.faults script.new) (K.faults out.old) (K.faults out.new) result.status }
    ensures run { HasRun result.status result.run }
    ensures promise { IfSome result.run RunKeepsPromise }
    ensures shape { HasShape words.shape result.run }
    ensures unplayed { OnNone result.run (out.new ≡ out.old) }
    ensures headline { OnDone result.status (IfSome result.run (EndsWell words (S.left script.old) (S.left script.new) (K.held out.old) (K.held out.new))) }
    ensures outcome { OnDone result.status (WritesOutcome words.shape (S.left script.old) (K.held out.old) (K.held out.new)) }
    ensures early { OnStopped result.status result.run (EndsEarly words (S.left script.old) (K.held out.old) (K.held out.new) result.lines) }
    ensures lines { CountsLines (K.held out.old) (K.held out.new) result.lines }
{
    match read_script(alloc, script, limits_in(words.shape)) {
        Ok(script) => {
            script.classes.lawful();
            perform_in(alloc, &script, words, out)
        }
        Err(status) => without_run(status),
    }
}

/// Does what the words after the program's name say. The one command is `play`, which reads a
/// script from the source, plays it on a new heap of the engine and the shape that the words name,
/// with slices of the size that they name, and puts the reply to each line as one piece when the
/// line is done.
///
/// The input is all bytes that the source has left. It is read to its end, or to one byte past
/// 16,777,216, before anything is played. A call of the source or the sink that failed is not made
/// again, and is the last one. No threads are made, whatever number of markers the words name, and
/// the pace is told nothing.
///
/// Of the words only the shape changes what a script's text is.
pub fn worldrun<R: Threads + Sync, S: Source, K: Sink, P: Pace>(
    rt: &R,
    alloc: Global,
    words: &[String],
    script: &mut S,
    out: &mut K,
    pace: &P,
) -> Ended
    ensures usage { (result.status ≡ status.Usage) ↔ (said words.now ≡ None) }
    ensures unread { result.status ≡ status.Usage → script.new ≡ script.old }
    ensures script { IfSome (shape_said words.now) (λ shape. NamesFault shape (S.left script.old) result.status) }
    ensures taken { SaysTaken (S.left script.old) (S.left script.new) result.status result.run }
    ensures read_fault { SaysRead (S.faults script.old) (S.faults script.new) result.status }
    ensures write_fault { SaysWrite (K.faults out.old) (K.faults out.new) result.status }
    ensures complete { IfSome (shape_said words.now) (λ shape. Completes shape (S.left script.old) (S.faults script.old) (S.faults script.new) (K.faults out.old) (K.faults out.new) result.status) }
    ensures run { HasRun result.status result.run }
    ensures shape { IfSome (shape_said words.now) (λ shape. HasShape shape result.run) }
    ensures unplayed { OnNone result.run (out.new ≡ out.old) }
    ensures headline { IfSome (said words.now) (λ w. OnDone result.status (IfSome result.run (EndsWell w (S.left script.old) (S.left script.new) (K.held out.old) (K.held out.new)))) }
    ensures promise { IfSome result.run RunKeepsPromise }
    ensures outcome { IfSome (shape_said words.now) (λ shape. OnDone result.status (WritesOutcome shape (S.left script.old) (K.held out.old) (K.held out.new))) }
    ensures early { IfSome (said words.now) (λ w. OnStopped result.status result.run (EndsEarly w (S.left script.old) (K.held out.old) (K.held out.new) result.lines)) }
    ensures lines { CountsLines (K.held out.old) (K.held out.new) result.lines }
{
    let _ = rt;
    let _ = pace;
    match read_words(words) {
        Some(words) => play_words(alloc, words, script, out),
        None => without_run(Status::Usage),
    }
}

/// `worldrun` from bytes in memory to bytes in memory, where no call fails and the pace is told
/// nothing. Without want of memory a script is played to its end. Here the bytes are told, so each
/// clause of `worldrun` on bytes says something.
pub fn run_in_memory<R: Threads + Sync>(
    rt: &R,
    alloc: Global,
    words: &[String],
    script: &mut SureSource,
    out: &mut SureSink,
) -> Ended
    ensures sure { IsSure result.status }
    ensures complete { IfSome (shape_said words.now) (λ shape. TellsScript shape (Some script.old) → (result.status ≡ status.Ok) ⊎ (result.status ≡ status.Memory)) }
    ensures outcome { IfSome (shape_said words.now) (λ shape. OnDone result.status (WritesOutcome shape (Some script.old) (Some out.old) (Some out.new))) }
    ensures headline { IfSome (said words.now) (λ w. OnDone result.status (IfSome result.run (EndsWell w (Some script.old) (Some script.new) (Some out.old) (Some out.new)))) }
    ensures promise { IfSome result.run RunKeepsPromise }
    ensures early { IfSome (said words.now) (λ w. OnStopped result.status result.run (EndsEarly w (Some script.old) (Some out.old) (Some out.new) result.lines)) }
    ensures script { IfSome (shape_said words.now) (λ shape. NamesFault shape (Some script.old) result.status) }
    ensures taken { SaysTaken (Some script.old) (Some script.new) result.status result.run }
    ensures lines { CountsLines (Some out.old) (Some out.new) result.lines }
{
    worldrun(rt, alloc, words, script, out, &NoPace)
}
