//! Whole runs, with the texts that the language gives them. Sources give, and sinks take, so many
//! bytes at a time.
ghost use Rattle.std.specs.Prelude.{◌<◌, None};

use level_script::{Cause, SchemaErr, ScriptErr};
use play_io::{NoPace, PutErr, Sink, SureSink, SureSource};
use std::alloc::Global;
use std::thread::Threads;
use world_play::{Status, exit_code, fault_text, run_in_memory, worldrun};

/// How a run ended, and what it wrote.
#[derive(Drop)]
struct Ran {
    status: Status,
    lines: u64,
    text: SureSink,
}

// A run of these words over this input.
fn run<R: Threads + Sync>(
    rt: &R,
    alloc: Global,
    words: &[String],
    input: &[u8],
    piece: u32,
) -> Option<Ran>
    requires { 0 < piece }
{
    let mut bytes = Vec::new(alloc);
    let Ok(()) = bytes.extend_from_slice(input) else {
        return None;
    };
    let mut source = SureSource::new(bytes, piece);
    let mut text = SureSink::new(alloc, piece);
    let ended = run_in_memory(rt, alloc, words, &mut source, &mut text);
    let status = ended.status;
    let lines = ended.lines;
    Some(Ran {
        status,
        lines,
        text,
    })
}

// Whether `play` of this input ends so, and writes this text of so many lines.
pub(crate) fn plays<R: Threads + Sync>(
    rt: &R,
    alloc: Global,
    input: &str,
    piece: u32,
    status: Status,
    text: &str,
    lines: u64,
) -> bool
    requires { 0 < piece }
{
    let Ok(word) = String::from_str(alloc, "play") else {
        return false;
    };
    match run(rt, alloc, &[word], input.as_bytes(), piece) {
        Some(ran) => {
            ran.status == status && ran.lines == lines && ran.text.bytes() == text.as_bytes()
        }
        None => false,
    }
}

// Whether `play` of this input is a fault of this line, and writes nothing.
fn is_fault<R: Threads + Sync>(
    rt: &R,
    alloc: Global,
    input: &str,
    line: u32,
    cause: Cause,
) -> bool {
    let status = Status::Script(ScriptErr { line, cause });
    plays(rt, alloc, input, 4096, status, "", 0)
}

const SMALLEST: &str = "class A Object\n0 open\n0 new a A\n0 root a on\n0 close\ngc full\n";

#[test]
fn the_smallest_script(rt: HostRuntime) {
    let text = "0 open idle\n0 new 0:1\n0 was off\n0 close\ngc full removed 0 left 0\n";
    for piece in [1, 7, 4096, 100_000] {
        assert!(rt; plays(&rt, rt.alloc(), SMALLEST, piece, Status::Ok, text, 5));
    }
}

/// A sink that counts its calls, takes all that it is given, and tells nothing.
#[derive(Drop)]
struct PutCounter {
    puts: u64,
}

impl Sink for PutCounter {
    ghost held = { λ _. None };

    ghost faults = { λ _. 0 };

    fn put(&mut self, bytes: &[u8]) -> Result<usize, PutErr> {
        self.puts = self.puts.saturating_add(1);
        Ok(bytes.len())
    }
}

#[test]
fn each_reply_is_put_as_one_piece(rt: HostRuntime) {
    let word = String::from_str(rt.alloc(), "play").expect(&rt, "memory");
    let mut bytes = Vec::new(rt.alloc());
    bytes
        .extend_from_slice(SMALLEST.as_bytes())
        .expect(&rt, "memory");
    let mut source = SureSource::new(bytes, 7);
    let mut sink = PutCounter { puts: 0 };
    let ended = worldrun(&rt, rt.alloc(), &[word], &mut source, &mut sink, &NoPace);
    assert_eq!(rt; ended.lines, 5);
    assert_eq!(rt; sink.puts, 5);
}

#[test]
fn the_empty_script(rt: HostRuntime) {
    assert!(rt; plays(&rt, rt.alloc(), "", 1, Status::Ok, "", 0));
    assert!(rt; plays(&rt, rt.alloc(), "# none\n", 1, Status::Ok, "", 0));
}

#[test]
fn frames_in_two_lanes(rt: HostRuntime) {
    let script = "0 open\n1 open\ngc full\n0 close\ngc full\n1 close\ngc full\ngc full\n";
    let text =
        "0 open idle\n1 open idle\ngc pending frames 2\n0 close\ngc pending frames 1\n1 close\ngc full removed 0 left 0\ngc full removed 0 left 0\n";
    assert!(rt; plays(&rt, rt.alloc(), script, 64, Status::Ok, text, 8));
}

#[test]
fn a_lane_that_is_full(rt: HostRuntime) {
    let mut script = String::from_str(rt.alloc(), "0 open\n").expect(&rt, "memory");
    let mut text = String::from_str(rt.alloc(), "0 open idle\n").expect(&rt, "memory");
    for count in 0..8192u32 {
        script
            .push_str("0 new a Object\n0 root a on\n")
            .expect(&rt, "memory");
        let made = count + 1;
        let more = format!(in rt.alloc(); "0 new 0:{made}\n0 was off\n").expect(&rt, "memory");
        text.push_str(more.as_str()).expect(&rt, "memory");
    }
    script
        .push_str("0 new a Object\n0 root a on\n")
        .expect(&rt, "memory");
    text.push_str("0 full 0\n0 none\n").expect(&rt, "memory");
    assert!(rt;
        plays(
            &rt,
            rt.alloc(),
            script.as_str(),
            4096,
            Status::Ok,
            text.as_str(),
            16387
        )
    );
}

#[test]
fn what_no_root_reaches(rt: HostRuntime) {
    let script =
        "class A Object\n0 open\n0 new a A\n0 new b A\n0 root b on\n0 close\ngc full\n0 open\n0 new a A\n";
    let text =
        "0 open idle\n0 new 0:1\n0 new 0:2\n0 was off\n0 close\ngc full removed 1 left 0: 0:1\n0 open idle\n0 new 0:3\n";
    assert!(rt; plays(&rt, rt.alloc(), script, 7, Status::Ok, text, 8));
    let script =
        "0 open\n0 new a Object\n0 root a on\n0 root a off\n0 new a Object\n0 root a off\n1 open\n1 new a Object\n0 close\n1 close\ngc full\ngc full\n";
    let text =
        "0 open idle\n0 new 0:1\n0 was off\n0 was on\n0 new 0:2\n0 was off\n1 open idle\n1 new 1:1\n0 close\n1 close\ngc full removed 3 left 0: 0:1 0:2 1:1\ngc full removed 0 left 0\n";
    assert!(rt; plays(&rt, rt.alloc(), script, 7, Status::Ok, text, 12));
}

#[test]
fn a_hundred_collections(rt: HostRuntime) {
    let mut script = String::new(rt.alloc());
    let mut text = String::new(rt.alloc());
    for k in 0..100u32 {
        script
            .push_str("0 open\n0 new a Object\n0 close\ngc full\n")
            .expect(&rt, "memory");
        let count = k + 1;
        let more = format!(in rt.alloc();
            "0 open idle\n0 new 0:{count}\n0 close\ngc full removed 1 left 0: 0:{count}\n"
        ).expect(&rt, "memory");
        text.push_str(more.as_str()).expect(&rt, "memory");
    }
    assert!(rt;
        plays(
            &rt,
            rt.alloc(),
            script.as_str(),
            4096,
            Status::Ok,
            text.as_str(),
            400
        )
    );
}

// Adds the lines of a lane that makes more objects than it has indexes, and their replies.
fn fill_lane(alloc: Global, lane: u32, script: &mut String, text: &mut String) -> Option<()> {
    let line = format!(in alloc; "{lane} open\n").ok()?;
    script.push_str(line.as_str()).ok()?;
    let line = format!(in alloc; "{lane} open idle\n").ok()?;
    text.push_str(line.as_str()).ok()?;
    let make = format!(in alloc; "{lane} new a Object\n").ok()?;
    for k in 0..8192u32 {
        let count = k + 1;
        script.push_str(make.as_str()).ok()?;
        let line = format!(in alloc; "{lane} new {lane}:{count}\n").ok()?;
        text.push_str(line.as_str()).ok()?;
    }
    let line = format!(in alloc; "{lane} new a Object\n{lane} close\n").ok()?;
    script.push_str(line.as_str()).ok()?;
    let line = format!(in alloc; "{lane} full 0\n{lane} close\n").ok()?;
    text.push_str(line.as_str()).ok()?;
    Some(())
}

// Adds the names of all objects of a lane.
fn name_lane(alloc: Global, lane: u32, text: &mut String) -> Option<()> {
    for k in 0..8192u32 {
        let count = k + 1;
        let name = format!(in alloc; " {lane}:{count}").ok()?;
        text.push_str(name.as_str()).ok()?;
    }
    Some(())
}

#[test]
fn four_full_lanes(rt: HostRuntime) {
    let mut script = String::new(rt.alloc());
    let mut text = String::new(rt.alloc());
    for lane in 0..4u32 {
        assert!(rt; fill_lane(rt.alloc(), lane, &mut script, &mut text).is_some());
    }
    script
        .push_str("gc full\n3 open\n3 new a Object\n")
        .expect(&rt, "memory");
    text.push_str("gc full removed 32768 left 0:")
        .expect(&rt, "memory");
    for lane in 0..4u32 {
        assert!(rt; name_lane(rt.alloc(), lane, &mut text).is_some());
    }
    text.push_str("\n3 open idle\n3 new 3:8193\n")
        .expect(&rt, "memory");
    assert!(rt;
        plays(
            &rt,
            rt.alloc(),
            script.as_str(),
            4096,
            Status::Ok,
            text.as_str(),
            32783
        )
    );
}

#[test]
fn inputs_that_are_no_scripts(rt: HostRuntime) {
    let parent = Cause::Schema(SchemaErr::NoParent);
    assert!(rt;
        is_fault(
            &rt,
            rt.alloc(),
            "class A Object\nclass B C\n0 open\n",
            2,
            parent
        )
    );
    assert!(rt; is_fault(&rt, rt.alloc(), "0 open\n0 open\n", 2, Cause::Frame));
    assert!(rt;
        is_fault(
            &rt,
            rt.alloc(),
            "0 open\n0 now a Object\n0 close\n",
            2,
            Cause::UnknownCommand
        )
    );
    assert!(rt;
        is_fault(
            &rt,
            rt.alloc(),
            "class A Object\n0 op",
            2,
            Cause::UnknownCommand
        )
    );
}

#[test]
fn other_words(rt: HostRuntime) {
    let alloc = rt.alloc();
    let none: [String; 0] = [];
    let ran = run(&rt, alloc, &none, b"0 open\n", 1).expect(&rt, "memory");
    assert_eq!(rt; ran.status, Status::Usage);
    for word in ["gen", "pla", "play ", "Play"] {
        let word = String::from_str(alloc, word).expect(&rt, "memory");
        let ran = run(&rt, alloc, &[word], b"0 open\n", 1).expect(&rt, "memory");
        assert_eq!(rt; ran.status, Status::Usage);
    }
    let first = String::from_str(alloc, "play").expect(&rt, "memory");
    let second = String::from_str(alloc, "play").expect(&rt, "memory");
    let ran = run(&rt, alloc, &[first, second], b"0 open\n", 1).expect(&rt, "memory");
    assert_eq!(rt; ran.status, Status::Usage);
    assert_eq!(rt; ran.text.bytes().len(), 0);
}

// Whether the status has this text and this exit status.
fn tells(alloc: Global, status: Status, text: &str, code: u8) -> bool {
    match fault_text(alloc, &status) {
        Ok(told) => told.as_slice() == text.as_bytes() && exit_code(&status) == code,
        Err(_) => false,
    }
}

#[test]
fn texts_of_statuses(rt: HostRuntime) {
    for (status, text, code) in [
        (Status::Ok, "", 0),
        (Status::Usage, "worldrun: usage: play or gen\n", 2),
        (Status::ReadFault, "worldrun: read fault\n", 4),
        (Status::WriteFault, "worldrun: write fault\n", 5),
        (Status::Memory, "worldrun: memory\n", 6),
    ] {
        assert!(rt; tells(rt.alloc(), status, text, code));
    }
}

fn script_fault(line: u32, cause: Cause) -> Status {
    Status::Script(ScriptErr { line, cause })
}

// A cause by its name.
fn cause(name: &str) -> Option<Cause> {
    match name {
        "TooLong" => Some(Cause::TooLong),
        "Utf8" => Some(Cause::Utf8),
        "UnknownCommand" => Some(Cause::UnknownCommand),
        "Words" => Some(Cause::Words),
        "Number" => Some(Cause::Number),
        "Frame" => Some(Cause::Frame),
        "UnknownName" => Some(Cause::UnknownName),
        "NameTwice" => Some(Cause::NameTwice),
        "ParShape" => Some(Cause::ParShape),
        "NameTaken 2" => Some(Cause::Schema(SchemaErr::NameTaken(2))),
        "NoParent" => Some(Cause::Schema(SchemaErr::NoParent)),
        "TooManySlots 1 2" => Some(Cause::Schema(SchemaErr::TooManySlots { used: 1, asked: 2 })),
        "HasChildren" => Some(Cause::Schema(SchemaErr::HasChildren)),
        "TooManyClasses" => Some(Cause::Schema(SchemaErr::TooManyClasses)),
        _ => None,
    }
}

// A cause, a line, and what is told of them.
const FAULTS: &str = "\
TooLong = 0: too long
Utf8 = 1: not utf-8
UnknownCommand = 20: unknown command
Words = 3: words
Number = 3: number
Frame = 3: frame
UnknownName = 3: unknown name
NameTwice = 3: name twice
ParShape = 3: par shape
NameTaken 2 = 4: name taken at line 2
NoParent = 4: no parent
TooManySlots 1 2 = 4: too many slots
HasChildren = 4: has children
TooManyClasses = 4: too many classes";

// Whether the fault of a row has the text of the row, and its exit status.
fn is_told(alloc: Global, row: &str) -> Option<bool> {
    let (name, told) = row.split_once(" = ")?;
    let (line, _) = told.split_once(": ")?;
    let line = line.parse::<u32>().ok()?;
    let why = cause(name)?;
    let text = format!(in alloc; "worldrun: script line {told}\n").ok()?;
    let status = script_fault(line, why);
    Some(tells(alloc, status, text.as_str(), 3))
}

#[test]
fn texts_of_faults(rt: HostRuntime) {
    for row in FAULTS.split('\n') {
        assert!(rt; is_told(rt.alloc(), row) == Some(true), "{row}");
    }
}
