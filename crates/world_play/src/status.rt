//! How a run ends, for the user and for the system.
ghost use Rattle.std.specs.Prelude.{◌≡◌, IfOk, string_bytes};
ghost use Rattle.world_play.specs.Faults.{schema_text, cause_text, script_text, fault_text, exit_of};

use level_script::{Cause, SchemaErr, ScriptErr};
use std::alloc::{AllocError, Global};

/// How a run ended.
#[derive(Clone, Copy, Debug, PartialEq, Eq)]
pub enum Status {
    /// The whole input was taken, and the whole text was written.
    Ok,
    /// The words are not those of a command. Nothing was read.
    Usage,
    /// The input is no script. Nothing was played.
    Script(ScriptErr),
    /// The source failed. Nothing was played.
    ReadFault,
    /// The sink failed. What was written is a beginning of the text.
    WriteFault,
    /// There was no memory. What was written is a beginning of the text.
    Memory,
}

fn schema_words(alloc: Global, refusal: SchemaErr) -> Result<String, AllocError>
    ensures { IfOk result (λ s. string_bytes s ≡ schema_text refusal) }
{
    match refusal {
        SchemaErr::NameTaken(line) => format!(in alloc; "name taken at line {line}"),
        SchemaErr::NoParent => String::from_str(alloc, "no parent"),
        SchemaErr::TooManySlots { .. } => String::from_str(alloc, "too many slots"),
        SchemaErr::HasChildren => String::from_str(alloc, "has children"),
        SchemaErr::TooManyClasses => String::from_str(alloc, "too many classes"),
    }
}

fn cause_words(alloc: Global, cause: Cause) -> Result<String, AllocError>
    ensures { IfOk result (λ s. string_bytes s ≡ cause_text cause) }
{
    match cause {
        Cause::TooLong => String::from_str(alloc, "too long"),
        Cause::Utf8 => String::from_str(alloc, "not utf-8"),
        Cause::UnknownCommand => String::from_str(alloc, "unknown command"),
        Cause::Words => String::from_str(alloc, "words"),
        Cause::Number => String::from_str(alloc, "number"),
        Cause::Frame => String::from_str(alloc, "frame"),
        Cause::UnknownName => String::from_str(alloc, "unknown name"),
        Cause::NameTwice => String::from_str(alloc, "name twice"),
        Cause::ParShape => String::from_str(alloc, "par shape"),
        Cause::Schema(refusal) => schema_words(alloc, refusal),
    }
}

fn script_fault(alloc: Global, fault: ScriptErr) -> Result<String, AllocError>
    ensures { IfOk result (λ s. string_bytes s ≡ script_text fault) }
{
    let words = cause_words(alloc, fault.cause)?;
    let words = words.as_str();
    let line = fault.line;
    format!(in alloc; "worldrun: script line {line}: {words}\n")
}

fn fault(alloc: Global, status: &Status) -> Result<String, AllocError>
    ensures { IfOk result (λ s. string_bytes s ≡ fault_text status.now) }
{
    match status {
        Status::Ok => Ok(String::new(alloc)),
        Status::Usage => String::from_str(alloc, "worldrun: usage: play or gen\n"),
        Status::Script(fault) => script_fault(alloc, *fault),
        Status::ReadFault => String::from_str(alloc, "worldrun: read fault\n"),
        Status::WriteFault => String::from_str(alloc, "worldrun: write fault\n"),
        Status::Memory => String::from_str(alloc, "worldrun: memory\n"),
    }
}

/// What the program writes to standard error, with its line feed; nothing for `Ok`.
pub fn fault_text(alloc: Global, status: &Status) -> Result<Vec<u8>, AllocError>
    ensures { IfOk result (λ v. v.items ≡ fault_text status.now) }
{
    let text = fault(alloc, status)?;
    Ok(text.into_bytes())
}

/// The exit status of the process.
pub fn exit_code(status: &Status) -> u8
    ensures { result ≡ exit_of status.now }
{
    match status {
        Status::Ok => 0,
        Status::Usage => 2,
        Status::Script(_) => 3,
        Status::ReadFault => 4,
        Status::WriteFault => 5,
        Status::Memory => 6,
    }
}
