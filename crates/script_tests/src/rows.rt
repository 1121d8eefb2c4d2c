//! Inputs, and tables of them: a text with a row for each. In a row `|` is the end of a line of the input.
use crate::told::told;
use level_script::{Cause, Limits, ParseErr, SchemaErr, Script, ScriptErr, parse};
use std::alloc::Global;

pub(crate) fn read(alloc: Global, bytes: &[u8]) -> Result<Script, ParseErr> {
    let limits = Limits {
        lanes: 4,
        slots: 12,
        strong: 64,
        markers: 8,
    };
    parse(alloc, bytes, limits)
}

pub(crate) fn has_fault(read: &Result<Script, ParseErr>, line: u32, cause: Cause) -> bool {
    match read {
        Err(ParseErr::Bad(fault)) => *fault == ScriptErr { line, cause },
        _ => false,
    }
}

pub(crate) fn is_fault(alloc: Global, bytes: &[u8], line: u32, cause: Cause) -> bool {
    has_fault(&read(alloc, bytes), line, cause)
}

/// Whether the input is a script with these lines, and with so many variables of each lane.
pub(crate) fn is_script(alloc: Global, bytes: &[u8], lines: &str, vars: &[u32]) -> bool {
    let Ok(script) = read(alloc, bytes) else {
        return false;
    };
    let Ok(said) = told(alloc, &script) else {
        return false;
    };
    said.as_str() == lines && script.vars.as_slice() == vars
}

pub(crate) fn is_empty(alloc: Global, bytes: &[u8]) -> bool {
    is_script(alloc, bytes, "", &[0, 0, 0, 0])
}

// A cause by its word, with the numbers of those that have some.
fn cause(word: &str, a: u32, b: u32) -> Option<Cause> {
    match word {
        "utf-8" => Some(Cause::Utf8),
        "command" => Some(Cause::UnknownCommand),
        "words" => Some(Cause::Words),
        "number" => Some(Cause::Number),
        "frame" => Some(Cause::Frame),
        "name" => Some(Cause::UnknownName),
        "twice" => Some(Cause::NameTwice),
        "taken" => Some(Cause::Schema(SchemaErr::NameTaken(a))),
        "parent" => Some(Cause::Schema(SchemaErr::NoParent)),
        "children" => Some(Cause::Schema(SchemaErr::HasChildren)),
        "slots" => Some(Cause::Schema(SchemaErr::TooManySlots { used: a, asked: b })),
        _ => None,
    }
}

/// A word as a number.
pub(crate) fn number(word: Option<&str>) -> Option<u32> {
    match word {
        Some(digits) => digits.parse::<u32>().ok(),
        None => None,
    }
}

// A fault by its line and its cause, as in "3 taken 2".
fn fault(text: &str) -> Option<ScriptErr> {
    let mut words = text.split(' ');
    let line = number(words.next())?;
    let word = words.next()?;
    let a = number(words.next()).unwrap_or(0);
    let b = number(words.next()).unwrap_or(0);
    let why = cause(word, a, b)?;
    Some(ScriptErr { line, cause: why })
}

/// Whether the input of a row has this fault where it follows the start.
pub(crate) fn is_faulty(alloc: Global, start: &str, row: &str, want: &str) -> bool {
    let Some(want) = fault(want) else {
        return false;
    };
    let Ok(mut input) = String::from_str(alloc, start) else {
        return false;
    };
    let Ok(lines) = row.replace(alloc, '|', "\n") else {
        return false;
    };
    input.push_str(lines.as_str()).is_ok()
        && is_fault(alloc, input.as_bytes(), want.line, want.cause)
}

/// The first row that has another fault than it tells. A row is a fault, `: ` and an input.
pub(crate) fn other<'a>(alloc: Global, rows: &'a str) -> Option<&'a str> {
    for row in rows.split('\n') {
        let has = match row.split_once(": ") {
            Some((want, input)) => is_faulty(alloc, "", input, want),
            None => false,
        };
        if !has {
            return Some(row);
        }
    }
    None
}

/// The first row that has not this fault where it follows the start.
pub(crate) fn other_than<'a>(
    alloc: Global,
    start: &str,
    want: &str,
    rows: &'a str,
) -> Option<&'a str> {
    for row in rows.split('\n') {
        if !is_faulty(alloc, start, row, want) {
            return Some(row);
        }
    }
    None
}
