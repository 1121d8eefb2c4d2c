//! Events as texts, for the tests.
use mark_core::{Core, Event};
use std::alloc::Global;

fn number(word: Option<&str>) -> Option<u32> {
    match word {
        Some(digits) => digits.parse::<u32>().ok(),
        None => None,
    }
}

fn without_numbers(name: &str) -> Option<Event> {
    match name {
        "open" => Some(Event::FrameOpen),
        "close" => Some(Event::FrameClose),
        "begin" => Some(Event::BeginExchange),
        "dirty" => Some(Event::SetDirty),
        "clean" => Some(Event::ClearDirty),
        "commit" => Some(Event::CommitExchange),
        "settle" => Some(Event::Settle),
        _ => None,
    }
}

// A unit or a cell. A swap with one number stores none, and `root` loads a root bit.
fn with_one(name: &str, n: u32) -> Option<Event> {
    match name {
        "shade" => Some(Event::Shade { unit: n }),
        "head" => Some(Event::LoadHead { unit: n }),
        "doom" => Some(Event::DoomHead { unit: n }),
        "load" => Some(Event::LoadCell { cell: n }),
        "swap" => Some(Event::SwapCell { cell: n, to: None }),
        "root" => Some(Event::RootBit { unit: n, on: None }),
        "set" => Some(Event::RootBit {
            unit: n,
            on: Some(true),
        }),
        "unset" => Some(Event::RootBit {
            unit: n,
            on: Some(false),
        }),
        _ => None,
    }
}

// A cell and a unit, a row and a unit, a row and a word.
fn with_two(name: &str, a: u32, b: u32) -> Option<Event> {
    match name {
        "swap" => Some(Event::SwapCell {
            cell: a,
            to: Some(b),
        }),
        "add" => Some(Event::AddRow { row: a, unit: b }),
        "take" => Some(Event::TakeRow { row: a, word: b }),
        "look" => Some(Event::LoadRow { row: a, word: b }),
        _ => None,
    }
}

fn named(name: &str, a: Option<u32>, b: Option<u32>) -> Option<Event> {
    match (a, b) {
        (Some(a), Some(b)) => with_two(name, a, b),
        (Some(a), None) => with_one(name, a),
        _ => without_numbers(name),
    }
}

// An event by its actor, its name and its numbers: in "0 swap 2 1" lane 0 stores unit 1 into cell 2.
fn event(text: &str) -> Option<(u32, Event)> {
    let mut words = text.split(' ');
    let actor = number(words.next())?;
    let name = words.next()?;
    let a = number(words.next());
    let b = number(words.next());
    let event = named(name, a, b)?;
    Some((actor, event))
}

/// The events of a text, or none where one of them cannot be read.
pub(crate) fn events(alloc: Global, text: &str) -> Option<Vec<(u32, Event)>> {
    let mut events = Vec::new(alloc);
    for part in text.split(", ") {
        match event(part) {
            Some(next) => {
                if events.push(next).is_err() {
                    return None;
                }
            }
            None => return None,
        }
    }
    Some(events)
}

/// The first event of a text that is not allowed, by its place from 0; or their number where all are.
pub(crate) fn allowed(alloc: Global, core: &mut Core, text: &str) -> Option<usize> {
    let events = events(alloc, text)?;
    if events.len() > 1000 {
        return None;
    }
    match core.run(&events) {
        Ok(()) => Some(events.len()),
        Err(k) => Some(k as usize),
    }
}

/// Does an event that is allowed, and answers what it found.
pub(crate) fn found(core: &mut Core, text: &str) -> Option<u64> {
    let (actor, event) = event(text)?;
    if core.allows(actor, event) {
        Some(core.step(actor, event))
    } else {
        None
    }
}

/// Whether these events are allowed, and find these words.
pub(crate) fn finds(core: &mut Core, steps: &[(&str, u64)]) -> bool {
    for (text, word) in steps {
        if found(core, text) != Some(*word) {
            return false;
        }
    }
    true
}
