//! Scripts with the texts that they write, a row each. A slash separates lines.

use crate::words::split;
use play_io::{SureSink, SureSource};
use std::alloc::Global;
use std::thread::Threads;
use world_play::{Status, run_in_memory};

/// The words of a call, a script, and what it writes.
#[derive(Clone, Copy)]
pub(crate) struct Row {
    pub(crate) words: &'static str,
    pub(crate) script: &'static str,
    pub(crate) text: &'static str,
}

/// The lines of a text in which a slash separates them.
fn as_lines(alloc: Global, text: &str) -> Option<String> {
    let mut lines = String::new(alloc);
    for line in text.split(" / ") {
        lines.push_str(line).ok()?;
        lines.push_str("\n").ok()?;
    }
    Some(lines)
}

/// Whether a call of these words on this script writes this text, and all is well.
pub(crate) fn is_told<R: Threads + Sync>(
    rt: &R,
    alloc: Global,
    words: &str,
    script: &str,
    text: &str,
) -> Option<bool> {
    let words = split(alloc, words).ok()?;
    let mut bytes = Vec::new(alloc);
    bytes.extend_from_slice(script.as_bytes()).ok()?;
    let mut source = SureSource::new(bytes, 4096);
    let mut sink = SureSink::new(alloc, 4096);
    let ended = run_in_memory(rt, alloc, words.as_slice(), &mut source, &mut sink);
    Some(ended.status == Status::Ok && sink.bytes() == text.as_bytes())
}

/// Whether a row's script writes its text, and all is well.
pub(crate) fn is_written<R: Threads + Sync>(rt: &R, alloc: Global, row: Row) -> Option<bool> {
    let script = as_lines(alloc, row.script)?;
    let text = as_lines(alloc, row.text)?;
    is_told(rt, alloc, row.words, script.as_str(), text.as_str())
}
