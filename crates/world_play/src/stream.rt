//! Whole inputs, and texts that are put whole.
ghost use Rattle.std.specs.Prelude.{◌^◌, ◌<◌, IfOk, OnOk, OnErr};
ghost use Rattle.world_play.specs.Streams.{Read, ReadCounts, PutCounts, Gained, GainedStart};

use play_io::{PutErr, Sink, Source};
use std::alloc::Global;

/// Why an input was not read.
#[derive(Clone, Copy, Debug, PartialEq, Eq)]
pub(crate) enum ReadErr {
    /// The source failed.
    Failed,
    /// There was no memory for the bytes.
    Memory,
}

/// Reads to the end, or to one byte past the limit.
pub(crate) fn read_all<S: Source>(
    alloc: Global,
    source: &mut S,
    limit: usize,
) -> Result<Vec<u8>, ReadErr>
    requires { limit < 2 ^ 32 }
    ensures faults { ReadCounts (S.faults source.old) (S.faults source.new) result }
    ensures bytes { IfOk result (λ v. Read (S.left source.old) (S.left source.new) limit v.items) }
{
    let mut all = Vec::new(alloc);
    let mut buf = [0u8; 4096];
    while all.len() <= limit {
        let room = (limit + 1 - all.len()).min(4096);
        let Ok(count) = source.take(&mut buf[..room]) else {
            return Err(ReadErr::Failed);
        };
        if count == 0 {
            return Ok(all);
        }
        let Ok(()) = all.extend_from_slice(&buf[..count]) else {
            return Err(ReadErr::Memory);
        };
    }
    Ok(all)
}

/// Puts all of the bytes; what a put leaves over is put again.
pub(crate) fn put_all<K: Sink>(sink: &mut K, bytes: &[u8]) -> Result<(), PutErr>
    ensures faults { PutCounts (K.faults sink.old) (K.faults sink.new) result }
    ensures all { OnOk result (Gained (K.held sink.old) (K.held sink.new) bytes.now) }
    ensures start { OnErr result (GainedStart (K.held sink.old) (K.held sink.new) bytes.now) }
{
    let mut at = 0;
    while at < bytes.len() {
        let count = sink.put(&bytes[at..])?;
        if count == 0 {
            return Err(PutErr::Failed);
        }
        at += count;
    }
    Ok(())
}
