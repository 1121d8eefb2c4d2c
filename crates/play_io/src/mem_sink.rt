//! Memory that takes bytes, of which some calls fail.
ghost use Rattle.std.specs.Prelude.{◌≡◌, ℕ, ◌<◌, ◌≤◌, [], ◌↔◌, min, length, Some, IfOk};
ghost use Rattle.play_io.specs.Faults.{Puts, PutCause};
ghost use Rattle.play_io.specs.Memory.{uncalled, FailsNext, after_put};

use crate::calls::Calls;
use crate::sink::{PutErr, Sink};
use std::alloc::Global;
use std::marker::Model;

/// Memory that takes bytes by pieces. The calls whose numbers are listed fail, and no others; but
/// of the others there may be some for which there is no memory.
///
/// Contracts see it as the bytes that it holds, with its piece, its list, and its counts of calls
/// and faults. The count of calls stays at the greatest u64; the list has no number above the
/// greatest u32, so that no call after that one fails.
#[derive(Drop)]
pub struct MemSink {
    bytes: Vec<u8>,
    piece: u32,
    calls: Calls,
}

impl Model for MemSink {
    ghost use Rattle.std.specs.Prelude.{◌<◌};
    ghost use Rattle.play_io.specs.Memory.{MemState};

    ghost Value = { MemState };

    ghost view = { λ s. record { bytes = s.bytes.items; piece = s.piece; fails = s.calls.fails.items; calls = s.calls.made; faults = s.calls.faults } };

    ghost invariant = { λ s. 0 < s.piece };
}

impl MemSink {
    /// A sink that holds nothing. Each call takes the lesser of `piece`, at least 1, and what it is
    /// given; but the calls whose numbers, from 1, are in `fails` fail. These may come in any order
    /// and more than once.
    pub fn new(alloc: Global, piece: u32, fails: Vec<u32>) -> MemSink
        requires { 0 < piece }
        ensures { result ≡ uncalled [] piece fails.items }
    {
        MemSink {
            bytes: Vec::new(alloc),
            piece,
            calls: Calls::new(fails),
        }
    }

    /// The bytes that it holds, in the order in which they came.
    pub fn bytes(&self) -> &[u8]
        ensures { result.now ≡ self.now.bytes }
    {
        self.bytes.as_slice()
    }

    /// How many calls there were.
    pub fn calls(&self) -> u64
        ensures { result ≡ self.now.calls }
    {
        self.calls.made
    }

    /// How many of them failed.
    pub fn faults(&self) -> u64
        ensures { result ≡ self.now.faults }
    {
        self.calls.faults
    }
}

impl Sink for MemSink {
    ghost held = { λ s. Some s.bytes };

    ghost faults = { λ s. s.faults };

    fn put(&mut self, bytes: &[u8]) -> Result<usize, PutErr>
        requires { 0 < length bytes.now }
        ensures bound { IfOk result (λ n. n ≤ length bytes.now) }
        ensures bytes { Puts (Some self.old.bytes) (Some self.new.bytes) bytes.now result }
        ensures cause { PutCause self.old.faults self.new.faults result }
        ensures fails { (result ≡ Err PutErr.Failed) ↔ FailsNext self.old }
        ensures count { IfOk result (λ n. n ≡ min self.old.piece (length bytes.now)) }
        ensures after { self.new ≡ after_put self.old bytes.now result }
    {
        if self.calls.next() {
            return Err(PutErr::Failed);
        }
        let count = bytes.len().min(self.piece as usize);
        match self.bytes.extend_from_slice(&bytes[..count]) {
            Ok(()) => Ok(count),
            Err(_) => Err(PutErr::Memory),
        }
    }
}
