//! Bytes in memory, of which some calls fail.
ghost use Rattle.std.specs.Prelude.{◌≡◌, ℕ, ◌<◌, ◌≤◌, ◌++◌, ◌↔◌, length, take, drop, Some, IfOk, IsErr, OnErr};
ghost use Rattle.play_io.specs.Faults.{Takes, TakeCause};
ghost use Rattle.play_io.specs.Memory.{uncalled, FailsNext, given_count, after_take};

use crate::calls::Calls;
use crate::source::{Failed, Source};
use std::marker::Model;

/// Bytes in memory, given by pieces. The calls whose numbers are listed fail, and no others.
///
/// Contracts see it as the bytes that are left, with its piece, its list, and its counts of calls
/// and faults. The count of calls stays at the greatest u64; the list has no number above the
/// greatest u32, so that no call after that one fails.
#[derive(Drop)]
pub struct MemSource {
    bytes: Vec<u8>,
    at: usize,
    piece: u32,
    calls: Calls,
}

impl Model for MemSource {
    ghost use Rattle.std.specs.Prelude.{drop, length, ◌<◌, ◌≤◌};
    ghost use Rattle.play_io.specs.Memory.{MemState};

    ghost Value = { MemState };

    ghost view = { λ s. record { bytes = drop s.at s.bytes.items; piece = s.piece; fails = s.calls.fails.items; calls = s.calls.made; faults = s.calls.faults } };

    ghost invariant = { λ s. (s.at ≤ length s.bytes.items) × (0 < s.piece) };
}

impl MemSource {
    /// A source of these bytes. Each call gives the least of `piece`, at least 1, the length of the
    /// buffer and what is left; but the calls whose numbers, from 1, are in `fails` fail. These may
    /// come in any order and more than once.
    pub fn new(bytes: Vec<u8>, piece: u32, fails: Vec<u32>) -> MemSource
        requires { 0 < piece }
        ensures { result ≡ uncalled bytes.items piece fails.items }
    {
        MemSource {
            bytes,
            at: 0,
            piece,
            calls: Calls::new(fails),
        }
    }

    /// How many calls there were.
    pub fn calls(&self) -> u64
        ensures { result ≡ self.now.calls }
    {
        self.calls.made
    }

    /// How many of them failed.
    pub fn faults(&self) -> u64
        ensures { result ≡ self.now.faults }
    {
        self.calls.faults
    }
}

impl Source for MemSource {
    ghost left = { λ s. Some s.bytes };

    ghost faults = { λ s. s.faults };

    fn take(&mut self, buf: &mut [u8]) -> Result<usize, Failed>
        requires { 0 < length buf.old }
        ensures bound { IfOk result (λ n. n ≤ length buf.old) }
        ensures bytes { Takes (Some self.old.bytes) (Some self.new.bytes) result buf.new }
        ensures cause { TakeCause self.old.faults self.new.faults result }
        ensures fails { IsErr result ↔ FailsNext self.old }
        ensures count { IfOk result (λ n. n ≡ given_count self.old (length buf.old)) }
        ensures filled { IfOk result (λ n. buf.new ≡ take n self.old.bytes ++ drop n buf.old) }
        ensures unfilled { OnErr result (buf.new ≡ buf.old) }
        ensures after { self.new ≡ after_take self.old result }
    {
        if self.calls.next() {
            return Err(Failed);
        }
        let left = self.bytes.len() - self.at;
        let count = left.min(buf.len()).min(self.piece as usize);
        let end = self.at + count;
        buf[..count].copy_from_slice(&self.bytes[self.at..end]);
        self.at = end;
        Ok(count)
    }
}
