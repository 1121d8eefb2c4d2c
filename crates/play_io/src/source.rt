//! Where bytes come from.
ghost use Rattle.std.specs.Prelude.{◌≡◌, ℕ, ◌<◌, ◌≤◌, List, length, Option, Some, IfOk, drop};
ghost use Rattle.play_io.specs.Faults.{Takes, TakeCause};

use std::marker::Model;

/// The source failed.
#[derive(Clone, Copy, Debug, PartialEq, Eq)]
pub struct Failed;

/// Where bytes come from, in order, by pieces.
pub trait Source {
    /// The bytes that are left, where it tells them.
    ghost left: { Self → Option (List ℕ) };

    /// How often it has failed, up to the greatest u64.
    ghost faults: { Self → ℕ };

    /// Fills the front of `buf`, which is not empty, with the next bytes, and answers how many
    /// they are. `Ok(0)` is the end.
    fn take(&mut self, buf: &mut [u8]) -> Result<usize, Failed>
        requires { 0 < length buf.old }
        ensures bound { IfOk result (λ n. n ≤ length buf.old) }
        ensures bytes { Takes (left self.old) (left self.new) result buf.new }
        ensures cause { TakeCause (faults self.old) (faults self.new) result };
}

/// Bytes in memory, given by pieces. It never fails. Contracts see it as the bytes that are left.
#[derive(Drop)]
pub struct SureSource {
    bytes: Vec<u8>,
    at: usize,
    piece: u32,
}

impl Model for SureSource {
    ghost use Rattle.std.specs.Prelude.{ℕ, List, drop, length, ◌<◌, ◌≤◌};

    ghost Value = { List ℕ };

    ghost view = { λ s. drop s.at s.bytes.items };

    ghost invariant = { λ s. (s.at ≤ length s.bytes.items) × (0 < s.piece) };
}

impl SureSource {
    /// A source of these bytes. Each call gives the least of `piece`, at least 1, the length of the
    /// buffer and what is left.
    pub fn new(bytes: Vec<u8>, piece: u32) -> SureSource
        requires { 0 < piece }
        ensures { result ≡ bytes.items }
    {
        SureSource {
            bytes,
            at: 0,
            piece,
        }
    }
}

impl Source for SureSource {
    ghost left = { λ s. Some s };

    ghost faults = { λ _. 0 };

    fn take(&mut self, buf: &mut [u8]) -> Result<usize, Failed> {
        let left = self.bytes.len() - self.at;
        let count = left.min(buf.len()).min(self.piece as usize);
        let end = self.at + count;
        buf[..count].copy_from_slice(&self.bytes[self.at..end]);
        self.at = end;
        Ok(count)
    }
}
