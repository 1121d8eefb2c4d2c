//! Where bytes go to.
ghost use Rattle.std.specs.Prelude.{◌≡◌, ℕ, ◌<◌, ◌≤◌, List, [], length, Option, Some, IfOk};
ghost use Rattle.play_io.specs.Faults.{Puts, PutCause};

use std::alloc::Global;
use std::marker::Model;

/// Why nothing was put.
#[derive(Clone, Copy, Debug, PartialEq, Eq)]
pub enum PutErr {
    /// The sink failed.
    Failed,
    /// There was no memory for the bytes.
    Memory,
}

/// Where bytes go to, in order, by pieces.
pub trait Sink {
    /// The bytes that it holds, where it tells them.
    ghost held: { Self → Option (List ℕ) };

    /// How often it has failed, up to the greatest u64.
    ghost faults: { Self → ℕ };

    /// Appends the first of `bytes`, which are not empty, and answers how many it took. After an
    /// error, and after `Ok(0)`, which is a fault too, it holds what it held.
    fn put(&mut self, bytes: &[u8]) -> Result<usize, PutErr>
        requires { 0 < length bytes.now }
        ensures bound { IfOk result (λ n. n ≤ length bytes.now) }
        ensures bytes { Puts (held self.old) (held self.new) bytes.now result }
        ensures cause { PutCause (faults self.old) (faults self.new) result };
}

/// Memory that takes bytes by pieces. It never fails, but there may be no memory. Contracts see it
/// as the bytes that it holds.
#[derive(Drop)]
pub struct SureSink {
    bytes: Vec<u8>,
    piece: u32,
}

impl Model for SureSink {
    ghost use Rattle.std.specs.Prelude.{ℕ, List, ◌<◌};

    ghost Value = { List ℕ };

    ghost view = { λ s. s.bytes.items };

    ghost invariant = { λ s. 0 < s.piece };
}

impl SureSink {
    /// A sink that holds nothing. Each call takes the lesser of `piece`, at least 1, and what it is
    /// given.
    pub fn new(alloc: Global, piece: u32) -> SureSink
        requires { 0 < piece }
        ensures { result ≡ [] }
    {
        SureSink {
            bytes: Vec::new(alloc),
            piece,
        }
    }

    /// The bytes that it holds, in the order in which they came.
    pub fn bytes(&self) -> &[u8]
        ensures { result.now ≡ self.now }
    {
        self.bytes.as_slice()
    }
}

impl Sink for SureSink {
    ghost held = { λ s. Some s };

    ghost faults = { λ _. 0 };

    fn put(&mut self, bytes: &[u8]) -> Result<usize, PutErr> {
        let count = bytes.len().min(self.piece as usize);
        match self.bytes.extend_from_slice(&bytes[..count]) {
            Ok(()) => Ok(count),
            Err(_) => Err(PutErr::Memory),
        }
    }
}
