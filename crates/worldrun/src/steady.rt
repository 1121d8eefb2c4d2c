//! Readers and writers that tell their bytes always or never.
ghost use Rattle.std.specs.Prelude.{◌≡◌, Some, None, refl};
ghost use Rattle.worldrun.specs.Told.{some_steady, append_steady};

use std::alloc::Allocator;
use std::io::{BufWriter, Print, Printer, Read, Stderr, Stdin, Write};

/// A reader that tells the bytes that it has left always or never.
///
/// A source that tells no bytes now tells none later. Of a reader the kit does not say so.
pub trait SteadyRead: Read {
    /// Where one state tells no bytes, none does.
    ghost steady: { (r s : Self) → Self.remaining r ≡ None → Self.remaining s ≡ None };
}

/// A writer that tells the bytes that it holds always or never.
pub trait SteadyWrite: Write {
    /// Where one state tells no bytes, none does.
    ghost steady: { (r s : Self) → Self.contents r ≡ None → Self.contents s ≡ None };
}

impl SteadyRead for Stdin {
    ghost steady = { λ r s none. refl };
}

impl SteadyRead for &[u8] {
    ghost steady = { λ r s none. some_steady r.now (Some s.now) none };
}

impl<R: SteadyRead> SteadyRead for &mut R {
    ghost steady = { λ r s none. R.steady r.now s.now none };
}

impl SteadyWrite for Stderr {
    ghost steady = { λ r s none. refl };
}

impl<P: Print> SteadyWrite for Printer<'_, P> {
    ghost steady = { λ r s none. refl };
}

impl<A: Allocator> SteadyWrite for Vec<u8, A> {
    ghost steady = { λ v w none. some_steady v.items (Some w.items) none };
}

impl<W: SteadyWrite> SteadyWrite for &mut W {
    ghost steady = { λ r s none. W.steady r.now s.now none };
}

impl<W: SteadyWrite + Drop, A: Allocator> SteadyWrite for BufWriter<W, A> {
    ghost steady = { λ r s none. append_steady (W.contents r.inner) (W.contents s.inner) r.buf.items s.buf.items (W.steady r.inner s.inner) none };
}
