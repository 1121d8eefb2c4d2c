//! The outside of a program that plays scripts: where the bytes of a script come from, where the
//! text of the replies goes to, and what is told when threads take their turns.
//!
//! It stands on nothing. A layer above is written over the traits `Source`, `Sink` and `Pace`; what
//! it says of bytes holds where a source tells what it has left and a sink what it holds. Both count
//! their faults, so that "a fault came" is said of the count. `SureSource` and `SureSink` keep their
//! bytes in memory and never fail. `MemSource` and `MemSink` keep them in memory too, and fail at the
//! calls that are listed, and at no others.
#![tactic(auto)]

mod calls;
mod mem_sink;
mod mem_source;
mod pace;
mod sink;
mod source;

pub use mem_sink::MemSink;
pub use mem_source::MemSource;
pub use pace::{NoPace, Pace, Turn};
pub use sink::{PutErr, Sink, SureSink};
pub use source::{Failed, Source, SureSource};
