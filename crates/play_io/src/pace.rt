//! When threads take their turns.

/// What is about to be done.
#[derive(Clone, Copy, Debug, PartialEq, Eq)]
pub enum Turn {
    /// A slice of a marker, where a whole collection runs on threads.
    Slice,
    /// A line of a parallel block.
    Line,
}

/// Something that is told before each turn, on the thread whose turn it is. It may wait there.
pub trait Pace: Sync {
    /// Says that `worker` is about to take a turn: before a slice the number of the marker, before
    /// a line that of the lane, or the number of lanes for the collector.
    fn turn(&self, worker: u32, at: Turn);
}

/// Threads run as they like.
#[derive(Clone, Copy, Debug, PartialEq, Eq)]
pub struct NoPace;

impl Pace for NoPace {
    fn turn(&self, worker: u32, at: Turn) {
        let _ = worker;
        let _ = at;
    }
}
