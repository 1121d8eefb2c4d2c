//! Who acts, and in which phase.

/// What the collector is about.
#[derive(Clone, Copy, Debug, PartialEq, Eq)]
pub enum Phase {
    /// No collection runs.
    Idle,
    /// A collection marks what it will keep.
    Marking,
    /// What a collection removed is being found.
    Gathering,
}

/// Who makes a call: a lane of the game, a marker, or the collector.
#[derive(Clone, Copy, Debug, PartialEq, Eq)]
pub enum Pass {
    /// A lane of the game, by its number below the shape's `LANES`.
    Lane(u32),
    /// A marker, by its number below the shape's `MARKERS`.
    Marker(u32),
    Collector,
}

/// Some of the passes.
#[derive(Clone, Copy, Debug, PartialEq, Eq)]
pub struct PassSet {
    /// Bit `i` stands for lane `i`.
    pub lanes: u32,
    /// Bit `i` stands for marker `i`.
    pub markers: u32,
    pub collector: bool,
}
