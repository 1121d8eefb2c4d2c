//! The limits of a script.

/// The limits that a script is read under, those of the world that it is for.
#[derive(Clone, Copy, Debug, PartialEq, Eq)]
pub struct Limits {
    /// How many lanes there are, 1 to 8.
    pub lanes: u32,
    /// How many cells an object has, 1 to 64.
    pub slots: u32,
    /// How many strong pointers a lane has, 1 to 1,024.
    pub strong: u32,
    /// How many markers there are, 1 to 16.
    pub markers: u32,
}
