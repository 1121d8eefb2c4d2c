//! How objects are named: for ever, for the length of a frame, and weakly.

/// The name of an object, which no other object ever has. It is printed as `lane:count`.
///
/// Names are ordered by lane, and then by count.
#[derive(Clone, Copy, Debug, PartialEq, Eq, PartialOrd, Ord)]
pub struct Name {
    /// The lane that made the object.
    pub lane: u32,
    /// Which of the lane's objects it is, from 1, in the order in which they were made.
    pub count: u64,
}

/// An object as code holds it while a frame is open: its index in the object array, and its name.
#[derive(Clone, Copy, Debug, PartialEq, Eq)]
pub struct Ref {
    /// The index of the object's item. A later object may get the index of a released one.
    pub index: u32,
    pub name: Name,
}

/// A weak pointer: the index of an object, and the serial number that the object was given with
/// its first weak pointer. It keeps nothing alive, and it is valid in any frame.
///
/// `Weak { index: 0, serial: 0 }` is the empty weak pointer, which gives no object.
#[derive(Clone, Copy, Debug, PartialEq, Eq)]
pub struct Weak {
    pub index: u32,
    /// `count * 16 + lane`, where the lane drew its `count`-th serial, from 1; 0 for none.
    pub serial: u32,
}
