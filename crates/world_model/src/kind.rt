//! What an object is made of.

/// The number of a class, below 4,096. The class `Object` has number 0.
#[derive(Clone, Copy, Debug, PartialEq, Eq, PartialOrd, Ord)]
pub struct ClassId(pub u32);

/// When an object that was begun may be finished.
#[derive(Clone, Copy, Debug, PartialEq, Eq)]
pub enum Ready {
    /// After this many refused polls, 0 to 100.
    After(u32),
    /// Never: the object is asked for ever.
    Never,
}

/// What an object is made of. Its reference slots are those from 0 to `refs - 1`, its plain slots
/// the last `plain` ones of the shape; together they are at most the slots of the shape.
#[derive(Clone, Copy, Debug, PartialEq, Eq)]
pub struct Kind {
    pub class: ClassId,
    /// How many of its cells are references, which the collector follows.
    pub refs: u32,
    /// How many of its cells are numbers or weak pointers, which the collector does not follow.
    pub plain: u32,
    pub ready: Ready,
}
