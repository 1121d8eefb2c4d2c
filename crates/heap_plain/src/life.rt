//! Whether an index is used.

/// What stands at an index.
#[derive(Clone, Copy, Debug, PartialEq, Eq)]
pub(crate) enum Life {
    /// Nothing: the index is free.
    Free,
    /// An object that lives.
    Live,
    /// An object that a commit removed, and that is not begun.
    Removed,
    /// A removed object that was told to begin its destruction.
    Begun,
    /// A removed object that has finished its destruction, and that is not released.
    Finished,
}
