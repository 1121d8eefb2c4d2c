//! Why a table of classes is not changed.

/// Why a table of classes refuses a change.
#[derive(Clone, Copy, Debug, PartialEq, Eq)]
pub enum SchemaErr {
    /// A class or a field has this name. It came with this line; `Object` came with line 0.
    NameTaken(u32),
    /// No class has the name of the parent.
    NoParent,
    /// A field does not fit: so many slots are used, and so many were asked for.
    TooManySlots { used: u32, asked: u32 },
    /// The class has children already.
    HasChildren,
    /// There are 4,096 classes already.
    TooManyClasses,
}

/// Why a class or a field was not added.
#[derive(Clone, Copy, Debug, PartialEq, Eq)]
pub enum AddErr {
    /// The table refuses it.
    Schema(SchemaErr),
    /// There was no memory.
    Memory,
}
