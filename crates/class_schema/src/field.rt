//! Fields.

use world_model::ClassId;

/// What the elements of a field are.
#[derive(Clone, Copy, Debug, PartialEq, Eq)]
pub enum FieldKind {
    /// References to objects of a class, or of one below it. The collector follows them.
    Ref(ClassId),
    /// Weak pointers.
    Weak,
    /// Numbers.
    Int,
}

/// A field, and where it lies. Element `i` of a field of references has slot `first + i`; element
/// `i` of any other field has slot `first - i`.
#[derive(Clone, Copy, Debug, PartialEq, Eq)]
pub struct Field {
    pub kind: FieldKind,
    /// The slot of element 0.
    pub first: u32,
    /// How many elements there are, 1 to 64.
    pub count: u32,
}
