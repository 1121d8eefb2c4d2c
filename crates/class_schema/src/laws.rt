//! What is true of each table that a [`ClassTable`](crate::ClassTable) can be seen as.
ghost use Rattle.class_schema.specs.Laws.{LaidOut, FieldsInherited, SlotsInherited, AncestryTested};

/// The slots of a class's elements are different ones: those of references are the slots below
/// `refs` of its kind, all others the last `plain` slots, with none left out.
pub fn laid_out()
    ensures { LaidOut }
{}

/// A class has its parent's fields, and then its own.
pub fn fields_inherited()
    ensures { FieldsInherited }
{}

/// A field of a class has the same slots in each class below it.
pub fn slots_inherited()
    ensures { SlotsInherited }
{}

/// The test of ancestry is true exactly of the class itself and its ancestors.
pub fn ancestry_tested()
    ensures { AncestryTested }
{}
