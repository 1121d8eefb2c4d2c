//! Laws of the definitions.
ghost use Rattle.level_script.specs.Following.{FaultByLines, QuietLines, BoundByLines, WeakByLines};
ghost use Rattle.level_script.specs.Reading.{FirstFault, OneOutcome};

/// Each input is a script, or has a first fault, and not both.
pub fn one_outcome()
    ensures { OneOutcome }
{}

/// The fault of an input is the first that it has: the input is too long, or the lines before the
/// faulty one are read, and that line has the cause.
pub fn first_fault()
    ensures { FirstFault }
{}

/// The fault of a line depends on the lines up to it alone.
pub fn fault_by_lines()
    ensures { FaultByLines }
{}

/// Comments and blank lines do nothing but that they are counted: an input is what its other lines
/// are, with the numbers that they have.
pub fn quiet_lines()
    ensures { QuietLines }
{}

/// A variable is bound exactly where a line of its lane binds it, and no line behind that closes the
/// lane's frame.
pub fn bound_by_lines()
    ensures { BoundByLines }
{}

/// A weak variable is bound exactly where a line of any lane binds it, and stays so.
pub fn weak_by_lines()
    ensures { WeakByLines }
{}
