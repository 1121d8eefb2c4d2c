//! Laws of whole scripts, each the contract of a function that does nothing.
ghost use Rattle.world_play.specs.Laws.{OneText};

/// However a legal history plays a whole script, its text is the outcome of the script, which
/// knows no slice, no note and no step.
pub fn one_text()
    ensures { OneText }
{}
