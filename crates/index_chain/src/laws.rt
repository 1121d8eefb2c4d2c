//! What is true of all chains.
ghost use Rattle.index_chain.specs.Laws.{OutsideStays, PartsStay};

/// A write to an item outside a chain leaves the chain's items, and leaves it whole.
pub fn outside_stays()
    ensures { OutsideStays }
{}

/// The first items of a chain and the rest have no common item, and are the chain's items together: what
/// `take_front` parts, `append` joins again.
pub fn parts_stay()
    ensures { PartsStay }
{}
