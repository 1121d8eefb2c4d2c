//! Laws of histories and of reachability, each the contract of a function that does nothing.
ghost use Rattle.world_model.specs.Reach.{Graph};
ghost use Rattle.world_model.specs.Reached.{ReachBySteps};
ghost use Rattle.world_model.specs.Laws.{HistoriesJoin, QuietIsExact, CollectIsExact, ReachByWalks};

/// The world after two histories joined is what the second leaves from the first; and the whole is
/// legal exactly where both parts are.
pub fn after_append()
    ensures { HistoriesJoin }
{}

/// A collection during which nothing is made and no reference or root is written keeps the reached
/// units and no others.
pub fn quiet_is_exact()
    ensures { QuietIsExact }
{}

/// A whole collection in one call keeps the units that were reached when it began and no others.
pub fn collect_is_exact()
    ensures { CollectIsExact }
{}

/// The reached units have the root units, are closed under references, and lie in every set of
/// units of which both hold.
pub fn reach_by_walks()
    ensures { (g : Graph) → ReachByWalks g }
{}

/// Where objects have so many cells, a unit is reached exactly where as many steps from the root
/// units as there are units come to it: a test that a program can run.
pub fn reach_by_steps()
    ensures { ReachBySteps }
{}
