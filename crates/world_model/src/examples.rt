//! Worked histories, each the contract of a function that does nothing: what is legal, and what is
//! refused.
ghost use Rattle.world_model.specs.Sizes.{level, small};
ghost use Rattle.world_model.specs.Histories.{Legal};
ghost use Rattle.world_model.specs.Examples.{smallest, busy, GarbageStays, AreSharp, Refusals};
ghost use Rattle.world_model.specs.Edges.{Edges};
ghost use Rattle.world_model.specs.Partings.{singles_removed, pair_apart, garbage_kept, PartingsShow, PartingRefusals};

/// The history of the smallest script, in shape [`crate::Level`]: an object is made and rooted,
/// and a collection keeps it.
pub fn smallest_is_legal()
    ensures { Legal level smallest }
{}

/// A busy history in shape [`crate::Small`]: a store while a collection marks, an object that a
/// weak pointer saves, a cluster that is removed, begun, polled, finished and released, and a
/// second collection, whose marker follows a reference.
pub fn busy_is_legal()
    ensures { Legal small busy }
{}

/// An object that no root reaches at any moment of a collection, that no lane holds and that no
/// store names may all the same outlive it: a marker follows a reference to it from garbage that a
/// lane met by a weak pointer and stored in other garbage.
pub fn garbage_may_stay()
    ensures { GarbageStays }
{}

/// What worked histories show of the laws of [`crate::follows`]: an object may be begun and not
/// finished, or finished before another of its unit; a white unit may be reached where a root unit
/// is not marked; a unit of the world may be white; and a pair may give none.
pub fn laws_are_sharp()
    ensures { AreSharp }
{}

/// Entries that no legal history goes on with.
pub fn wrong_entries_are_refused()
    ensures { Refusals }
{}

/// The sharpest edges of the rules: on each, an entry that may come next, and its neighbour that
/// may not.
pub fn edges_are_sharp()
    ensures { Edges }
{}

/// A cluster of three in shape [`crate::Small`] that is taken apart: a collection keeps the one
/// member that is rooted, and removes the two others.
pub fn parting_is_legal()
    ensures { Legal small singles_removed }
{}

/// A unit of two in shape [`crate::Small`] that is not taken apart while a collection marks, and is
/// after its commit.
pub fn late_parting_is_legal()
    ensures { Legal small pair_apart }
{}

/// An object in shape [`crate::Small`] that is marked as garbage: its weak pointer gives none, and a
/// collection keeps it, for a strong pointer names it.
pub fn garbage_is_legal()
    ensures { Legal small garbage_kept }
{}

/// What these show: members alone, of which a collection keeps the one that is rooted; and a weak
/// pointer that gives none though its object lives.
pub fn partings_show()
    ensures { PartingsShow }
{}

/// Entries on units taken apart and on garbage that no legal history goes on with.
pub fn wrong_partings_are_refused()
    ensures { PartingRefusals }
{}
