//! The root set, and the barrier at a store into it.
ghost use Rattle.std.specs.Prelude.{◌≡◌, ◌∷◌, [], ◌++◌, ◌<◌, get_or, length, false};
ghost use Rattle.std.proofs.Math.ListN.{set};
ghost use Rattle.heap_plain.specs.Types.{Lane};
ghost use Rattle.heap_plain.specs.Types.act;
ghost use Rattle.heap_plain.specs.Parts.{is_marking};

use world_model::{Diary, Name, Pass, Phase};

/// Whether a collection marks.
pub(crate) fn is_marking(phase: Phase) -> bool
    ensures { result ≡ is_marking phase }
{
    match phase {
        Phase::Marking => true,
        _ => false,
    }
}

/// Sets the root bit at an index, notes it, and tells what it was.
pub(crate) fn store(
    roots: &mut Vec<bool>,
    index: usize,
    lane: u32,
    at: Name,
    on: bool,
    diary: &mut Diary,
) -> bool
    requires { index < length roots.old.items }
    ensures bits { roots.new.items ≡ set roots.old.items index on }
    ensures was { result ≡ get_or roots.old.items index false }
    ensures entry { diary.new ≡ diary.old ++ record { pass = Lane lane; act = act.Root at on result } ∷ [] }
{
    let old = roots[index];
    roots[index] = on;
    diary.root(Pass::Lane(lane), at, on, old);
    old
}
