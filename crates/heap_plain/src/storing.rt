//! References as indexes, and the barrier at a store of one.
ghost use Rattle.std.specs.Prelude.{◌≡◌, ◌<◌, IfSome, IsSome, Some, get_or, length, option_map, true, ℕ};
ghost use Rattle.world_model.specs.Engines.{name_of};
ghost use Rattle.heap_plain.specs.Parts.{name_at, first_at};
ghost use Rattle.heap_plain.specs.Shading.{MarksIf, must_shade, head_of, shade_notes, rooting};
ghost use Rattle.heap_plain.specs.Storing.{Refers};

use crate::colours::Colours;
use crate::marking::named;
use crate::rooting::is_marking;
use world_model::{Diary, Name, Pass, Phase, Ref};

/// The name behind a reference, if there is one.
pub(crate) fn name_of(to: Option<Ref>) -> Option<Name>
    ensures { result ≡ name_of to }
{
    match to {
        Some(to) => Some(to.name),
        None => None,
    }
}

/// The index behind a reference, if there is one.
pub(crate) fn index_of(to: Option<Ref>) -> Option<u32>
    ensures { result ≡ option_map (λ r. r.index) to }
{
    match to {
        Some(to) => Some(to.index),
        None => None,
    }
}

/// A reference to the object at an index, if there is one.
pub(crate) fn referred(names: &[Option<Name>], target: Option<u32>) -> Option<Ref>
    requires { (t : ℕ) → target ≡ Some t → IsSome (name_at names.now t) }
    ensures { Refers names.now target result }
{
    match target {
        Some(index) => Some(Ref {
            index,
            name: named(names, index as usize),
        }),
        None => None,
    }
}

/// What is stored into the root set where the root bit of an object is set to `on`.
pub(crate) fn rooting(on: bool, at: Ref) -> Option<Ref>
    ensures { result ≡ rooting on at }
{
    if on { Some(at) } else { None }
}

/// Marks the unit of an object to which a lane is to store a reference, where a collection marks and
/// the unit is white, and notes it.
pub(crate) fn shade_target(
    phase: Phase,
    to: Option<Ref>,
    lane: u32,
    firsts: &[u32],
    colours: &mut Colours,
    diary: &mut Diary,
)
    requires index { IfSome to (λ r. r.index < length firsts.now) }
    requires heads { (i : ℕ) → first_at firsts.now i < length colours.old.marked }
    requires room { must_shade phase firsts.now colours.old.marked to ≡ true → length colours.old.listed < length colours.old.marked }
    ensures { MarksIf (must_shade phase firsts.now colours.old.marked to) (head_of firsts.now to) (shade_notes lane to) colours.old colours.new diary.old diary.new }
{
    let Some(target) = to else {
        return;
    };
    let head = firsts[target.index as usize];
    if !is_marking(phase) || colours.is_marked(head) {
        return;
    }
    colours.mark(head);
    diary.kept(Pass::Lane(lane), target.name);
}
