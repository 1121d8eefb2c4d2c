//! Marking the units to which the reference cells of a unit and the root bits lead.
ghost use Rattle.std.specs.Prelude.{◌≡◌, ◌+◌, ◌*◌, ◌<◌, ◌≤◌, ◌^◌, IsSome, Some, get_or, length, ℕ};
ghost use Rattle.heap_plain.specs.Types.{Collector};
ghost use Rattle.heap_plain.specs.Parts.{name_at, first_at, kind_at, target_at};
ghost use Rattle.heap_plain.specs.Painted.{IsWorklist};
ghost use Rattle.heap_plain.specs.Listing.{chained};
ghost use Rattle.heap_plain.specs.Shading.{InRoots, InRow, InStrong, InUnit, Shades, root_bit};

use crate::colours::Colours;
use crate::marking::named;
use world_model::{Diary, Kind, Name, Pass};

/// Marks the unit of the object at an index, if there is one and its unit is white, and notes it.
fn shade(
    names: &[Option<Name>],
    firsts: &[u32],
    target: Option<u32>,
    pass: Pass,
    colours: &mut Colours,
    diary: &mut Diary,
)
    requires target { (t : ℕ) → target ≡ Some t → t < length firsts.now }
    requires heads { (i : ℕ) → first_at firsts.now i < length colours.old.marked }
    requires named { (t : ℕ) → target ≡ Some t → IsSome (name_at names.now (first_at firsts.now t)) }
    requires fits { IsWorklist colours.old }
    ensures { Shades names.now firsts.now (λ t. target ≡ Some t) pass colours.old colours.new diary.old diary.new }
{
    let Some(index) = target else {
        return;
    };
    let head = firsts[index as usize];
    if colours.is_marked(head) {
        return;
    }
    colours.mark(head);
    diary.kept(pass, named(names, head as usize));
}

/// Marks the units to which `count` cells lead, of which the first is at the place `row`.
fn shade_row(
    names: &[Option<Name>],
    firsts: &[u32],
    targets: &[Option<u32>],
    row: usize,
    count: usize,
    pass: Pass,
    colours: &mut Colours,
    diary: &mut Diary,
)
    requires row { row + count ≤ length targets.now }
    requires target { (t : ℕ) → InRow targets.now row count t → t < length firsts.now }
    requires heads { (i : ℕ) → first_at firsts.now i < length colours.old.marked }
    requires named { (t : ℕ) → InRow targets.now row count t → IsSome (name_at names.now (first_at firsts.now t)) }
    requires fits { IsWorklist colours.old }
    ensures { Shades names.now firsts.now (InRow targets.now row count) pass colours.old colours.new diary.old diary.new }
{
    for slot in 0..count {
        let target = targets[row + slot];
        shade(names, firsts, target, pass, colours, diary);
    }
}

/// Marks the units to which the reference cells of the `count` members of a unit lead, of which the
/// first is at `head`. Each object has a row of `slots` cells.
pub(crate) fn shade_unit(
    names: &[Option<Name>],
    firsts: &[u32],
    next: &[u32],
    kinds: &[Kind],
    targets: &[Option<u32>],
    slots: usize,
    head: u32,
    count: u32,
    pass: Pass,
    colours: &mut Colours,
    diary: &mut Diary,
)
    requires chain { (k : ℕ) → k < count → chained next.now head k < length next.now }
    requires kinds { length next.now ≤ length kinds.now }
    requires rows { length next.now * slots ≤ length targets.now }
    requires fit { (i : ℕ) → (kind_at kinds.now i).refs ≤ slots }
    requires target { (i slot t : ℕ) → slot < slots → target_at slots targets.now i slot ≡ Some t → t < length firsts.now }
    requires heads { (i : ℕ) → first_at firsts.now i < length colours.old.marked }
    requires named { (t : ℕ) → InUnit kinds.now slots targets.now next.now head count t → IsSome (name_at names.now (first_at firsts.now t)) }
    requires fits { IsWorklist colours.old }
    ensures { Shades names.now firsts.now (InUnit kinds.now slots targets.now next.now head count) pass colours.old colours.new diary.old diary.new }
{
    let mut index = head;
    for k in 0..count {
        let _ = k;
        let row = index as usize * slots;
        let refs = kinds[index as usize].refs as usize;
        shade_row(names, firsts, targets, row, refs, pass, colours, diary);
        index = next[index as usize];
    }
}

/// The index, if its root bit is set.
fn root_bit(roots: &[bool], index: usize) -> Option<u32>
    requires inside { index < length roots.now }
    requires few { index < 2 ^ 32 }
    ensures { result ≡ root_bit roots.now index }
{
    if roots[index] {
        Some(index as u32)
    } else {
        None
    }
}

/// Marks the units of all rooted objects.
pub(crate) fn shade_roots(
    names: &[Option<Name>],
    firsts: &[u32],
    roots: &[bool],
    colours: &mut Colours,
    diary: &mut Diary,
)
    requires firsts { length firsts.now ≡ length roots.now }
    requires few { length roots.now < 2 ^ 32 }
    requires heads { (i : ℕ) → first_at firsts.now i < length colours.old.marked }
    requires named { (t : ℕ) → InRoots roots.now (length roots.now) t → IsSome (name_at names.now (first_at firsts.now t)) }
    requires fits { IsWorklist colours.old }
    ensures { Shades names.now firsts.now (InRoots roots.now (length roots.now)) Collector colours.old colours.new diary.old diary.new }
{
    for i in 0..roots.len() {
        let root = root_bit(roots, i);
        shade(names, firsts, root, Pass::Collector, colours, diary);
    }
}

/// Marks the units of all objects that strong pointers name. Each lane has a row of `each` of them.
pub(crate) fn shade_strong(
    names: &[Option<Name>],
    firsts: &[u32],
    strong: &[Option<u32>],
    lanes: usize,
    each: usize,
    colours: &mut Colours,
    diary: &mut Diary,
)
    requires rows { lanes * each ≤ length strong.now }
    requires target { (t : ℕ) → InStrong strong.now each lanes t → t < length firsts.now }
    requires heads { (i : ℕ) → first_at firsts.now i < length colours.old.marked }
    requires named { (t : ℕ) → InStrong strong.now each lanes t → IsSome (name_at names.now (first_at firsts.now t)) }
    requires fits { IsWorklist colours.old }
    ensures { Shades names.now firsts.now (InStrong strong.now each lanes) Collector colours.old colours.new diary.old diary.new }
{
    for lane in 0..lanes {
        let row = lane * each;
        shade_row(
            names,
            firsts,
            strong,
            row,
            each,
            Pass::Collector,
            colours,
            diary,
        );
    }
}
