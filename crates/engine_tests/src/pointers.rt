//! Strong pointers, which keep objects, and weak ones, which keep none.
ghost use Rattle.std.specs.Prelude.{◌≡◌, ◌∷◌, [], ◌<◌, ◌≤◌, IfOk, OnOk, refl};
ghost use Rattle.world_model.specs.Histories.{after};
ghost use Rattle.heap_plain.specs.Types.{Lane};
ghost use Rattle.heap_plain.specs.Parts.{Holds};
ghost use Rattle.engine_tests.specs.Shapes.{single, single_is_lawful};

use crate::cells::chain;
use crate::heaps::{NOBODY, NOTHING, PLAIN, named};
use heap_plain::PlainHeap;
use std::alloc::Global;
use std::process::Abort;
use std::test::Fail;
use world_model::{
    Begin, Commit, Engine, Level, MarkStop, Marked, MemHooks, Name, Phase, Ref, SerialsSpent,
    Shape, Small, SweepStop, Swept, Weak,
};

/// The empty weak pointer.
const EMPTY: Weak = Weak {
    index: 0,
    serial: 0,
};

/// The pair of these numbers, whether an object has it or not.
fn pair(index: u32, serial: u32) -> Weak {
    Weak { index, serial }
}

/// The object of lane 0 with this count.
fn it(count: u64) -> Option<Name> {
    Some(named(count))
}

/// The name behind a reference, if there is one.
fn name_of(to: Option<Ref>) -> Option<Name> {
    match to {
        Some(to) => Some(to.name),
        None => None,
    }
}

/// The answer to who asks for the weak pointer of the object at an index, by its serial, or by how
/// many serials are spent.
fn answer(index: u32, serial: Result<u32, u32>) -> Result<Weak, SerialsSpent> {
    match serial {
        Ok(serial) => Ok(Weak { index, serial }),
        Err(made) => Err(SerialsSpent { made }),
    }
}

/// What lane 0 does in its open frame. `Make` makes the object with a count, and lets a strong pointer
/// name it; `Hold` lets a strong pointer name what a weak one gives; `Has` reads a strong pointer;
/// `Draw` asks for the weak pointer of what a strong one names; `Gives` resolves a weak pointer;
/// `Garbage` marks what a strong pointer names. Last stands the answer: for `Hold` what the pointer
/// named, for `Draw` the serial, or how many are spent.
#[derive(Clone, Copy)]
enum Step {
    Make(u32, u64),
    Hold(u32, Weak, Option<Name>),
    Has(u32, Option<Name>),
    Draw(u32, Result<u32, u32>),
    Gives(Weak, Option<Name>),
    Garbage(u32, bool),
}

/// An empty world.
fn empty<S: Shape>(alloc: Global) -> Result<PlainHeap<S>, Fail>
    ensures { IfOk result (λ h. (after h.history).opened ≡ []) }
{
    let heap = PlainHeap::<S>::new(alloc)?;
    Ok(heap)
}

/// Makes an object, and lets a strong pointer name it.
fn make(rt: &impl Abort, heap: &mut PlainHeap<Small>, h: u32, count: u64) -> Result<(), Fail>
    requires opened { (after heap.old.history).opened ≡ Lane 0 ∷ [] }
    ensures opened { OnOk result ((after heap.new.history).opened ≡ Lane 0 ∷ []) }
{
    let mut one = [NOTHING; 1];
    match heap.create(0, &[PLAIN; 1], &mut one) {
        Ok(()) => {}
        Err(_) => panic!(rt; "no room"),
    }
    assert_eq!(rt; one[0].name, named(count));
    assert!(rt; h < 4);
    heap.set_strong(0, h, Some(one[0]));
    Ok(())
}

/// Lets a strong pointer name what a weak one gives, and tells what it named.
fn hold(
    rt: &impl Abort,
    heap: &mut PlainHeap<Small>,
    h: u32,
    weak: Weak,
) -> Result<Option<Name>, Fail>
    requires opened { (after heap.old.history).opened ≡ Lane 0 ∷ [] }
    ensures opened { OnOk result ((after heap.new.history).opened ≡ Lane 0 ∷ []) }
{
    assert!(rt; h < 4);
    let to = heap.resolve(0, weak);
    let old = heap.set_strong(0, h, to);
    Ok(name_of(old))
}

/// The object that a strong pointer names.
fn target(rt: &impl Abort, heap: &mut PlainHeap<Small>, h: u32) -> Result<Ref, Fail>
    requires opened { (after heap.old.history).opened ≡ Lane 0 ∷ [] }
    ensures opened { OnOk result ((after heap.new.history).opened ≡ Lane 0 ∷ []) }
    ensures held { IfOk result (Holds heap.new 0) }
{
    assert!(rt; h < 4);
    match heap.get_strong(0, h) {
        Some(at) => Ok(at),
        None => panic!(rt; "it names no object"),
    }
}

/// Makes a step, and looks at its answer.
fn take(rt: &impl Abort, heap: &mut PlainHeap<Small>, step: Step) -> Result<(), Fail>
    requires opened { (after heap.old.history).opened ≡ Lane 0 ∷ [] }
    ensures opened { OnOk result ((after heap.new.history).opened ≡ Lane 0 ∷ []) }
{
    match step {
        Step::Make(h, count) => make(rt, heap, h, count)?,
        Step::Hold(h, weak, old) => {
            assert_eq!(rt; hold(rt, heap, h, weak)?, old);
        }
        Step::Has(h, name) => {
            assert!(rt; h < 4);
            assert_eq!(rt; name_of(heap.get_strong(0, h)), name);
        }
        Step::Draw(h, serial) => {
            let at = target(rt, heap, h)?;
            assert_eq!(rt; heap.weak_of(0, at), answer(at.index, serial));
        }
        Step::Gives(weak, name) => {
            assert_eq!(rt; name_of(heap.resolve(0, weak)), name);
        }
        Step::Garbage(h, old) => {
            let of = target(rt, heap, h)?;
            assert_eq!(rt; heap.mark_garbage(0, of), old);
        }
    }
    Ok(())
}

/// Makes these steps.
fn take_all(rt: &impl Abort, heap: &mut PlainHeap<Small>, steps: &[Step]) -> Result<(), Fail>
    requires opened { (after heap.old.history).opened ≡ Lane 0 ∷ [] }
    ensures opened { OnOk result ((after heap.new.history).opened ≡ Lane 0 ∷ []) }
{
    for n in 0..steps.len() {
        take(rt, heap, steps[n])?;
    }
    Ok(())
}

/// Makes these steps in a frame of lane 0, which finds this phase.
fn frame(
    rt: &impl Abort,
    heap: &mut PlainHeap<Small>,
    phase: Phase,
    steps: &[Step],
) -> Result<(), Fail>
    requires closed { (after heap.old.history).opened ≡ [] }
    ensures closed { OnOk result ((after heap.new.history).opened ≡ []) }
{
    assert_eq!(rt; heap.open_frame(0), phase);
    take_all(rt, heap, steps)?;
    heap.close_frame(0);
    Ok(())
}

/// Begins a collection.
fn begin<S: Shape>(rt: &impl Abort, heap: &mut PlainHeap<S>) -> Result<(), Fail>
    requires closed { (after heap.old.history).opened ≡ [] }
    ensures closed { OnOk result ((after heap.new.history).opened ≡ []) }
{
    assert_eq!(rt; heap.begin(), Begin::Started);
    Ok(())
}

/// Marks all that is reached, which is so many objects, and commits.
fn commit<S: Shape>(rt: &impl Abort, heap: &mut PlainHeap<S>, scanned: u32) -> Result<(), Fail>
    requires marker { 0 < S.sizes.markers }
    requires closed { (after heap.old.history).opened ≡ [] }
    ensures closed { OnOk result ((after heap.new.history).opened ≡ []) }
{
    let marked = Marked {
        scanned,
        stop: MarkStop::Idle,
    };
    assert_eq!(rt; heap.mark(0, 100000), marked);
    assert_eq!(rt; heap.commit(), Commit::Done);
    Ok(())
}

/// Finds what a collection removes, so many objects and 16 at most, and destroys it.
fn destroy<S: Shape>(rt: &impl Abort, heap: &mut PlainHeap<S>, removed: u32) -> Result<(), Fail>
    requires closed { (after heap.old.history).opened ≡ [] }
    ensures closed { OnOk result ((after heap.new.history).opened ≡ []) }
{
    let mut found = [NOBODY; 17];
    let mut hooks = MemHooks::new(0);
    heap.sweep(100000, &mut found);
    assert_eq!(rt; heap.left(), removed);
    heap.purge(&mut hooks, 100000);
    Ok(())
}

/// Runs a whole collection, which scans and removes so many objects.
fn collect<S: Shape>(
    rt: &impl Abort,
    heap: &mut PlainHeap<S>,
    scanned: u32,
    removed: u32,
) -> Result<(), Fail>
    requires marker { 0 < S.sizes.markers }
    requires closed { (after heap.old.history).opened ≡ [] }
    ensures closed { OnOk result ((after heap.new.history).opened ≡ []) }
{
    begin(rt, heap)?;
    commit(rt, heap, scanned)?;
    destroy(rt, heap, removed)
}

/// Lane 1 makes an object, which its first strong pointer is to name and which has lane 1's first
/// serial, and reads that pointer.
fn other_lane(rt: &impl Abort, heap: &mut PlainHeap<Small>) -> Result<(), Fail>
    requires closed { (after heap.old.history).opened ≡ [] }
    ensures closed { OnOk result ((after heap.new.history).opened ≡ []) }
{
    let mut one = [NOTHING; 1];
    assert_eq!(rt; heap.open_frame(1), Phase::Idle);
    match heap.create(1, &[PLAIN; 1], &mut one) {
        Ok(()) => {}
        Err(_) => panic!(rt; "no room"),
    }
    assert_eq!(rt; name_of(heap.set_strong(1, 0, Some(one[0]))), None);
    assert_eq!(rt; heap.weak_of(1, one[0]), Ok(pair(8, 17)));
    assert_eq!(rt;
        name_of(heap.get_strong(1, 0)),
        Some(Name { lane: 1, count: 1 })
    );
    heap.close_frame(1);
    Ok(())
}

#[test]
fn a_strong_pointer_keeps_what_it_names(rt: HostRuntime) -> Result<(), Fail> {
    let mut heap = empty::<Small>(rt.alloc())?;
    let made = [
        Step::Has(0, None),
        Step::Make(0, 1),
        Step::Make(1, 2),
        Step::Draw(1, Ok(16)),
        Step::Hold(3, pair(1, 16), None),
        Step::Has(0, it(1)),
        Step::Has(1, it(2)),
        Step::Has(2, None),
        Step::Has(3, it(2)),
        Step::Hold(3, EMPTY, it(2)),
        Step::Has(3, None),
    ];
    frame(&rt, &mut heap, Phase::Idle, &made)?;
    other_lane(&rt, &mut heap)?;
    collect(&rt, &mut heap, 3, 0)?;
    let cleared = [
        Step::Has(0, it(1)),
        Step::Gives(pair(8, 17), Some(Name { lane: 1, count: 1 })),
        Step::Hold(0, EMPTY, it(1)),
        Step::Hold(0, EMPTY, None),
    ];
    frame(&rt, &mut heap, Phase::Idle, &cleared)?;
    collect(&rt, &mut heap, 2, 1)?;
    let replaced = [Step::Gives(pair(1, 16), it(2)), Step::Make(1, 3)];
    frame(&rt, &mut heap, Phase::Idle, &replaced)?;
    collect(&rt, &mut heap, 2, 1)?;
    let left = [
        Step::Gives(pair(1, 16), None),
        Step::Gives(pair(8, 17), Some(Name { lane: 1, count: 1 })),
        Step::Has(1, it(3)),
    ];
    frame(&rt, &mut heap, Phase::Idle, &left)
}

#[test]
fn a_weak_pointer_keeps_nothing_and_gives_its_object_alone(rt: HostRuntime) -> Result<(), Fail> {
    let mut heap = empty::<Small>(rt.alloc())?;
    let made = [
        Step::Make(0, 1),
        Step::Draw(0, Ok(16)),
        Step::Draw(0, Ok(16)),
        Step::Gives(pair(0, 16), it(1)),
        Step::Make(0, 2),
        Step::Draw(0, Ok(32)),
        Step::Gives(pair(0, 16), it(1)),
        Step::Gives(pair(1, 32), it(2)),
    ];
    frame(&rt, &mut heap, Phase::Idle, &made)?;
    begin(&rt, &mut heap)?;
    let lives = [Step::Gives(pair(0, 16), it(1))];
    frame(&rt, &mut heap, Phase::Marking, &lives)?;
    commit(&rt, &mut heap, 1)?;
    let removed = [
        Step::Gives(pair(0, 16), None),
        Step::Gives(pair(1, 32), it(2)),
    ];
    frame(&rt, &mut heap, Phase::Gathering, &removed)?;
    destroy(&rt, &mut heap, 1)?;
    let forged = [
        Step::Gives(pair(0, 16), None),
        Step::Gives(EMPTY, None),
        Step::Gives(pair(0, 31), None),
        Step::Gives(pair(0, 4294967295), None),
        Step::Gives(pair(1, 32), it(2)),
        Step::Gives(pair(1, 0), None),
        Step::Gives(pair(1, 16), None),
        Step::Gives(pair(1, 31), None),
        Step::Gives(pair(1, 33), None),
        Step::Gives(pair(1, 4294967295), None),
        Step::Gives(pair(15, 0), None),
        Step::Gives(pair(15, 32), None),
        Step::Gives(pair(16, 0), None),
        Step::Gives(pair(16, 32), None),
        Step::Gives(pair(17, 32), None),
        Step::Gives(pair(4294967295, 0), None),
        Step::Gives(pair(4294967295, 32), None),
        Step::Gives(pair(4294967295, 4294967295), None),
    ];
    frame(&rt, &mut heap, Phase::Idle, &forged)?;
    let garbage = [
        Step::Garbage(0, false),
        Step::Gives(pair(1, 32), None),
        Step::Has(0, it(2)),
        Step::Draw(0, Ok(32)),
        Step::Gives(pair(1, 32), None),
        Step::Make(1, 3),
        Step::Garbage(1, false),
        Step::Draw(1, Ok(48)),
        Step::Draw(1, Ok(48)),
    ];
    frame(&rt, &mut heap, Phase::Idle, &garbage)
}

#[test]
fn an_object_at_a_used_index_has_another_pair(rt: HostRuntime) -> Result<(), Fail> {
    let mut heap = empty::<Small>(rt.alloc())?;
    let made = [
        Step::Make(0, 1),
        Step::Draw(0, Ok(16)),
        Step::Make(0, 2),
        Step::Make(0, 3),
        Step::Make(0, 4),
        Step::Make(0, 5),
        Step::Make(0, 6),
        Step::Make(0, 7),
        Step::Make(0, 8),
        Step::Gives(pair(0, 16), it(1)),
        Step::Hold(0, EMPTY, it(8)),
    ];
    frame(&rt, &mut heap, Phase::Idle, &made)?;
    collect(&rt, &mut heap, 0, 8)?;
    let again = [
        Step::Gives(pair(0, 16), None),
        Step::Make(0, 9),
        Step::Draw(0, Ok(32)),
        Step::Make(0, 10),
        Step::Draw(0, Ok(48)),
        Step::Make(0, 11),
        Step::Draw(0, Ok(64)),
        Step::Make(0, 12),
        Step::Draw(0, Ok(80)),
        Step::Make(0, 13),
        Step::Draw(0, Ok(96)),
        Step::Make(0, 14),
        Step::Draw(0, Ok(112)),
        Step::Make(0, 15),
        Step::Draw(0, Ok(128)),
        Step::Make(0, 16),
        Step::Draw(0, Err(8)),
        Step::Gives(pair(0, 16), None),
    ];
    frame(&rt, &mut heap, Phase::Idle, &again)
}

#[test]
fn a_lane_that_has_drawn_its_serials_refuses_new_pairs(rt: HostRuntime) -> Result<(), Fail> {
    let mut heap = empty::<Small>(rt.alloc())?;
    let made = [
        Step::Make(0, 1),
        Step::Draw(0, Ok(16)),
        Step::Make(1, 2),
        Step::Draw(1, Ok(32)),
        Step::Make(1, 3),
        Step::Draw(1, Ok(48)),
        Step::Make(1, 4),
        Step::Draw(1, Ok(64)),
        Step::Make(1, 5),
        Step::Draw(1, Ok(80)),
        Step::Make(1, 6),
        Step::Draw(1, Ok(96)),
        Step::Make(1, 7),
        Step::Draw(1, Ok(112)),
        Step::Make(1, 8),
        Step::Draw(1, Ok(128)),
        Step::Draw(1, Ok(128)),
        Step::Hold(1, EMPTY, it(8)),
    ];
    frame(&rt, &mut heap, Phase::Idle, &made)?;
    collect(&rt, &mut heap, 1, 7)?;
    let spent = [
        Step::Make(1, 9),
        Step::Draw(1, Err(8)),
        Step::Draw(1, Err(8)),
        Step::Draw(0, Ok(16)),
        Step::Gives(pair(0, 16), it(1)),
    ];
    frame(&rt, &mut heap, Phase::Idle, &spent)?;
    other_lane(&rt, &mut heap)
}

#[test]
fn what_a_strong_pointer_is_given_while_a_collection_marks_lives(
    rt: HostRuntime,
) -> Result<(), Fail> {
    let mut heap = empty::<Small>(rt.alloc())?;
    let made = [
        Step::Make(0, 1),
        Step::Draw(0, Ok(16)),
        Step::Hold(0, EMPTY, it(1)),
    ];
    frame(&rt, &mut heap, Phase::Idle, &made)?;
    begin(&rt, &mut heap)?;
    let saved = [Step::Hold(0, pair(0, 16), None)];
    frame(&rt, &mut heap, Phase::Marking, &saved)?;
    commit(&rt, &mut heap, 1)?;
    destroy(&rt, &mut heap, 0)?;
    let lives = [Step::Has(0, it(1)), Step::Gives(pair(0, 16), it(1))];
    frame(&rt, &mut heap, Phase::Idle, &lives)?;
    begin(&rt, &mut heap)?;
    let cleared = [Step::Hold(0, EMPTY, it(1))];
    frame(&rt, &mut heap, Phase::Marking, &cleared)?;
    commit(&rt, &mut heap, 1)?;
    destroy(&rt, &mut heap, 0)?;
    let floats = [Step::Gives(pair(0, 16), it(1))];
    frame(&rt, &mut heap, Phase::Idle, &floats)?;
    collect(&rt, &mut heap, 0, 1)?;
    let removed = [Step::Gives(pair(0, 16), None)];
    frame(&rt, &mut heap, Phase::Idle, &removed)
}

/// A level whose last strong pointer of lane 0 names an object, behind which 7,999 others stand in a
/// chain.
fn deep(rt: &impl Abort, alloc: Global) -> Result<PlainHeap<Level>, Fail>
    ensures { IfOk result (λ h. (after h.history).opened ≡ []) }
{
    let mut heap = PlainHeap::<Level>::new(alloc)?;
    assert_eq!(rt; heap.open_frame(0), Phase::Idle);
    let first = chain(rt, &mut heap)?;
    assert_eq!(rt; name_of(heap.set_strong(0, 63, Some(first))), None);
    heap.close_frame(0);
    Ok(heap)
}

/// Runs a collection that removes nothing, in so many marking slices of a budget that answer the same,
/// and a last one that finds nothing to scan.
fn nothing_removed(
    rt: &impl Abort,
    heap: &mut PlainHeap<Level>,
    budget: u32,
    slices: u32,
    each: Marked,
) -> Result<(), Fail>
    requires closed { (after heap.old.history).opened ≡ [] }
    ensures closed { OnOk result ((after heap.new.history).opened ≡ []) }
{
    let mut found = [NOBODY; 4];
    assert_eq!(rt; heap.begin(), Begin::Started);
    for n in 0..slices {
        let _ = n;
        assert_eq!(rt; heap.mark(0, budget), each);
    }
    let none = Marked {
        scanned: 0,
        stop: MarkStop::Idle,
    };
    assert_eq!(rt; heap.mark(0, budget), none);
    assert_eq!(rt; heap.commit(), Commit::Done);
    let swept = Swept {
        looked: 32768,
        found: 0,
        stop: SweepStop::Settled,
    };
    assert_eq!(rt; heap.sweep(100000, &mut found), swept);
    assert_eq!(rt; heap.left(), 0);
    Ok(())
}

/// Clears that strong pointer, and looks that a collection removes the whole chain.
fn all_removed(rt: &impl Abort, heap: &mut PlainHeap<Level>) -> Result<(), Fail>
    requires closed { (after heap.old.history).opened ≡ [] }
{
    let mut found = [NOBODY; 64];
    assert_eq!(rt; heap.open_frame(0), Phase::Idle);
    assert_eq!(rt; name_of(heap.set_strong(0, 63, None)), it(8000));
    heap.close_frame(0);
    assert_eq!(rt; heap.begin(), Begin::Started);
    let none = Marked {
        scanned: 0,
        stop: MarkStop::Idle,
    };
    assert_eq!(rt; heap.mark(0, 1), none);
    assert_eq!(rt; heap.commit(), Commit::Done);
    for n in 0..126 {
        let _ = n;
        heap.sweep(100000, &mut found);
    }
    assert_eq!(rt; heap.left(), 8000);
    Ok(())
}

#[test]
fn a_chain_behind_a_strong_pointer_lives_whatever_the_slices(rt: HostRuntime) -> Result<(), Fail> {
    let mut heap = deep(&rt, rt.alloc())?;
    let one = Marked {
        scanned: 1,
        stop: MarkStop::Spent,
    };
    nothing_removed(&rt, &mut heap, 1, 8000, one)?;
    let all = Marked {
        scanned: 8000,
        stop: MarkStop::Idle,
    };
    nothing_removed(&rt, &mut heap, 100000, 1, all)?;
    all_removed(&rt, &mut heap)
}

/// The limits of a world with one index, which each object gets in its turn.
#[derive(Clone, Copy, Debug, PartialEq, Eq)]
struct Single;

impl Shape for Single {
    const LANES: u32 = 1;

    const QUOTA: u32 = 1;

    const SLOTS: u32 = 1;

    const STRONG: u32 = 1;

    const MARKERS: u32 = 1;

    const SERIALS: u32 = 1000;

    const NAMES: u64 = 1001;

    ghost LANES = { 1 };

    ghost QUOTA = { 1 };

    ghost SLOTS = { 1 };

    ghost STRONG = { 1 };

    ghost MARKERS = { 1 };

    ghost SERIALS = { 1000 };

    ghost NAMES = { 1001 };

    ghost sizes = { single };

    ghost constants = { record { lanes = refl; quota = refl; slots = refl; strong = refl; markers = refl; serials = refl; names = refl } };

    ghost lawful = { single_is_lawful };
}

/// Looks that none of the weak pointers to the first objects at the one index gives an object, in the
/// open frame of lane 0. There are so many of those objects, 1,000 at most.
fn none_gives(rt: &impl Abort, heap: &mut PlainHeap<Single>, count: u32) -> Result<(), Fail>
    requires opened { (after heap.old.history).opened ≡ Lane 0 ∷ [] }
    requires few { count ≤ 1000 }
    ensures opened { OnOk result ((after heap.new.history).opened ≡ Lane 0 ∷ []) }
{
    for n in 0..count {
        assert_eq!(rt; heap.resolve(0, pair(0, 16 * n + 16)), None);
    }
    Ok(())
}

/// Makes the object with a count, 1 to 1,001, in a frame of its own, where the serial of its weak
/// pointer is the next one, or all 1,000 are spent. Its weak pointer alone gives it.
fn weakly_made(rt: &impl Abort, heap: &mut PlainHeap<Single>, count: u32) -> Result<(), Fail>
    requires closed { (after heap.old.history).opened ≡ [] }
    ensures closed { OnOk result ((after heap.new.history).opened ≡ []) }
{
    let mut one = [NOTHING; 1];
    assert_eq!(rt; heap.open_frame(0), Phase::Idle);
    match heap.create(0, &[PLAIN; 1], &mut one) {
        Ok(()) => {}
        Err(_) => panic!(rt; "no room"),
    }
    assert!(rt; count >= 1 && count <= 1001);
    let serial = if count <= 1000 {
        Ok(16 * count)
    } else {
        Err(1000)
    };
    assert_eq!(rt; heap.weak_of(0, one[0]), answer(0, serial));
    let given = if count <= 1000 {
        it(count as u64)
    } else {
        None
    };
    assert_eq!(rt; name_of(heap.resolve(0, pair(0, 16 * count))), given);
    none_gives(rt, heap, count - 1)?;
    heap.close_frame(0);
    Ok(())
}

#[test]
fn no_old_pair_gives_a_later_object(rt: HostRuntime) -> Result<(), Fail> {
    let mut heap = empty::<Single>(rt.alloc())?;
    for count in 1..1002 {
        weakly_made(&rt, &mut heap, count)?;
        collect(&rt, &mut heap, 0, 1)?;
    }
    Ok(())
}
