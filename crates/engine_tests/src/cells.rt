//! References and numbers in objects, what a collection keeps by them, and marks as garbage.
ghost use Rattle.std.specs.Prelude.{◌≡◌, ◌∷◌, [], All, IfOk, IfSome, OnOk};
ghost use Rattle.world_model.specs.Histories.{after};
ghost use Rattle.world_model.specs.Engines.{KeepsHeld};
ghost use Rattle.heap_plain.specs.Types.{Lane};
ghost use Rattle.heap_plain.specs.Parts.{Holds};

use crate::heaps::{NOBODY, NOTHING};
use heap_plain::PlainHeap;
use std::alloc::Global;
use std::process::Abort;
use std::test::Fail;
use world_model::{
    Begin, ClassId, Commit, Engine, Kind, Level, MemHooks, Phase, Ready, Ref, Small,
};

/// Two reference cells and two plain ones.
const PAIR: Kind = Kind {
    class: ClassId(0),
    refs: 2,
    plain: 2,
    ready: Ready::After(0),
};

/// Makes one object, in the open frame of lane 0.
fn make(rt: &impl Abort, heap: &mut PlainHeap<Small>) -> Result<Ref, Fail>
    requires opened { (after heap.old.history).opened ≡ Lane 0 ∷ [] }
    ensures opened { (after heap.new.history).opened ≡ Lane 0 ∷ [] }
    ensures held { IfOk result (Holds heap.new 0) }
    ensures keeps { KeepsHeld (Holds heap.old) (Holds heap.new) }
{
    let mut one = [NOTHING; 1];
    match heap.create(0, &[PAIR; 1], &mut one) {
        Ok(()) => Ok(one[0]),
        Err(_) => panic!(rt; "no room"),
    }
}

/// Writes a reference cell, in the open frame of lane 0.
fn link(
    rt: &impl Abort,
    heap: &mut PlainHeap<Small>,
    at: Ref,
    slot: u32,
    to: Option<Ref>,
) -> Result<Option<Ref>, Fail>
    requires opened { (after heap.old.history).opened ≡ Lane 0 ∷ [] }
    requires at { Holds heap.old 0 at }
    requires to { IfSome to (Holds heap.old 0) }
    ensures opened { (after heap.new.history).opened ≡ Lane 0 ∷ [] }
    ensures given { IfOk result (λ old. IfSome old (Holds heap.new 0)) }
    ensures keeps { KeepsHeld (Holds heap.old) (Holds heap.new) }
{
    let kind = heap.kind_of(0, at);
    if slot >= kind.refs {
        panic!(rt; "no reference slot");
    }
    Ok(heap.write_ref(0, at, slot, to))
}

/// Reads a reference cell, in the open frame of lane 0.
fn read(
    rt: &impl Abort,
    heap: &mut PlainHeap<Small>,
    at: Ref,
    slot: u32,
) -> Result<Option<Ref>, Fail>
    requires opened { (after heap.old.history).opened ≡ Lane 0 ∷ [] }
    requires at { Holds heap.old 0 at }
    ensures opened { (after heap.new.history).opened ≡ Lane 0 ∷ [] }
    ensures given { IfOk result (λ got. IfSome got (Holds heap.new 0)) }
    ensures keeps { KeepsHeld (Holds heap.old) (Holds heap.new) }
{
    let kind = heap.kind_of(0, at);
    if slot >= kind.refs {
        panic!(rt; "no reference slot");
    }
    Ok(heap.read_ref(0, at, slot))
}

/// Writes a plain cell, in the open frame of lane 0.
fn set_number(
    rt: &impl Abort,
    heap: &mut PlainHeap<Small>,
    at: Ref,
    slot: u32,
    value: u64,
) -> Result<u64, Fail>
    requires opened { (after heap.old.history).opened ≡ Lane 0 ∷ [] }
    requires at { Holds heap.old 0 at }
    ensures opened { (after heap.new.history).opened ≡ Lane 0 ∷ [] }
    ensures keeps { KeepsHeld (Holds heap.old) (Holds heap.new) }
{
    let kind = heap.kind_of(0, at);
    if slot >= 4 || kind.plain > 4 || slot < 4 - kind.plain {
        panic!(rt; "no plain slot");
    }
    Ok(heap.write_plain(0, at, slot, value))
}

/// Reads a plain cell, in the open frame of lane 0.
fn get_number(rt: &impl Abort, heap: &mut PlainHeap<Small>, at: Ref, slot: u32) -> Result<u64, Fail>
    requires opened { (after heap.old.history).opened ≡ Lane 0 ∷ [] }
    requires at { Holds heap.old 0 at }
    ensures opened { (after heap.new.history).opened ≡ Lane 0 ∷ [] }
    ensures keeps { KeepsHeld (Holds heap.old) (Holds heap.new) }
{
    let kind = heap.kind_of(0, at);
    if slot >= 4 || kind.plain > 4 || slot < 4 - kind.plain {
        panic!(rt; "no plain slot");
    }
    Ok(heap.read_plain(0, at, slot))
}

/// A step of a test over a table of references, by places of the table: make an object, or root
/// one; write a reference cell, and read one; write a plain cell, and read one; mark an object as
/// garbage, and tell whether one is valid. Behind what is written stands what was there, and behind
/// what is read stands what is found.
#[derive(Clone, Copy)]
enum Step {
    Make(usize),
    Root(usize),
    Link(usize, u32, Option<usize>, Option<usize>),
    Read(usize, u32, Option<usize>),
    Set(usize, u32, u64, u64),
    Get(usize, u32, u64),
    Garbage(usize, bool),
    Valid(usize, bool),
}

/// A heap in whose open frame lane 0 has made one object.
fn started(rt: &impl Abort, alloc: Global) -> Result<(PlainHeap<Small>, Ref), Fail>
    ensures opened { IfOk result (λ r. (after r.0.history).opened ≡ Lane 0 ∷ []) }
    ensures held { IfOk result (λ r. Holds r.0 0 r.1) }
{
    let mut heap = PlainHeap::<Small>::new(alloc)?;
    assert_eq!(rt; heap.open_frame(0), Phase::Idle);
    let first = make(rt, &mut heap)?;
    Ok((heap, first))
}

/// The reference at a place of the table, if one is given.
fn at_place(rt: &impl Abort, refs: &[Ref], at: Option<usize>) -> Result<Option<Ref>, Fail> {
    match at {
        Some(at) => {
            assert!(rt; at < refs.len());
            Ok(Some(refs[at]))
        }
        None => Ok(None),
    }
}

/// Writes a reference cell of one object to name another one, or none.
fn link_at(
    rt: &impl Abort,
    heap: &mut PlainHeap<Small>,
    refs: &[Ref],
    at: usize,
    slot: u32,
    to: Option<usize>,
) -> Result<Option<Ref>, Fail>
    requires opened { (after heap.old.history).opened ≡ Lane 0 ∷ [] }
    requires held { All (Holds heap.old 0) refs.now }
    ensures opened { OnOk result ((after heap.new.history).opened ≡ Lane 0 ∷ []) }
    ensures keeps { OnOk result (KeepsHeld (Holds heap.old) (Holds heap.new)) }
{
    assert!(rt; at < refs.len());
    match to {
        Some(to) => {
            assert!(rt; to < refs.len());
            link(rt, heap, refs[at], slot, Some(refs[to]))
        }
        None => link(rt, heap, refs[at], slot, None),
    }
}

/// Makes a step that makes no object, and looks at its answer.
fn take(rt: &impl Abort, heap: &mut PlainHeap<Small>, refs: &[Ref], step: Step) -> Result<(), Fail>
    requires opened { (after heap.old.history).opened ≡ Lane 0 ∷ [] }
    requires held { All (Holds heap.old 0) refs.now }
    ensures opened { OnOk result ((after heap.new.history).opened ≡ Lane 0 ∷ []) }
    ensures keeps { OnOk result (KeepsHeld (Holds heap.old) (Holds heap.new)) }
{
    match step {
        Step::Make(_) => {}
        Step::Root(at) => {
            assert!(rt; at < refs.len());
            heap.set_root(0, refs[at], true);
        }
        Step::Link(at, slot, to, old) => {
            let expected = at_place(rt, refs, old)?;
            assert_eq!(rt; link_at(rt, heap, refs, at, slot, to)?, expected);
        }
        Step::Read(at, slot, got) => {
            let expected = at_place(rt, refs, got)?;
            assert!(rt; at < refs.len());
            assert_eq!(rt; read(rt, heap, refs[at], slot)?, expected);
        }
        Step::Set(at, slot, value, old) => {
            assert!(rt; at < refs.len());
            assert_eq!(rt; set_number(rt, heap, refs[at], slot, value)?, old);
        }
        Step::Get(at, slot, got) => {
            assert!(rt; at < refs.len());
            assert_eq!(rt; get_number(rt, heap, refs[at], slot)?, got);
        }
        Step::Garbage(at, old) => {
            assert!(rt; at < refs.len());
            assert_eq!(rt; heap.mark_garbage(0, refs[at]), old);
        }
        Step::Valid(at, valid) => {
            assert!(rt; at < refs.len());
            assert_eq!(rt; heap.is_valid(0, refs[at]), valid);
        }
    }
    Ok(())
}

/// Makes these steps.
fn take_all(
    rt: &impl Abort,
    heap: &mut PlainHeap<Small>,
    refs: &mut [Ref],
    steps: &[Step],
) -> Result<(), Fail>
    requires opened { (after heap.old.history).opened ≡ Lane 0 ∷ [] }
    requires held { All (Holds heap.old 0) refs.old }
    ensures opened { OnOk result ((after heap.new.history).opened ≡ Lane 0 ∷ []) }
    ensures held { OnOk result (All (Holds heap.new 0) refs.new) }
{
    for n in 0..steps.len() {
        match steps[n] {
            Step::Make(at) => {
                let new = make(rt, heap)?;
                assert!(rt; at < refs.len());
                refs[at] = new;
            }
            other => take(rt, heap, refs, other)?,
        }
    }
    Ok(())
}

/// Closes the frame, runs a whole collection and destroys what it removed. It tells how many objects
/// were scanned, and how many were removed.
fn collect(rt: &impl Abort, heap: &mut PlainHeap<Small>) -> Result<(u32, u32), Fail>
    requires opened { (after heap.old.history).opened ≡ Lane 0 ∷ [] }
    ensures closed { OnOk result ((after heap.new.history).opened ≡ []) }
{
    let mut found = [NOBODY; 16];
    let mut hooks = MemHooks::new(0);
    heap.close_frame(0);
    assert_eq!(rt; heap.begin(), Begin::Started);
    let marked = heap.mark(0, 1000);
    assert_eq!(rt; heap.commit(), Commit::Done);
    heap.sweep(1000, &mut found);
    let removed = heap.left();
    heap.purge(&mut hooks, 1000);
    Ok((marked.scanned, removed))
}

/// What a collection does after these steps, which begin with a table of 8 references to one object.
fn collected(rt: &impl Abort, alloc: Global, steps: &[Step]) -> Result<(u32, u32), Fail> {
    let (mut heap, first) = started(rt, alloc)?;
    let mut refs = [first; 8];
    take_all(rt, &mut heap, &mut refs, steps)?;
    collect(rt, &mut heap)
}

/// Makes these steps, which begin with a table of 8 references to a new object, where a collection
/// removed the object of the first steps, and its indexes are used again.
fn renewed(rt: &impl Abort, alloc: Global, before: &[Step], steps: &[Step]) -> Result<(), Fail> {
    let (mut heap, first) = started(rt, alloc)?;
    let mut refs = [first; 8];
    take_all(rt, &mut heap, &mut refs, before)?;
    collect(rt, &mut heap)?;
    assert_eq!(rt; heap.open_frame(0), Phase::Idle);
    let new = make(rt, &mut heap)?;
    let mut refs = [new; 8];
    take_all(rt, &mut heap, &mut refs, steps)
}

/// How many objects a collection removes where these steps were made while it marks, in a frame
/// whose first object is at each of the 8 places.
fn removed_amid(rt: &impl Abort, alloc: Global, steps: &[Step]) -> Result<u32, Fail> {
    let mut heap = PlainHeap::<Small>::new(alloc)?;
    let mut found = [NOBODY; 16];
    assert_eq!(rt; heap.begin(), Begin::Started);
    assert_eq!(rt; heap.open_frame(0), Phase::Marking);
    let first = make(rt, &mut heap)?;
    let mut refs = [first; 8];
    take_all(rt, &mut heap, &mut refs, steps)?;
    heap.close_frame(0);
    assert_eq!(rt; heap.commit(), Commit::Done);
    heap.sweep(1000, &mut found);
    Ok(heap.left())
}

#[test]
fn references_of_rooted_objects_keep_objects(rt: HostRuntime) -> Result<(), Fail> {
    let alloc = rt.alloc();
    let cycle = [
        Step::Make(1),
        Step::Link(0, 0, Some(1), None),
        Step::Link(1, 1, Some(0), None),
        Step::Make(2),
        Step::Root(2),
    ];
    assert_eq!(rt; collected(&rt, alloc, &cycle)?, (1, 2));
    let chain = [
        Step::Make(1),
        Step::Make(2),
        Step::Make(3),
        Step::Link(1, 0, Some(2), None),
        Step::Link(2, 1, Some(3), None),
        Step::Link(3, 0, Some(1), None),
        Step::Root(1),
    ];
    assert_eq!(rt; collected(&rt, alloc, &chain)?, (3, 1));
    let replaced = [
        Step::Make(1),
        Step::Make(2),
        Step::Link(0, 0, Some(1), None),
        Step::Link(0, 0, Some(2), Some(1)),
        Step::Root(0),
    ];
    assert_eq!(rt; collected(&rt, alloc, &replaced)?, (2, 1));
    let numbers = [
        Step::Make(1),
        Step::Make(2),
        Step::Set(0, 2, 1, 0),
        Step::Set(0, 3, 2, 0),
        Step::Root(0),
    ];
    assert_eq!(rt; collected(&rt, alloc, &numbers)?, (1, 2));
    Ok(())
}

#[test]
fn cells_are_written_and_read(rt: HostRuntime) -> Result<(), Fail> {
    let steps = [
        Step::Make(1),
        Step::Read(0, 1, None),
        Step::Link(0, 1, Some(1), None),
        Step::Read(0, 0, None),
        Step::Read(0, 1, Some(1)),
        Step::Read(1, 1, None),
        Step::Link(0, 1, Some(0), Some(1)),
        Step::Link(0, 1, None, Some(0)),
        Step::Link(0, 1, None, None),
        Step::Get(0, 3, 0),
        Step::Set(0, 3, 7, 0),
        Step::Set(0, 3, 18446744073709551615, 7),
        Step::Get(0, 3, 18446744073709551615),
        Step::Get(0, 2, 0),
        Step::Get(1, 3, 0),
    ];
    assert_eq!(rt; collected(&rt, rt.alloc(), &steps)?, (0, 2));
    Ok(())
}

#[test]
fn a_released_index_has_empty_cells(rt: HostRuntime) -> Result<(), Fail> {
    let before = [
        Step::Make(1),
        Step::Link(0, 0, Some(1), None),
        Step::Link(0, 1, Some(0), None),
        Step::Link(1, 1, Some(0), None),
        Step::Set(0, 3, 9, 0),
        Step::Set(1, 3, 8, 0),
    ];
    let steps = [
        Step::Make(1),
        Step::Read(0, 0, None),
        Step::Read(0, 1, None),
        Step::Read(1, 0, None),
        Step::Read(1, 1, None),
        Step::Get(0, 3, 0),
        Step::Get(1, 3, 0),
    ];
    renewed(&rt, rt.alloc(), &before, &steps)
}

#[test]
fn a_new_object_at_the_index_of_garbage_is_valid(rt: HostRuntime) -> Result<(), Fail> {
    let before = [
        Step::Make(1),
        Step::Make(2),
        Step::Make(3),
        Step::Make(4),
        Step::Make(5),
        Step::Make(6),
        Step::Make(7),
        Step::Valid(7, true),
        Step::Garbage(0, false),
        Step::Garbage(1, false),
        Step::Garbage(2, false),
        Step::Garbage(3, false),
        Step::Garbage(4, false),
        Step::Garbage(5, false),
        Step::Garbage(6, false),
        Step::Garbage(7, false),
        Step::Garbage(7, true),
        Step::Valid(7, false),
    ];
    let steps = [
        Step::Make(1),
        Step::Make(2),
        Step::Make(3),
        Step::Make(4),
        Step::Make(5),
        Step::Make(6),
        Step::Make(7),
        Step::Valid(0, true),
        Step::Valid(1, true),
        Step::Valid(2, true),
        Step::Valid(3, true),
        Step::Valid(4, true),
        Step::Valid(5, true),
        Step::Valid(6, true),
        Step::Valid(7, true),
    ];
    renewed(&rt, rt.alloc(), &before, &steps)
}

#[test]
fn what_is_stored_while_a_collection_marks_is_kept(rt: HostRuntime) -> Result<(), Fail> {
    let steps = [
        Step::Root(0),
        Step::Make(1),
        Step::Link(0, 0, Some(1), None),
        Step::Read(0, 0, Some(1)),
    ];
    assert_eq!(rt; removed_amid(&rt, rt.alloc(), &steps)?, 0);
    Ok(())
}

/// Makes an object of a level that refers to another one, in the open frame of lane 0.
fn make_before(rt: &impl Abort, heap: &mut PlainHeap<Level>, to: Option<Ref>) -> Result<Ref, Fail>
    requires opened { (after heap.old.history).opened ≡ Lane 0 ∷ [] }
    requires to { IfSome to (Holds heap.old 0) }
    ensures opened { OnOk result ((after heap.new.history).opened ≡ Lane 0 ∷ []) }
    ensures held { IfOk result (Holds heap.new 0) }
{
    let mut one = [NOTHING; 1];
    match heap.create(0, &[PAIR; 1], &mut one) {
        Ok(()) => {}
        Err(_) => panic!(rt; "no room"),
    }
    let kind = heap.kind_of(0, one[0]);
    assert!(rt; kind.refs > 0);
    heap.write_ref(0, one[0], 0, to);
    Ok(one[0])
}

/// Makes a chain of 8,000 objects, and gives the first of them, from which all others are reached.
pub(crate) fn chain(rt: &impl Abort, heap: &mut PlainHeap<Level>) -> Result<Ref, Fail>
    requires opened { (after heap.old.history).opened ≡ Lane 0 ∷ [] }
    ensures opened { OnOk result ((after heap.new.history).opened ≡ Lane 0 ∷ []) }
    ensures held { IfOk result (Holds heap.new 0) }
{
    let mut last = make_before(rt, heap, None)?;
    for n in 1..8000 {
        let _ = n;
        last = make_before(rt, heap, Some(last))?;
    }
    Ok(last)
}

/// How many objects of such a chain, the first of which is rooted where that is asked for, a collection
/// scans and removes, and how many are left when they are destroyed.
fn chained(rt: &impl Abort, alloc: Global, rooted: bool) -> Result<(u32, u32, u32), Fail> {
    let mut heap = PlainHeap::<Level>::new(alloc)?;
    let mut found = [NOBODY; 64];
    let mut hooks = MemHooks::new(0);
    assert_eq!(rt; heap.open_frame(0), Phase::Idle);
    let first = chain(rt, &mut heap)?;
    heap.set_root(0, first, rooted);
    heap.close_frame(0);
    assert_eq!(rt; heap.begin(), Begin::Started);
    let marked = heap.mark(0, 100000);
    assert_eq!(rt; heap.commit(), Commit::Done);
    for n in 0..200 {
        let _ = n;
        heap.sweep(100000, &mut found);
    }
    let removed = heap.left();
    heap.purge(&mut hooks, 100000);
    Ok((marked.scanned, removed, heap.left()))
}

#[test]
fn a_chain_of_8000_objects_is_kept_or_removed(rt: HostRuntime) -> Result<(), Fail> {
    let alloc = rt.alloc();
    assert_eq!(rt; chained(&rt, alloc, true)?, (8000, 0, 0));
    assert_eq!(rt; chained(&rt, alloc, false)?, (0, 8000, 0));
    Ok(())
}
