//! Units that are taken apart.
ghost use Rattle.std.specs.Prelude.{◌≡◌, ◌<◌, ◌≤◌, ◌∷◌, [], All, IsTrue, length};
ghost use Rattle.std.specs.List.{list_all};
ghost use Rattle.world_model.specs.Histories.{after};
ghost use Rattle.world_model.specs.LaneSteps.{is_lawful};
ghost use Rattle.world_model.specs.Engines.{KeepsHeld};
ghost use Rattle.heap_plain.specs.Types.{Lane};
ghost use Rattle.heap_plain.specs.Parts.{Holds};

use crate::heaps::{NOBODY, NOTHING, PLAIN, named};
use heap_plain::PlainHeap;
use std::process::Abort;
use std::test::Fail;
use world_model::{
    Begin, Commit, DissolveErr, Engine, Kind, Level, MarkStop, Marked, Name, Phase, Ref, Shape,
    Small, SweepStop, Swept,
};

/// Opens the frame of lane 0, which finds this phase, and makes one unit there.
fn open_with<S: Shape>(
    rt: &impl Abort,
    heap: &mut PlainHeap<S>,
    phase: Phase,
    kinds: &[Kind],
    out: &mut [Ref],
)
    requires lane { 0 < S.sizes.lanes }
    requires closed { (after heap.old.history).opened ≡ [] }
    requires some { 1 ≤ length kinds.now }
    requires few { length kinds.now ≤ 1024 }
    requires lawful { IsTrue (list_all (is_lawful S.sizes) kinds.now) }
    requires room { length out.old ≡ length kinds.now }
    ensures opened { (after heap.new.history).opened ≡ Lane 0 ∷ [] }
    ensures held { All (Holds heap.new 0) out.new }
{
    assert_eq!(rt; heap.open_frame(0), phase);
    match heap.create(0, kinds, out) {
        Ok(()) => {}
        Err(_) => panic!(rt; "no room"),
    }
}

/// Takes the unit of an object that lane 0 made apart, in the open frame of that lane.
fn dissolve<S: Shape>(rt: &impl Abort, heap: &mut PlainHeap<S>, at: Ref) -> Result<u32, DissolveErr>
    requires lane { 0 < S.sizes.lanes }
    requires opened { (after heap.old.history).opened ≡ Lane 0 ∷ [] }
    requires at { Holds heap.old 0 at }
    ensures opened { (after heap.new.history).opened ≡ Lane 0 ∷ [] }
    ensures keeps { KeepsHeld (Holds heap.old) (Holds heap.new) }
{
    assert_eq!(rt; at.name.lane, 0);
    heap.dissolve(0, at)
}

/// What lane 0 is told of the unit of an object in its open frame: its first member, and the member number `k`.
fn tells<S: Shape>(heap: &mut PlainHeap<S>, at: Ref, k: u32) -> (Name, Option<Name>)
    requires lane { 0 < S.sizes.lanes }
    requires opened { (after heap.old.history).opened ≡ Lane 0 ∷ [] }
    requires at { Holds heap.old 0 at }
    ensures opened { (after heap.new.history).opened ≡ Lane 0 ∷ [] }
    ensures keeps { KeepsHeld (Holds heap.old) (Holds heap.new) }
{
    let first = heap.unit_of(0, at);
    match heap.member(0, at, k) {
        Some(member) => (first, Some(member.name)),
        None => (first, None),
    }
}

#[test]
fn a_unit_tells_its_members(rt: HostRuntime) -> Result<(), Fail> {
    let mut heap = PlainHeap::<Small>::new(rt.alloc())?;
    let mut cluster = [NOTHING; 3];
    open_with(&rt, &mut heap, Phase::Idle, &[PLAIN; 3], &mut cluster);
    assert_eq!(rt; tells(&mut heap, cluster[1], 2), (named(1), Some(named(3))));
    assert_eq!(rt; tells(&mut heap, cluster[2], 3), (named(1), None));
    Ok(())
}

#[test]
fn a_member_of_a_unit_that_was_taken_apart_is_one(rt: HostRuntime) -> Result<(), Fail> {
    let mut heap = PlainHeap::<Small>::new(rt.alloc())?;
    let mut cluster = [NOTHING; 3];
    open_with(&rt, &mut heap, Phase::Idle, &[PLAIN; 3], &mut cluster);
    assert_eq!(rt; dissolve(&rt, &mut heap, cluster[0]), Ok(3));
    assert_eq!(rt; tells(&mut heap, cluster[2], 0), (named(3), Some(named(3))));
    Ok(())
}

#[test]
fn a_rooted_member_outlives_the_others(rt: HostRuntime) -> Result<(), Fail> {
    let mut heap = PlainHeap::<Small>::new(rt.alloc())?;
    let mut cluster = [NOTHING; 3];
    let mut found = [NOBODY; 16];
    open_with(&rt, &mut heap, Phase::Idle, &[PLAIN; 3], &mut cluster);
    assert_eq!(rt; heap.set_root(0, cluster[1], true), false);
    assert_eq!(rt; dissolve(&rt, &mut heap, cluster[2]), Ok(3));
    assert_eq!(rt; dissolve(&rt, &mut heap, cluster[2]), Ok(1));
    heap.close_frame(0);
    assert_eq!(rt; heap.begin(), Begin::Started);
    assert_eq!(rt;
        heap.mark(0, 1000),
        Marked {
            scanned: 1,
            stop: MarkStop::Idle
        }
    );
    assert_eq!(rt; heap.commit(), Commit::Done);
    assert_eq!(rt;
        heap.sweep(16, &mut found),
        Swept {
            looked: 16,
            found: 2,
            stop: SweepStop::Settled
        }
    );
    assert_eq!(rt; found[0], Name { lane: 0, count: 1 });
    assert_eq!(rt; found[1], Name { lane: 0, count: 3 });
    Ok(())
}

#[test]
fn a_unit_is_taken_apart_unless_a_collection_marks(rt: HostRuntime) -> Result<(), Fail> {
    let mut heap = PlainHeap::<Small>::new(rt.alloc())?;
    let mut pair = [NOTHING; 2];
    open_with(&rt, &mut heap, Phase::Idle, &[PLAIN; 2], &mut pair);
    assert_eq!(rt; heap.set_root(0, pair[1], true), false);
    heap.close_frame(0);
    assert_eq!(rt; heap.begin(), Begin::Started);
    open_with(&rt, &mut heap, Phase::Marking, &[PLAIN; 2], &mut pair);
    assert_eq!(rt;
        dissolve(&rt, &mut heap, pair[0]),
        Err(DissolveErr::Marking)
    );
    heap.close_frame(0);
    assert_eq!(rt;
        heap.mark(0, 9),
        Marked {
            scanned: 2,
            stop: MarkStop::Idle
        }
    );
    assert_eq!(rt; heap.commit(), Commit::Done);
    open_with(&rt, &mut heap, Phase::Gathering, &[PLAIN; 2], &mut pair);
    assert_eq!(rt; dissolve(&rt, &mut heap, pair[0]), Ok(2));
    Ok(())
}

#[test]
fn a_unit_of_1024_members_is_taken_apart(rt: HostRuntime) -> Result<(), Fail> {
    let mut heap = PlainHeap::<Level>::new(rt.alloc())?;
    let mut members = [NOTHING; 1024];
    open_with(&rt, &mut heap, Phase::Idle, &[PLAIN; 1024], &mut members);
    assert_eq!(rt; dissolve(&rt, &mut heap, members[1023]), Ok(1024));
    assert_eq!(rt; dissolve(&rt, &mut heap, members[511]), Ok(1));
    Ok(())
}
