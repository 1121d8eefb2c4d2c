//! Each call, on the paths that succeed and on those that are refused, and the life of an object.
ghost use Rattle.std.specs.Prelude.{◌≡◌, [], IfOk};
ghost use Rattle.world_model.specs.Histories.{after};

use heap_plain::PlainHeap;
use std::alloc::Global;
use std::process::Abort;
use std::test::Fail;
use world_model::{
    Begin, ClassId, Commit, CreateErr, Engine, HookCall, Kind, Level, MarkStop, Marked, MemHooks,
    Name, Phase, Purged, Ready, Ref, Small, SweepStop, Swept,
};

pub(crate) const PLAIN: Kind = Kind {
    class: ClassId(0),
    refs: 0,
    plain: 0,
    ready: Ready::After(0),
};

const LAMP: Kind = Kind {
    class: ClassId(7),
    refs: 0,
    plain: 0,
    ready: Ready::After(0),
};

pub(crate) const NOBODY: Name = Name { lane: 9, count: 99 };

pub(crate) const NOTHING: Ref = Ref {
    index: 99,
    name: NOBODY,
};

#[test]
fn an_empty_world_is_collected(rt: HostRuntime) -> Result<(), Fail> {
    let mut heap = PlainHeap::<Small>::new(rt.alloc())?;
    let mut found = [NOBODY; 4];
    assert_eq!(rt; heap.phase(), Phase::Idle);
    assert_eq!(rt; heap.commit(), Commit::NotMarking(Phase::Idle));
    assert_eq!(rt;
        heap.sweep(5, &mut found),
        Swept {
            looked: 0,
            found: 0,
            stop: SweepStop::NotGathering(Phase::Idle)
        }
    );
    assert_eq!(rt; heap.begin(), Begin::Started);
    assert_eq!(rt; heap.begin(), Begin::Running(Phase::Marking));
    assert_eq!(rt; heap.commit(), Commit::Done);
    assert_eq!(rt; heap.begin(), Begin::Running(Phase::Gathering));
    assert_eq!(rt;
        heap.sweep(10, &mut found),
        Swept {
            looked: 10,
            found: 0,
            stop: SweepStop::More
        }
    );
    assert_eq!(rt;
        heap.sweep(10, &mut found),
        Swept {
            looked: 6,
            found: 0,
            stop: SweepStop::Settled
        }
    );
    assert_eq!(rt; heap.left(), 0);
    assert_eq!(rt; heap.begin(), Begin::Started);
    Ok(())
}

#[test]
fn the_unrooted_units_are_removed(rt: HostRuntime) -> Result<(), Fail> {
    let mut heap = PlainHeap::<Level>::new(rt.alloc())?;
    let mut one = [NOTHING; 1];
    let mut cluster = [NOTHING; 3];
    let mut found = [NOBODY; 8];
    assert_eq!(rt; heap.open_frame(1), Phase::Idle);
    assert_eq!(rt; heap.create(1, &[PLAIN; 1], &mut one), Ok(()));
    assert_eq!(rt;
        one[0],
        Ref {
            index: 8192,
            name: Name { lane: 1, count: 1 }
        }
    );
    assert_eq!(rt; heap.set_root(1, one[0], true), false);
    assert_eq!(rt; heap.create(1, &[PLAIN; 3], &mut cluster), Ok(()));
    assert_eq!(rt;
        cluster[2],
        Ref {
            index: 8195,
            name: Name { lane: 1, count: 4 }
        }
    );
    assert_eq!(rt; heap.begin(), Begin::Frames(1));
    heap.close_frame(1);
    assert_eq!(rt; heap.begin(), Begin::Started);
    assert_eq!(rt; heap.commit(), Commit::Unfinished { word: 0, bits: 1 });
    assert_eq!(rt;
        heap.mark(0, 100),
        Marked {
            scanned: 1,
            stop: MarkStop::Idle
        }
    );
    assert_eq!(rt; heap.commit(), Commit::Done);
    assert_eq!(rt;
        heap.sweep(100000, &mut found),
        Swept {
            looked: 32768,
            found: 3,
            stop: SweepStop::Settled
        }
    );
    assert_eq!(rt; found[0], Name { lane: 1, count: 2 });
    assert_eq!(rt; found[2], Name { lane: 1, count: 4 });
    assert_eq!(rt; heap.left(), 3);
    assert_eq!(rt; heap.begin(), Begin::Purging(3));
    Ok(())
}

#[test]
fn a_lane_is_full(rt: HostRuntime) -> Result<(), Fail> {
    let mut heap = PlainHeap::<Small>::new(rt.alloc())?;
    let mut cluster = [NOTHING; 7];
    let mut pair = [NOTHING; 2];
    let mut one = [NOTHING; 1];
    assert_eq!(rt; heap.open_frame(0), Phase::Idle);
    assert_eq!(rt; heap.create(0, &[PLAIN; 7], &mut cluster), Ok(()));
    assert_eq!(rt;
        heap.create(0, &[PLAIN; 2], &mut pair),
        Err(CreateErr::Full { free: 1 })
    );
    assert_eq!(rt; heap.create(0, &[PLAIN; 1], &mut one), Ok(()));
    assert_eq!(rt;
        one[0],
        Ref {
            index: 7,
            name: Name { lane: 0, count: 8 }
        }
    );
    Ok(())
}

/// A world that gathers. Its lane 0 made a rooted object, and then one object and a cluster of two,
/// which are removed.
fn gathering(rt: &impl Abort, alloc: Global) -> Result<PlainHeap<Small>, Fail>
    ensures { IfOk result (λ h. (after h.history).opened ≡ []) }
{
    let mut heap = PlainHeap::<Small>::new(alloc)?;
    let mut one = [NOTHING; 1];
    let mut pair = [NOTHING; 2];
    assert_eq!(rt; heap.open_frame(0), Phase::Idle);
    match heap.create(0, &[PLAIN; 1], &mut one) {
        Ok(()) => {}
        Err(_) => panic!(rt; "no room"),
    }
    assert_eq!(rt; heap.set_root(0, one[0], true), false);
    assert_eq!(rt; heap.create(0, &[LAMP; 1], &mut one), Ok(()));
    assert_eq!(rt; heap.create(0, &[LAMP, PLAIN], &mut pair), Ok(()));
    heap.close_frame(0);
    assert_eq!(rt; heap.begin(), Begin::Started);
    assert_eq!(rt;
        heap.mark(0, 100),
        Marked {
            scanned: 1,
            stop: MarkStop::Idle
        }
    );
    assert_eq!(rt; heap.commit(), Commit::Done);
    Ok(heap)
}

pub(crate) fn named(count: u64) -> Name {
    Name { lane: 0, count }
}

fn begun(count: u64, class: u32) -> HookCall {
    HookCall::Begin {
        name: named(count),
        class: ClassId(class),
    }
}

fn asked(count: u64, class: u32, poll: u32, answer: bool) -> HookCall {
    HookCall::Ready {
        name: named(count),
        class: ClassId(class),
        poll,
        answer,
    }
}

fn finished(count: u64, class: u32) -> HookCall {
    HookCall::Finish {
        name: named(count),
        class: ClassId(class),
    }
}

#[test]
fn removed_objects_are_destroyed(rt: HostRuntime) -> Result<(), Fail> {
    let mut heap = gathering(&rt, rt.alloc())?;
    let mut found = [NOBODY; 8];
    let mut hooks = MemHooks::new(0);
    assert_eq!(rt; heap.purge(&mut hooks, 10), Purged::Gathering);
    assert_eq!(rt; heap.begin(), Begin::Running(Phase::Gathering));
    assert_eq!(rt;
        heap.sweep(2, &mut found),
        Swept {
            looked: 2,
            found: 1,
            stop: SweepStop::More
        }
    );
    assert_eq!(rt; heap.purge(&mut hooks, 10), Purged::Gathering);
    assert_eq!(rt;
        heap.sweep(100, &mut found),
        Swept {
            looked: 14,
            found: 2,
            stop: SweepStop::Settled
        }
    );
    assert_eq!(rt; heap.begin(), Begin::Purging(3));
    assert_eq!(rt; hooks.calls().len(), 0);
    assert_eq!(rt;
        heap.purge(&mut hooks, 5),
        Purged::Ran { steps: 5, left: 2 }
    );
    assert_eq!(rt; heap.begin(), Begin::Purging(2));
    assert_eq!(rt;
        heap.purge(&mut hooks, 10),
        Purged::Ran { steps: 3, left: 0 }
    );
    assert_eq!(rt;
        heap.purge(&mut hooks, 10),
        Purged::Ran { steps: 0, left: 0 }
    );
    let told = [
        begun(2, 7),
        begun(3, 7),
        begun(4, 0),
        asked(2, 7, 1, true),
        finished(2, 7),
        asked(3, 7, 1, true),
        finished(3, 7),
        asked(4, 0, 1, true),
        finished(4, 0),
    ];
    assert_eq!(rt; hooks.calls(), told.as_slice());
    assert_eq!(rt; heap.left(), 0);
    assert_eq!(rt; heap.begin(), Begin::Started);
    Ok(())
}

#[test]
fn objects_are_asked_in_turn_until_they_are_ready(rt: HostRuntime) -> Result<(), Fail> {
    let mut heap = gathering(&rt, rt.alloc())?;
    let mut other = gathering(&rt, rt.alloc())?;
    let mut found = [NOBODY; 8];
    let mut hooks = MemHooks::new(2);
    let mut by_step = MemHooks::new(2);
    heap.sweep(100, &mut found);
    other.sweep(100, &mut found);
    assert_eq!(rt;
        heap.purge(&mut hooks, 100),
        Purged::Ran { steps: 14, left: 0 }
    );
    for step in 0..14 {
        let left = if step < 10 {
            3
        } else if step < 13 {
            2
        } else {
            0
        };
        assert_eq!(rt;
            other.purge(&mut by_step, 1),
            Purged::Ran { steps: 1, left }
        );
    }
    assert_eq!(rt;
        other.purge(&mut by_step, 1),
        Purged::Ran { steps: 0, left: 0 }
    );
    let told = [
        begun(2, 7),
        begun(3, 7),
        begun(4, 0),
        asked(2, 7, 1, false),
        asked(3, 7, 1, false),
        asked(4, 0, 1, false),
        asked(2, 7, 2, false),
        asked(3, 7, 2, false),
        asked(4, 0, 2, false),
        asked(2, 7, 3, true),
        finished(2, 7),
        asked(3, 7, 3, true),
        finished(3, 7),
        asked(4, 0, 3, true),
        finished(4, 0),
    ];
    assert_eq!(rt; hooks.calls(), told.as_slice());
    assert_eq!(rt; by_step.calls(), told.as_slice());
    Ok(())
}

#[test]
fn a_released_index_is_used_again(rt: HostRuntime) -> Result<(), Fail> {
    let mut heap = gathering(&rt, rt.alloc())?;
    let mut found = [NOBODY; 8];
    let mut one = [NOTHING; 1];
    let mut hooks = MemHooks::new(0);
    heap.sweep(100, &mut found);
    assert_eq!(rt;
        heap.purge(&mut hooks, 5),
        Purged::Ran { steps: 5, left: 2 }
    );
    assert_eq!(rt; heap.open_frame(0), Phase::Idle);
    assert_eq!(rt; heap.create(0, &[PLAIN; 1], &mut one), Ok(()));
    assert_eq!(rt;
        one[0],
        Ref {
            index: 1,
            name: named(5)
        }
    );
    Ok(())
}
