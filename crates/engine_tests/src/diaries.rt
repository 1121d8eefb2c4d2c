//! What no clause says: that calls succeed with ample memory, what is printed, how names sort, and
//! what hooks in memory keep.
use std::test::Fail;
use world_model::{
    Act, Begin, ClassId, Commit, Diary, Entry, HookCall, Hooks, Kind, Kinds, Level, MarkStop,
    Marked, MemHooks, Name, Names, Pass, Phase, Purged, Ready, Sequence, Shape, Small, SweepStop,
    Swept, Weak,
};

fn name(lane: u32, count: u64) -> Name {
    Name { lane, count }
}

fn kind(class: u32) -> Kind {
    Kind {
        class: ClassId(class),
        refs: 1,
        plain: 2,
        ready: Ready::After(3),
    }
}

#[test]
fn each_act_is_told_to_a_diary(rt: HostRuntime) -> Result<(), Fail> {
    let mut diary = Diary::new(rt.alloc())?;
    let lane = Pass::Lane(0);
    let one = name(0, 1);
    let pair = Weak {
        index: 0,
        serial: 16,
    };
    diary.frame_open(lane, Phase::Idle);
    diary.make(lane, &[kind(1), kind(2)], 1);
    diary.full(lane, 9, 6);
    diary.names_spent(lane, 9, 8);
    diary.read_ref(lane, one, 0, None);
    diary.write_ref(lane, one, 0, Some(one), None);
    diary.read_plain(lane, one, 11, 0);
    diary.write_plain(lane, one, 11, 7, 0);
    diary.root(lane, one, true, false);
    diary.set_strong(lane, 0, Some(one), None);
    diary.get_strong(lane, 0, Some(one));
    diary.weak_of(lane, one, pair);
    diary.no_serial(lane, one, 8);
    diary.resolve(lane, pair, Some(one));
    diary.loose(lane, name(0, 2));
    diary.dissolve(lane, one, 2);
    diary.no_dissolve(lane, one);
    diary.mark_garbage(lane, one, false);
    diary.is_valid(lane, one, false);
    diary.frame_close(lane);
    told_to_markers_and_collector(&mut diary, one);
    Ok(())
}

fn told_to_markers_and_collector(diary: &mut Diary, one: Name) {
    let marker = Pass::Marker(0);
    let marked = Marked {
        scanned: 1,
        stop: MarkStop::Idle,
    };
    let swept = Swept {
        looked: 16,
        found: 1,
        stop: SweepStop::Settled,
    };
    diary.begin_gc(Pass::Collector, Begin::Started);
    diary.kept(Pass::Collector, one);
    diary.slice_open(marker);
    diary.scanned(marker, one);
    diary.slice(marker, 9, marked);
    diary.commit_gc(Pass::Collector, Commit::Done);
    diary.sweep(Pass::Collector, 16, swept, &[one]);
    diary.begun(Pass::Collector, one);
    diary.asked(Pass::Collector, one, 1, true);
    diary.finished(Pass::Collector, one);
    diary.released(Pass::Collector, one);
    diary.purge_gc(Pass::Collector, 9, Purged::Ran { steps: 3, left: 0 });
}

#[test]
fn names_sort_by_lane_and_then_by_count(rt: HostRuntime) {
    for (low, high) in [
        (name(0, 1), name(0, 2)),
        (name(0, 9), name(0, 10)),
        (name(0, 68719476735), name(1, 1)),
    ] {
        assert!(rt; low < high, "{low:?} before {high:?}");
    }
}

#[test]
fn entries_are_compared_and_copied(rt: HostRuntime) -> Result<(), Fail> {
    let alloc = rt.alloc();
    let kinds: Kinds = Sequence::from_vec(vec![in alloc; kind(1), kind(2)]?);
    let made = Entry {
        pass: Pass::Lane(1),
        act: Act::Make { kinds, first: 5 },
    };
    let found: Names = Sequence::from_vec(vec![in alloc; name(0, 1)]?);
    let swept = Entry {
        pass: Pass::Collector,
        act: Act::Sweep {
            budget: 1,
            reply: Swept {
                looked: 1,
                found: 1,
                stop: SweepStop::More,
            },
            found,
        },
    };
    assert!(rt; made.clone()? == made);
    assert!(rt; made != swept);
    let last: Names = Sequence::from_vec(vec![in alloc; name(0, 1), name(3, 2)]?);
    assert_eq!(rt; last.as_slice(), [name(0, 1), name(3, 2)].as_slice());
    Ok(())
}

/// Destroys an object that is asked twice, and gives the answers.
fn destroy<D: Hooks>(hooks: &mut D, name: Name, class: ClassId) -> (bool, bool) {
    hooks.begin(name, class);
    let early = hooks.ready(name, class, 1);
    let late = hooks.ready(name, class, 2);
    hooks.finish(name, class);
    (early, late)
}

fn asked(name: Name, class: ClassId, poll: u32, answer: bool) -> HookCall {
    HookCall::Ready {
        name,
        class,
        poll,
        answer,
    }
}

#[test]
fn hooks_in_memory_tell_their_calls(rt: HostRuntime) {
    let (one, two) = (name(0, 1), name(1, 7));
    let (door, lift) = (ClassId(0), ClassId(4095));
    let mut hooks = MemHooks::new(1);
    assert_eq!(rt; hooks.calls().len(), 0);
    assert_eq!(rt; destroy(&mut hooks, one, door), (false, true));
    assert_eq!(rt; destroy(&mut hooks, two, lift), (false, true));
    let told = [
        HookCall::Begin {
            name: one,
            class: door,
        },
        asked(one, door, 1, false),
        asked(one, door, 2, true),
        HookCall::Finish {
            name: one,
            class: door,
        },
        HookCall::Begin {
            name: two,
            class: lift,
        },
        asked(two, lift, 1, false),
        asked(two, lift, 2, true),
        HookCall::Finish {
            name: two,
            class: lift,
        },
    ];
    assert_eq!(rt; hooks.calls(), told.as_slice());
}

#[test]
fn hooks_in_memory_answer_by_their_wait(rt: HostRuntime) {
    let one = name(0, 1);
    let mut at_once = MemHooks::new(0);
    assert_eq!(rt; destroy(&mut at_once, one, ClassId(2)), (true, true));
    let mut never = MemHooks::new(4294967295);
    assert_eq!(rt; destroy(&mut never, one, ClassId(2)), (false, false));
}

#[test]
fn hooks_in_memory_keep_the_first_calls(rt: HostRuntime) {
    let mut hooks = MemHooks::new(100);
    for poll in 1..1031 {
        let _ = hooks.ready(name(0, 1), ClassId(3), poll);
    }
    let calls = hooks.calls();
    assert_eq!(rt; calls.len(), 1024);
    for (i, call) in calls.iter().enumerate() {
        let poll = i as u32 + 1;
        assert!(rt; *call == asked(name(0, 1), ClassId(3), poll, poll > 100));
    }
}

#[test]
fn shapes_have_their_limits(rt: HostRuntime) {
    assert_eq!(rt; Level::LANES, 4);
    assert_eq!(rt; Level::QUOTA, 8_192);
    assert_eq!(rt; Level::SLOTS, 12);
    assert_eq!(rt; Level::STRONG, 64);
    assert_eq!(rt; Level::MARKERS, 8);
    assert_eq!(rt; Level::SERIALS, 268_435_455);
    assert_eq!(rt; Level::NAMES, 68_719_476_735);
    assert_eq!(rt; Small::LANES, 2);
    assert_eq!(rt; Small::QUOTA, 8);
    assert_eq!(rt; Small::SLOTS, 4);
    assert_eq!(rt; Small::STRONG, 4);
    assert_eq!(rt; Small::MARKERS, 2);
    assert_eq!(rt; Small::SERIALS, 8);
    assert_eq!(rt; Small::NAMES, 64);
}
