//! The commands of the collector.
ghost use Rattle.std.specs.Prelude.{◌≡◌, ◌≤◌, length, IfOk, OnErr};
ghost use Rattle.world_model.specs.Histories.{after};
ghost use Rattle.world_model.specs.Engines.{KeepsHeld};
ghost use Rattle.world_model.specs.World.{left_of};
ghost use Rattle.world_play.specs.Types.gc_cmd;
ghost use Rattle.world_play.specs.Stages.{IsMarking, Marks, IsGathering, Finds, FindsSome, HasSwept, Destroys, GoesOn, GoesOnSome, Collects, CollectsSome};

use crate::header::Header;
use crate::hooks::ClassHooks;
use crate::reply::Reply;
use level_script::GcCmd;
use std::alloc::{AllocError, Global};
use world_model::{Begin, Engine, MarkStop, Name, Names, Purged, Shape, SweepStop};

/// The most steps of destruction of a whole collection, for each object that it removed.
const STEPS: u32 = 103;

/// What stands in a buffer before a name is found.
const NO_NAME: Name = Name { lane: 0, count: 0 };

/// Marker 0 marks in slices of so many objects until a slice is idle.
fn mark_all<S: Shape, E: Engine<S>>(engine: &mut E, budget: u32)
    requires some { 1 ≤ budget }
    requires marking { IsMarking S.sizes (E.history engine.old) }
    ensures marks { Marks S.sizes (E.history engine.old) (E.history engine.new) budget }
    ensures held { KeepsHeld (E.holds engine.old) (E.holds engine.new) }
{
    'slices: loop {
        let marked = engine.mark(0, budget);
        match marked.stop {
            MarkStop::Spent => {}
            MarkStop::Idle => return,
        }
    }
}

/// Sweeps in slices of so many items until all that was removed is found.
fn sweep_all<S: Shape, E: Engine<S>>(
    alloc: Global,
    engine: &mut E,
    budget: u32,
) -> Result<Vec<Name>, AllocError>
    requires some { 1 ≤ budget }
    requires gathering { IsGathering S.sizes (E.history engine.old) }
    ensures finds { IfOk result (λ found. Finds S.sizes (E.history engine.old) (E.history engine.new) budget found.items) }
    ensures some { OnErr result (FindsSome S.sizes (E.history engine.old) (E.history engine.new) budget) }
    ensures held { KeepsHeld (E.holds engine.old) (E.holds engine.new) }
{
    let mut found = Vec::new(alloc);
    let most = budget.min(S::LANES * S::QUOTA);
    let mut buffer = vec![in alloc; NO_NAME; most as usize]?;
    let room = buffer.as_mut_slice();
    'sweeps: loop {
        let swept = engine.sweep(budget, room);
        found.extend_from_slice(&room[..swept.found as usize])?;
        match swept.stop {
            SweepStop::More => {}
            _ => return Ok(found),
        }
    }
}

/// Destroys so many removed objects, in slices of so many steps, until none of them is left or 103
/// steps were made for each. It tells how many are left.
fn purge_all<S: Shape, E: Engine<S>>(
    engine: &mut E,
    header: &Header<'_>,
    removed: u32,
    budget: u32,
) -> u32
    requires some { 1 ≤ budget }
    requires few { removed ≤ 1048576 }
    requires swept { HasSwept S.sizes (E.history engine.old) }
    requires found { removed ≡ length (after (E.history engine.old)).found }
    ensures destroys { Destroys S.sizes budget header.now (E.history engine.old) (E.history engine.new) }
    ensures left { result ≡ left_of (after (E.history engine.new)) }
    ensures held { KeepsHeld (E.holds engine.old) (E.holds engine.new) }
{
    let mut hooks = ClassHooks {
        classes: header.classes,
    };
    let mut bound = removed * STEPS;
    let mut left = engine.left();
    'purges: loop {
        if left == 0 || bound == 0 {
            return left;
        }
        match engine.purge(&mut hooks, budget.min(bound)) {
            Purged::Ran { steps, left: rest } => {
                bound -= steps;
                left = rest;
            }
            Purged::Gathering => return left,
        }
    }
}

/// The rest of a whole collection, once it has begun.
fn go_on<S: Shape, E: Engine<S>>(
    alloc: Global,
    engine: &mut E,
    header: &Header<'_>,
    budget: u32,
) -> Result<Reply, AllocError>
    requires some { 1 ≤ budget }
    requires marking { IsMarking S.sizes (E.history engine.old) }
    ensures all { IfOk result (λ reply. GoesOn S.sizes budget header.now (E.history engine.old) (E.history engine.new) (E.holds engine.old) (E.holds engine.new) reply) }
    ensures some { OnErr result (GoesOnSome S.sizes budget (E.history engine.old) (E.history engine.new)) }
{
    mark_all::<S, E>(engine, budget);
    let _ = engine.commit();
    let mut names = sweep_all::<S, E>(alloc, engine, budget)?;
    names.sort_unstable();
    let removed = names.len() as u32;
    let left = purge_all::<S, E>(engine, header, removed, budget);
    Ok(Reply::FullGc(removed, left, Names::from_vec(names)))
}

/// `gc full`, in slices of so many objects, items or steps.
fn full<S: Shape, E: Engine<S>>(
    alloc: Global,
    engine: &mut E,
    header: &Header<'_>,
    budget: u32,
) -> Result<Reply, AllocError>
    requires some { 1 ≤ budget }
    ensures all { IfOk result (λ reply. Collects S.sizes budget header.now (E.history engine.old) (E.history engine.new) (E.holds engine.old) (E.holds engine.new) gc_cmd.Full reply) }
    ensures some { OnErr result (CollectsSome S.sizes budget (E.history engine.old) (E.history engine.new) gc_cmd.Full) }
{
    match engine.begin() {
        Begin::Started => go_on::<S, E>(alloc, engine, header, budget),
        Begin::Running(phase) => Ok(Reply::Running(phase)),
        Begin::Purging(left) => Ok(Reply::Purging(left)),
        Begin::Frames(frames) => Ok(Reply::Pending(frames)),
    }
}

/// Plays a command of the collector, in slices of so many objects, items or steps.
pub(crate) fn gc_turn<S: Shape, E: Engine<S>>(
    alloc: Global,
    engine: &mut E,
    header: &Header<'_>,
    budget: u32,
    cmd: &GcCmd,
) -> Result<Reply, AllocError>
    requires some { 1 ≤ budget }
    ensures all { IfOk result (λ reply. Collects S.sizes budget header.now (E.history engine.old) (E.history engine.new) (E.holds engine.old) (E.holds engine.new) cmd.now reply) }
    ensures some { OnErr result (CollectsSome S.sizes budget (E.history engine.old) (E.history engine.new) cmd.now) }
{
    match cmd {
        GcCmd::Full => full::<S, E>(alloc, engine, header, budget),
    }
}
