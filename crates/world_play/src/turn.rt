//! One command of a script.
ghost use Rattle.std.specs.Prelude.{◌≡◌, ◌≤◌, IfOk, OnErr};
ghost use Rattle.world_play.specs.Turns.{IsReady, Turned, Broken};
ghost use Rattle.world_play.specs.Variables.{standing, shown};

use crate::collection::gc_turn;
use crate::header::Header;
use crate::lane::lane_turn;
use crate::reply::Reply;
use crate::variables::Variables;
use level_script::Cmd;
use std::alloc::{AllocError, Global};
use world_model::{Engine, Shape};

/// Plays a command, with slices of so many objects, items or steps.
pub(crate) fn turn<S: Shape, E: Engine<S>>(
    alloc: Global,
    engine: &mut E,
    header: &Header<'_>,
    variables: &mut Variables,
    budget: u32,
    cmd: &Cmd,
) -> Result<Reply, AllocError>
    requires some { 1 ≤ budget }
    requires ready { IsReady S.sizes (E.history engine.old) (E.holds engine.old) (standing variables.old) header.now cmd.now }
    ensures turned { IfOk result (λ reply. Turned S.sizes budget header.now (E.history engine.old) (E.history engine.new) (E.holds engine.new) (standing variables.old) (standing variables.new) cmd.now reply) }
    ensures broken { OnErr result (Broken S.sizes budget header.now (E.history engine.old) (E.history engine.new) (shown (standing variables.old)) cmd.now) }
{
    match cmd {
        Cmd::Lane(lane, cmd) => Ok(lane_turn::<S, E>(engine, header, variables, *lane, cmd)),
        Cmd::Gc(cmd) => gc_turn::<S, E>(alloc, engine, header, budget, cmd),
    }
}
