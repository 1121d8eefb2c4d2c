//! The commands of lanes that name no element of a field.
ghost use Rattle.std.specs.Prelude.{◌≡◌, length};
ghost use Rattle.world_model.specs.Engines.{IsInFrame, KeepsHeld};
ghost use Rattle.world_play.specs.Header.{Header};
ghost use Rattle.world_play.specs.Types.cmd;
ghost use Rattle.world_play.specs.Types.lane_cmd;
ghost use Rattle.world_play.specs.Lanes.{no_room};
ghost use Rattle.world_play.specs.Turns.{IsReady, LaneDid};
ghost use Rattle.world_play.specs.Variables.{standing, shown, HasVariable, AreHeld};

use crate::cells::{get, load, put, set, store, take};
use crate::header::Header;
use crate::pointers::{forged, held, hold, resolve, same_weak, weak};
use crate::reply::Reply;
use crate::units::cluster;
use crate::variables::Variables;
use level_script::LaneCmd;
use world_model::{ClassId, CreateErr, Engine, Name, Ref, Shape};

/// What stands in a buffer before an object is made.
pub(crate) const NO_REF: Ref = Ref {
    index: 0,
    name: Name { lane: 0, count: 0 },
};

/// Why no object was made, as it is told.
pub(crate) fn no_room(lane: u32, why: CreateErr) -> Reply
    ensures { result ≡ no_room lane why }
{
    match why {
        CreateErr::Full { free } => Reply::Full(lane, free),
        CreateErr::NamesSpent { left } => Reply::NamesSpent(lane, left as u64),
    }
}

/// `new V CLASS`.
fn make<S: Shape, E: Engine<S>>(
    engine: &mut E,
    header: &Header<'_>,
    variables: &mut Variables,
    lane: u32,
    var: u32,
    class: ClassId,
) -> Reply
    requires { IsReady S.sizes (E.history engine.old) (E.holds engine.old) (standing variables.old) header.now (cmd.Lane lane (lane_cmd.New var class)) }
    ensures did { LaneDid header.now (E.history engine.old) (E.history engine.new) (shown (standing variables.old)) (shown (standing variables.new)) lane (lane_cmd.New var class) result }
    ensures held { AreHeld (E.holds engine.new) (standing variables.new) }
    ensures counts { (standing variables.new).counts ≡ (standing variables.old).counts }
{
    let kind = header.classes.kind(class);
    let mut out = [NO_REF];
    match engine.create(lane, &[kind], &mut out) {
        Ok(()) => {
            let at = out[0];
            variables.bind(lane, var, Some(at));
            Reply::New(lane, at.name)
        }
        Err(why) => {
            variables.bind(lane, var, None);
            no_room(lane, why)
        }
    }
}

/// `root V on` or `root V off`.
fn root<S: Shape, E: Engine<S>>(
    engine: &mut E,
    variables: &Variables,
    lane: u32,
    var: u32,
    on: bool,
) -> Reply
    requires frame { IsInFrame S.sizes (E.history engine.old) lane }
    requires var { HasVariable (standing variables.now) lane var }
    requires held { AreHeld (E.holds engine.old) (standing variables.now) }
    ensures did { (header : Header) → LaneDid header (E.history engine.old) (E.history engine.new) (shown (standing variables.now)) (shown (standing variables.now)) lane (lane_cmd.Root var on) result }
    ensures held { KeepsHeld (E.holds engine.old) (E.holds engine.new) }
{
    match variables.get(lane, var) {
        Some(at) => Reply::WasRoot(lane, engine.set_root(lane, at, on)),
        None => Reply::NoObject(lane),
    }
}

/// `print V`.
fn print<S: Shape, E: Engine<S>>(
    engine: &mut E,
    variables: &Variables,
    lane: u32,
    var: u32,
) -> Reply
    requires frame { IsInFrame S.sizes (E.history engine.old) lane }
    requires var { HasVariable (standing variables.now) lane var }
    requires held { AreHeld (E.holds engine.old) (standing variables.now) }
    ensures did { (header : Header) → LaneDid header (E.history engine.old) (E.history engine.new) (shown (standing variables.now)) (shown (standing variables.now)) lane (lane_cmd.Print var) result }
    ensures held { KeepsHeld (E.holds engine.old) (E.holds engine.new) }
{
    match variables.get(lane, var) {
        Some(at) => Reply::Object(lane, at.name, engine.kind_of(lane, at).class),
        None => Reply::NoObject(lane),
    }
}

/// Plays a command of a lane.
pub(crate) fn lane_turn<S: Shape, E: Engine<S>>(
    engine: &mut E,
    header: &Header<'_>,
    variables: &mut Variables,
    lane: u32,
    what: &LaneCmd,
) -> Reply
    requires { IsReady S.sizes (E.history engine.old) (E.holds engine.old) (standing variables.old) header.now (cmd.Lane lane what.now) }
    ensures did { LaneDid header.now (E.history engine.old) (E.history engine.new) (shown (standing variables.old)) (shown (standing variables.new)) lane what.now result }
    ensures held { AreHeld (E.holds engine.new) (standing variables.new) }
    ensures counts { (standing variables.new).counts ≡ (standing variables.old).counts }
{
    match what {
        LaneCmd::Open => Reply::Opened(lane, engine.open_frame(lane)),
        LaneCmd::Close => {
            engine.close_frame(lane);
            variables.end(lane);
            Reply::Closed(lane)
        }
        LaneCmd::New { var, class } => make::<S, E>(engine, header, variables, lane, *var, *class),
        LaneCmd::Cluster { members } => {
            cluster::<S, E>(engine, header, variables, lane, members.as_slice())
        }
        LaneCmd::Root { var, on } => root::<S, E>(engine, variables, lane, *var, *on),
        LaneCmd::Set { spot, to } => set::<S, E>(engine, header, variables, lane, *spot, *to),
        LaneCmd::Get { var, spot } => get::<S, E>(engine, header, variables, lane, *var, *spot),
        LaneCmd::Put { spot, value } => put::<S, E>(engine, header, variables, lane, *spot, *value),
        LaneCmd::Take { spot } => take::<S, E>(engine, header, variables, lane, *spot),
        LaneCmd::Store { spot, weak } => store::<S, E>(
            engine, header, variables, lane, *spot, *weak,
        ),
        LaneCmd::Load { weak, spot } => load::<S, E>(engine, header, variables, lane, *weak, *spot),
        LaneCmd::Hold { h, to } => hold::<S, E>(engine, variables, lane, *h, *to),
        LaneCmd::Held { var, h } => held::<S, E>(engine, variables, lane, *var, *h),
        LaneCmd::Weak { weak: to, var } => weak::<S, E>(engine, variables, lane, *to, *var),
        LaneCmd::Resolve { var, weak } => { resolve::<S, E>(engine, variables, lane, *var, *weak) }
        LaneCmd::Forge { weak, index } => {
            variables.bind_weak(*weak, forged(*index));
            Reply::Forged(lane)
        }
        LaneCmd::Same { left, right } => {
            let same = same_weak(variables.weak(*left), variables.weak(*right));
            Reply::Same(lane, same)
        }
        LaneCmd::Print { var } => print::<S, E>(engine, variables, lane, *var),
    }
}
