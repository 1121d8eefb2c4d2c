//! The command that makes a cluster.
ghost use Rattle.std.specs.Prelude.{◌≡◌, ◌≤◌, ◌<◌, length, IsTrue};
ghost use Rattle.std.specs.List.{All, list_all};
ghost use Rattle.world_model.specs.Sizes.{Sizes};
ghost use Rattle.world_model.specs.LaneSteps.{is_lawful};
ghost use Rattle.world_play.specs.Lanes.{kinds_of};
ghost use Rattle.world_play.specs.Turns.{IsReady, LaneDid};
ghost use Rattle.world_play.specs.Types.cmd;
ghost use Rattle.world_play.specs.Types.lane_cmd;
ghost use Rattle.world_play.specs.Variables.{standing, shown, with_members, without_members, HasVariable, AreHeld};

use crate::header::Header;
use crate::lane::{NO_REF, no_room};
use crate::reply::Reply;
use crate::variables::Variables;
use level_script::Member;
use world_model::{ClassId, Engine, Kind, Ready, Ref, Shape};

/// What stands in the room before a cluster is made.
const NO_KIND: Kind = Kind {
    class: ClassId(0),
    refs: 0,
    plain: 0,
    ready: Ready::After(0),
};

/// Room for the kinds of the members of a cluster, and for the references that the engine gives. It
/// stands on the stack, some 40 kilobytes, so that nothing is allocated.
#[derive(Drop)]
struct Room {
    kinds: [Kind; 1024],
    refs: [Ref; 1024],
}

/// Writes the kinds of the members of a cluster.
fn list_kinds(header: &Header<'_>, members: &[Member], kinds: &mut [Kind])
    requires room { length kinds.old ≡ length members.now }
    requires classes { All (λ m. m.class.0 < length header.now.classes.classes) members.now }
    ensures kinds { kinds.new ≡ kinds_of header.now members.now }
    ensures lawful { (z : Sizes) → z.slots ≡ header.now.classes.slots → IsTrue (list_all (is_lawful z) kinds.new) }
{
    for i in 0..members.len() {
        kinds[i] = header.classes.kind(members[i].class);
    }
}

/// Lets the variables of the members of a cluster stand for these objects, in order.
fn bind_members(variables: &mut Variables, lane: u32, members: &[Member], refs: &[Ref])
    requires room { length refs.now ≡ length members.now }
    requires variables { All (λ m. HasVariable (standing variables.old) lane m.var) members.now }
    ensures { standing variables.new ≡ with_members (standing variables.old) lane members.now refs.now }
{
    for i in 0..members.len() {
        variables.bind(lane, members[i].var, Some(refs[i]));
    }
}

/// Lets them stand for none.
fn unbind_members(variables: &mut Variables, lane: u32, members: &[Member])
    requires variables { All (λ m. HasVariable (standing variables.old) lane m.var) members.now }
    ensures { standing variables.new ≡ without_members (standing variables.old) lane members.now }
{
    for i in 0..members.len() {
        variables.bind(lane, members[i].var, None);
    }
}

/// Makes a cluster, with room for the kinds of its members and for the references to them.
fn make_cluster<S: Shape, E: Engine<S>>(
    engine: &mut E,
    header: &Header<'_>,
    variables: &mut Variables,
    lane: u32,
    members: &[Member],
    kinds: &mut [Kind],
    refs: &mut [Ref],
) -> Reply
    requires ready { IsReady S.sizes (E.history engine.old) (E.holds engine.old) (standing variables.old) header.now (cmd.Lane lane (lane_cmd.Cluster members.now)) }
    requires some { 1 ≤ length members.now }
    requires few { length members.now ≤ 1024 }
    requires kinds { length kinds.old ≡ length members.now }
    requires refs { length refs.old ≡ length members.now }
    ensures did { LaneDid header.now (E.history engine.old) (E.history engine.new) (shown (standing variables.old)) (shown (standing variables.new)) lane (lane_cmd.Cluster members.now) result }
    ensures held { AreHeld (E.holds engine.new) (standing variables.new) }
    ensures counts { (standing variables.new).counts ≡ (standing variables.old).counts }
{
    list_kinds(header, members, kinds);
    match engine.create(lane, kinds, refs) {
        Ok(()) => {
            bind_members(variables, lane, members, refs);
            Reply::Cluster(lane, refs[0].name, members.len() as u32)
        }
        Err(why) => {
            unbind_members(variables, lane, members);
            no_room(lane, why)
        }
    }
}

/// `cluster V:CLASS ...`.
pub(crate) fn cluster<S: Shape, E: Engine<S>>(
    engine: &mut E,
    header: &Header<'_>,
    variables: &mut Variables,
    lane: u32,
    members: &[Member],
) -> Reply
    requires { IsReady S.sizes (E.history engine.old) (E.holds engine.old) (standing variables.old) header.now (cmd.Lane lane (lane_cmd.Cluster members.now)) }
    ensures did { LaneDid header.now (E.history engine.old) (E.history engine.new) (shown (standing variables.old)) (shown (standing variables.new)) lane (lane_cmd.Cluster members.now) result }
    ensures held { AreHeld (E.holds engine.new) (standing variables.new) }
    ensures counts { (standing variables.new).counts ≡ (standing variables.old).counts }
{
    let count = members.len();
    let mut room = Room {
        kinds: [NO_KIND; 1024],
        refs: [NO_REF; 1024],
    };
    let kinds = &mut room.kinds[..];
    let refs = &mut room.refs[..];
    make_cluster::<S, E>(
        engine,
        header,
        variables,
        lane,
        members,
        &mut kinds[..count],
        &mut refs[..count],
    )
}
