//! The commands of strong and weak pointers that name no element of a field.
ghost use Rattle.std.specs.Prelude.{◌≡◌, ◌<◌, IfSome};
ghost use Rattle.world_model.specs.NameLists.{same_weak};
ghost use Rattle.world_model.specs.Engines.{IsInFrame, KeepsHeld};
ghost use Rattle.world_play.specs.Pairs.{forged};
ghost use Rattle.world_play.specs.Header.{Header};
ghost use Rattle.world_play.specs.Types.lane_cmd;
ghost use Rattle.world_play.specs.Turns.{LaneDid};
ghost use Rattle.world_play.specs.Variables.{standing, shown, HasVariable, HasWeak, AreHeld};

use crate::cells::name_of;
use crate::reply::Reply;
use crate::variables::{NO_PAIR, Variables};
use world_model::{Engine, Shape, Weak};

/// The serial of a forged pair. Its lane is 15, which no shape has.
const FORGED: u32 = 31;

/// `hold H V` and `hold H none`.
pub(crate) fn hold<S: Shape, E: Engine<S>>(
    engine: &mut E,
    variables: &Variables,
    lane: u32,
    h: u32,
    to: Option<u32>,
) -> Reply
    requires frame { IsInFrame S.sizes (E.history engine.old) lane }
    requires number { h < S.sizes.strong }
    requires to { IfSome to (HasVariable (standing variables.now) lane) }
    requires held { AreHeld (E.holds engine.old) (standing variables.now) }
    ensures did { (header : Header) → LaneDid header (E.history engine.old) (E.history engine.new) (shown (standing variables.now)) (shown (standing variables.now)) lane (lane_cmd.Hold h to) result }
    ensures held { KeepsHeld (E.holds engine.old) (E.holds engine.new) }
{
    let value = variables.value(lane, to);
    let old = engine.set_strong(lane, h, value);
    Reply::Was(lane, name_of(old))
}

/// `held V H`.
pub(crate) fn held<S: Shape, E: Engine<S>>(
    engine: &mut E,
    variables: &mut Variables,
    lane: u32,
    var: u32,
    h: u32,
) -> Reply
    requires frame { IsInFrame S.sizes (E.history engine.old) lane }
    requires number { h < S.sizes.strong }
    requires var { HasVariable (standing variables.old) lane var }
    requires held { AreHeld (E.holds engine.old) (standing variables.old) }
    ensures did { (header : Header) → LaneDid header (E.history engine.old) (E.history engine.new) (shown (standing variables.old)) (shown (standing variables.new)) lane (lane_cmd.Held var h) result }
    ensures held { AreHeld (E.holds engine.new) (standing variables.new) }
    ensures counts { (standing variables.new).counts ≡ (standing variables.old).counts }
{
    let got = engine.get_strong(lane, h);
    variables.bind(lane, var, got);
    Reply::Is(lane, name_of(got))
}

/// `weak W V`.
pub(crate) fn weak<S: Shape, E: Engine<S>>(
    engine: &mut E,
    variables: &mut Variables,
    lane: u32,
    weak: u32,
    var: u32,
) -> Reply
    requires frame { IsInFrame S.sizes (E.history engine.old) lane }
    requires weak { HasWeak (standing variables.old) weak }
    requires var { HasVariable (standing variables.old) lane var }
    requires held { AreHeld (E.holds engine.old) (standing variables.old) }
    ensures did { (header : Header) → LaneDid header (E.history engine.old) (E.history engine.new) (shown (standing variables.old)) (shown (standing variables.new)) lane (lane_cmd.Weak weak var) result }
    ensures held { AreHeld (E.holds engine.new) (standing variables.new) }
    ensures counts { (standing variables.new).counts ≡ (standing variables.old).counts }
{
    let Some(at) = variables.get(lane, var) else {
        variables.bind_weak(weak, NO_PAIR);
        return Reply::NoObject(lane);
    };
    match engine.weak_of(lane, at) {
        Ok(pair) => {
            variables.bind_weak(weak, pair);
            Reply::WeakMade(lane, at.name)
        }
        Err(spent) => {
            variables.bind_weak(weak, NO_PAIR);
            Reply::SerialsSpent(lane, spent.made)
        }
    }
}

/// `resolve V W`.
pub(crate) fn resolve<S: Shape, E: Engine<S>>(
    engine: &mut E,
    variables: &mut Variables,
    lane: u32,
    var: u32,
    weak: u32,
) -> Reply
    requires frame { IsInFrame S.sizes (E.history engine.old) lane }
    requires weak { HasWeak (standing variables.old) weak }
    requires var { HasVariable (standing variables.old) lane var }
    requires held { AreHeld (E.holds engine.old) (standing variables.old) }
    ensures did { (header : Header) → LaneDid header (E.history engine.old) (E.history engine.new) (shown (standing variables.old)) (shown (standing variables.new)) lane (lane_cmd.Resolve var weak) result }
    ensures held { AreHeld (E.holds engine.new) (standing variables.new) }
    ensures counts { (standing variables.new).counts ≡ (standing variables.old).counts }
{
    let got = engine.resolve(lane, variables.weak(weak));
    variables.bind(lane, var, got);
    Reply::Is(lane, name_of(got))
}

/// The pair of `forge`.
pub(crate) fn forged(index: u32) -> Weak
    ensures { result ≡ forged index }
{
    Weak {
        index,
        serial: FORGED,
    }
}

/// Whether two pairs have the same index and the same serial.
pub(crate) fn same_weak(left: Weak, right: Weak) -> bool
    ensures { result ≡ same_weak left right }
{
    left.index == right.index && left.serial == right.serial
}
