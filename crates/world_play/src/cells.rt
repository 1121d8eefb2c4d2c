//! The commands of lanes that name an element of a field.
ghost use Rattle.std.specs.Prelude.{◌≡◌, ◌+◌, ◌^◌, ◌<◌, ◌≤◌, ◌-◌, ℕ, true, false, IsTrue, length, option_map, option_and_then, Some, IfSome, IfOk};
ghost use Rattle.class_schema.specs.Ancestry.{is_a};
ghost use Rattle.world_play.specs.Variables.{standing, shown, HasVariable, AreHeld};
ghost use Rattle.class_schema.specs.Layout.{is_ref};
ghost use Rattle.world_model.specs.World.{refs_of, plain_of};
ghost use Rattle.world_model.specs.Histories.{after};
ghost use Rattle.world_model.specs.Engines.{IsInFrame, KeepsHeld};
ghost use Rattle.world_play.specs.Types.cmd;
ghost use Rattle.world_play.specs.Types.lane_cmd;
ghost use Rattle.world_play.specs.Spots.{is_int, is_weak, kind_at, spot_at, may_refer};
ghost use Rattle.world_play.specs.Pairs.{pair_in, has_serial};
ghost use Rattle.class_schema.specs.Class.{Schema};
ghost use Rattle.class_schema.specs.Lawful.{IsSchema};
ghost use Rattle.world_play.specs.Turns.{IsReady, LaneDid, AreMade};
ghost use Rattle.class_schema.specs.Lawful.{has_target};
ghost use Rattle.world_play.specs.Cells.{FindsField, FitsObject, FindsElement, FindsCell};

use crate::header::Header;
use crate::reply::Reply;
use crate::variables::{NO_PAIR, Variables};
use level_script::{Field, FieldKind, Spot};
use word_layout::{pack_weak, unpack_weak};
use world_model::{Engine, Name, Ref, Shape, Weak};

/// A field of an object.
#[derive(Clone, Copy)]
struct Found {
    at: Ref,
    field: Field,
}

/// A cell of an object, as an element of a field of this kind.
#[derive(Clone, Copy)]
struct Cell {
    at: Ref,
    slot: u32,
    kind: FieldKind,
}

/// Whether the elements of a field of this kind are references.
fn is_ref(kind: FieldKind) -> bool
    ensures { result ≡ is_ref kind }
{
    match kind {
        FieldKind::Ref(_) => true,
        FieldKind::Weak => false,
        FieldKind::Int => false,
    }
}

/// Whether the elements of a field of this kind are numbers.
fn is_int(kind: FieldKind) -> bool
    ensures { result ≡ is_int kind }
{
    match kind {
        FieldKind::Ref(_) => false,
        FieldKind::Weak => false,
        FieldKind::Int => true,
    }
}

/// Whether the elements of a field of this kind are weak pointers.
fn is_weak(kind: FieldKind) -> bool
    ensures { result ≡ is_weak kind }
{
    match kind {
        FieldKind::Ref(_) => false,
        FieldKind::Weak => true,
        FieldKind::Int => false,
    }
}

/// The field that a spot names of the object of its variable.
fn find_field<S: Shape, E: Engine<S>>(
    engine: &mut E,
    header: &Header<'_>,
    lane: u32,
    at: Option<Ref>,
    spot: Spot,
) -> Result<Found, Reply>
    requires frame { IsInFrame S.sizes (E.history engine.old) lane }
    requires at { IfSome at (E.holds engine.old lane) }
    requires made { AreMade header.now (after (E.history engine.old)) }
    ensures finds { FindsField header.now (after (E.history engine.old)) lane (option_map (λ r. r.name) at) spot result }
    ensures own { IfOk result (λ found. at ≡ Some found.at) }
    ensures fits { IfOk result (λ found. FitsObject header.now (after (E.history engine.old)) found.at.name found.field) }
    ensures same { E.history engine.new ≡ E.history engine.old }
    ensures held { KeepsHeld (E.holds engine.old) (E.holds engine.new) }
{
    let Some(at) = at else {
        return Err(Reply::NoObject(lane));
    };
    let kind = engine.kind_of(lane, at);
    let Some(name) = header.fields.get(spot.field) else {
        return Err(Reply::NoField(lane));
    };
    match header
        .classes
        .find_field_hinted(kind.class, name, spot.field)
    {
        Some(field) => Ok(Found { at, field }),
        None => Err(Reply::NoField(lane)),
    }
}

/// The reference cell of an element of a field.
fn ref_cell(lane: u32, found: Found, element: u32) -> Result<Cell, Reply>
    requires few { is_ref found.field.kind ≡ true → found.field.first + found.field.count < 2 ^ 32 }
    ensures finds { FindsElement is_ref lane found element result }
    ensures is { IfOk result (λ cell. is_ref found.field.kind ≡ true) }
    ensures kind { IfOk result (λ cell. cell.kind ≡ found.field.kind) }
    ensures low { IfOk result (λ cell. cell.slot < found.field.first + found.field.count) }
{
    if !is_ref(found.field.kind) {
        return Err(Reply::WrongKind(lane));
    }
    if element >= found.field.count {
        return Err(Reply::NoElement(lane));
    }
    Ok(Cell {
        at: found.at,
        slot: found.field.first + element,
        kind: found.field.kind,
    })
}

/// The slot of an element of a field that is not of references: these go downwards from its first.
fn plain_slot(field: Field, element: u32) -> u32
    requires { element ≤ field.first }
    ensures { result ≡ field.first - element }
{
    field.first - element
}

/// The plain cell of an element of a field of numbers.
fn int_cell(lane: u32, found: Found, element: u32) -> Result<Cell, Reply>
    requires low { is_ref found.field.kind ≡ false → found.field.count ≤ found.field.first + 1 }
    ensures finds { FindsElement is_int lane found element result }
    ensures is { IfOk result (λ cell. is_ref found.field.kind ≡ false) }
    ensures low { IfOk result (λ cell. found.field.first + 1 ≤ cell.slot + found.field.count) }
    ensures high { IfOk result (λ cell. cell.slot ≤ found.field.first) }
{
    if !is_int(found.field.kind) {
        return Err(Reply::WrongKind(lane));
    }
    if element >= found.field.count {
        return Err(Reply::NoElement(lane));
    }
    Ok(Cell {
        at: found.at,
        slot: plain_slot(found.field, element),
        kind: found.field.kind,
    })
}

/// The plain cell of an element of a field of weak pointers.
fn weak_cell(lane: u32, found: Found, element: u32) -> Result<Cell, Reply>
    requires low { is_ref found.field.kind ≡ false → found.field.count ≤ found.field.first + 1 }
    ensures finds { FindsElement is_weak lane found element result }
    ensures is { IfOk result (λ cell. is_ref found.field.kind ≡ false) }
    ensures low { IfOk result (λ cell. found.field.first + 1 ≤ cell.slot + found.field.count) }
    ensures high { IfOk result (λ cell. cell.slot ≤ found.field.first) }
{
    if !is_weak(found.field.kind) {
        return Err(Reply::WrongKind(lane));
    }
    if element >= found.field.count {
        return Err(Reply::NoElement(lane));
    }
    Ok(Cell {
        at: found.at,
        slot: plain_slot(found.field, element),
        kind: found.field.kind,
    })
}

/// The reference cell that a spot stands for, where its variable stands for this object.
fn find_ref<S: Shape, E: Engine<S>>(
    engine: &mut E,
    header: &Header<'_>,
    lane: u32,
    at: Option<Ref>,
    spot: Spot,
) -> Result<Cell, Reply>
    requires frame { IsInFrame S.sizes (E.history engine.old) lane }
    requires at { IfSome at (E.holds engine.old lane) }
    requires slots { header.now.classes.slots ≡ S.sizes.slots }
    requires schema { IsSchema header.now.classes }
    requires made { AreMade header.now (after (E.history engine.old)) }
    ensures finds { FindsCell (spot_at header.now (after (E.history engine.old)).kinds lane is_ref (option_map (λ r. r.name) at) spot) result }
    ensures own { IfOk result (λ cell. at ≡ Some cell.at) }
    ensures inside { IfOk result (λ cell. cell.slot < refs_of (after (E.history engine.old)) cell.at.name) }
    ensures target { IfOk result (λ cell. IsTrue (has_target (length header.now.classes.classes) cell.kind)) }
    ensures same { E.history engine.new ≡ E.history engine.old }
    ensures held { KeepsHeld (E.holds engine.old) (E.holds engine.new) }
{
    let found = find_field::<S, E>(engine, header, lane, at, spot)?;
    ref_cell(lane, found, spot.element)
}

/// The cell of a number that a spot stands for, where its variable stands for this object.
fn find_int<S: Shape, E: Engine<S>>(
    engine: &mut E,
    header: &Header<'_>,
    lane: u32,
    at: Option<Ref>,
    spot: Spot,
) -> Result<Cell, Reply>
    requires frame { IsInFrame S.sizes (E.history engine.old) lane }
    requires at { IfSome at (E.holds engine.old lane) }
    requires slots { header.now.classes.slots ≡ S.sizes.slots }
    requires schema { IsSchema header.now.classes }
    requires made { AreMade header.now (after (E.history engine.old)) }
    ensures finds { FindsCell (spot_at header.now (after (E.history engine.old)).kinds lane is_int (option_map (λ r. r.name) at) spot) result }
    ensures own { IfOk result (λ cell. at ≡ Some cell.at) }
    ensures first { IfOk result (λ cell. S.sizes.slots - plain_of (after (E.history engine.old)) cell.at.name ≤ cell.slot) }
    ensures last { IfOk result (λ cell. cell.slot < S.sizes.slots) }
    ensures same { E.history engine.new ≡ E.history engine.old }
    ensures held { KeepsHeld (E.holds engine.old) (E.holds engine.new) }
{
    let found = find_field::<S, E>(engine, header, lane, at, spot)?;
    int_cell(lane, found, spot.element)
}

/// The cell of a weak pointer that a spot stands for, where its variable stands for this object.
fn find_weak<S: Shape, E: Engine<S>>(
    engine: &mut E,
    header: &Header<'_>,
    lane: u32,
    at: Option<Ref>,
    spot: Spot,
) -> Result<Cell, Reply>
    requires frame { IsInFrame S.sizes (E.history engine.old) lane }
    requires at { IfSome at (E.holds engine.old lane) }
    requires slots { header.now.classes.slots ≡ S.sizes.slots }
    requires schema { IsSchema header.now.classes }
    requires made { AreMade header.now (after (E.history engine.old)) }
    ensures finds { FindsCell (spot_at header.now (after (E.history engine.old)).kinds lane is_weak (option_map (λ r. r.name) at) spot) result }
    ensures own { IfOk result (λ cell. at ≡ Some cell.at) }
    ensures first { IfOk result (λ cell. S.sizes.slots - plain_of (after (E.history engine.old)) cell.at.name ≤ cell.slot) }
    ensures last { IfOk result (λ cell. cell.slot < S.sizes.slots) }
    ensures same { E.history engine.new ≡ E.history engine.old }
    ensures held { KeepsHeld (E.holds engine.old) (E.holds engine.new) }
{
    let found = find_field::<S, E>(engine, header, lane, at, spot)?;
    weak_cell(lane, found, spot.element)
}

/// Whether an element of this kind may refer to an object, or to none.
fn may_refer<S: Shape, E: Engine<S>>(
    engine: &mut E,
    header: &Header<'_>,
    lane: u32,
    kind: FieldKind,
    to: Option<Ref>,
) -> bool
    requires frame { IsInFrame S.sizes (E.history engine.old) lane }
    requires to { IfSome to (E.holds engine.old lane) }
    requires made { AreMade header.now (after (E.history engine.old)) }
    requires target { IsTrue (has_target (length header.now.classes.classes) kind) }
    ensures test { result ≡ may_refer header.now (after (E.history engine.old)).kinds kind (option_map (λ r. r.name) to) }
    ensures same { E.history engine.new ≡ E.history engine.old }
    ensures held { KeepsHeld (E.holds engine.old) (E.holds engine.new) }
{
    let FieldKind::Ref(class) = kind else {
        return false;
    };
    let Some(to) = to else {
        return true;
    };
    let own = engine.kind_of(lane, to).class;
    header.classes.is_a(own, class)
}

/// The name behind a reference, if there is one.
pub(crate) fn name_of(at: Option<Ref>) -> Option<Name>
    ensures { result ≡ option_map (λ r. r.name) at }
{
    match at {
        Some(at) => Some(at.name),
        None => None,
    }
}

/// `set SPOT V` and `set SPOT none`.
pub(crate) fn set<S: Shape, E: Engine<S>>(
    engine: &mut E,
    header: &Header<'_>,
    variables: &Variables,
    lane: u32,
    spot: Spot,
    to: Option<u32>,
) -> Reply
    requires { IsReady S.sizes (E.history engine.old) (E.holds engine.old) (standing variables.now) header.now (cmd.Lane lane (lane_cmd.Set spot to)) }
    ensures did { LaneDid header.now (E.history engine.old) (E.history engine.new) (shown (standing variables.now)) (shown (standing variables.now)) lane (lane_cmd.Set spot to) result }
    ensures held { KeepsHeld (E.holds engine.old) (E.holds engine.new) }
{
    let at = variables.get(lane, spot.var);
    let value = variables.value(lane, to);
    let cell = match find_ref::<S, E>(engine, header, lane, at, spot) {
        Ok(cell) => cell,
        Err(refusal) => return refusal,
    };
    if !may_refer::<S, E>(engine, header, lane, cell.kind, value) {
        return Reply::WrongClass(lane);
    }
    let old = engine.write_ref(lane, cell.at, cell.slot, value);
    Reply::Was(lane, name_of(old))
}

/// `get V SPOT`.
pub(crate) fn get<S: Shape, E: Engine<S>>(
    engine: &mut E,
    header: &Header<'_>,
    variables: &mut Variables,
    lane: u32,
    var: u32,
    spot: Spot,
) -> Reply
    requires { IsReady S.sizes (E.history engine.old) (E.holds engine.old) (standing variables.old) header.now (cmd.Lane lane (lane_cmd.Get var spot)) }
    ensures did { LaneDid header.now (E.history engine.old) (E.history engine.new) (shown (standing variables.old)) (shown (standing variables.new)) lane (lane_cmd.Get var spot) result }
    ensures held { AreHeld (E.holds engine.new) (standing variables.new) }
    ensures counts { (standing variables.new).counts ≡ (standing variables.old).counts }
{
    let at = variables.get(lane, spot.var);
    match find_ref::<S, E>(engine, header, lane, at, spot) {
        Ok(cell) => {
            let got = engine.read_ref(lane, cell.at, cell.slot);
            variables.bind(lane, var, got);
            Reply::Is(lane, name_of(got))
        }
        Err(refusal) => {
            variables.bind(lane, var, None);
            refusal
        }
    }
}

/// `put SPOT N`.
pub(crate) fn put<S: Shape, E: Engine<S>>(
    engine: &mut E,
    header: &Header<'_>,
    variables: &Variables,
    lane: u32,
    spot: Spot,
    value: u64,
) -> Reply
    requires { IsReady S.sizes (E.history engine.old) (E.holds engine.old) (standing variables.now) header.now (cmd.Lane lane (lane_cmd.Put spot value)) }
    ensures did { LaneDid header.now (E.history engine.old) (E.history engine.new) (shown (standing variables.now)) (shown (standing variables.now)) lane (lane_cmd.Put spot value) result }
    ensures held { KeepsHeld (E.holds engine.old) (E.holds engine.new) }
{
    let at = variables.get(lane, spot.var);
    match find_int::<S, E>(engine, header, lane, at, spot) {
        Ok(cell) => {
            let old = engine.write_plain(lane, cell.at, cell.slot, value);
            Reply::WasNumber(lane, old)
        }
        Err(refusal) => refusal,
    }
}

/// `take SPOT`.
pub(crate) fn take<S: Shape, E: Engine<S>>(
    engine: &mut E,
    header: &Header<'_>,
    variables: &Variables,
    lane: u32,
    spot: Spot,
) -> Reply
    requires { IsReady S.sizes (E.history engine.old) (E.holds engine.old) (standing variables.now) header.now (cmd.Lane lane (lane_cmd.Take spot)) }
    ensures did { LaneDid header.now (E.history engine.old) (E.history engine.new) (shown (standing variables.now)) (shown (standing variables.now)) lane (lane_cmd.Take spot) result }
    ensures held { KeepsHeld (E.holds engine.old) (E.holds engine.new) }
{
    let at = variables.get(lane, spot.var);
    match find_int::<S, E>(engine, header, lane, at, spot) {
        Ok(cell) => {
            let got = engine.read_plain(lane, cell.at, cell.slot);
            Reply::IsNumber(lane, got)
        }
        Err(refusal) => refusal,
    }
}

/// Whether the pair has a serial.
fn has_serial(pair: Weak) -> bool
    ensures { result ≡ has_serial pair }
{
    pair.serial > 0
}

/// The pair of a word.
fn pair_in(word: u64) -> Weak
    ensures { result ≡ pair_in word }
{
    unpack_weak(word)
}

/// `store SPOT W` and `store SPOT none`.
pub(crate) fn store<S: Shape, E: Engine<S>>(
    engine: &mut E,
    header: &Header<'_>,
    variables: &Variables,
    lane: u32,
    spot: Spot,
    weak: Option<u32>,
) -> Reply
    requires { IsReady S.sizes (E.history engine.old) (E.holds engine.old) (standing variables.now) header.now (cmd.Lane lane (lane_cmd.Store spot weak)) }
    ensures did { LaneDid header.now (E.history engine.old) (E.history engine.new) (shown (standing variables.now)) (shown (standing variables.now)) lane (lane_cmd.Store spot weak) result }
    ensures held { KeepsHeld (E.holds engine.old) (E.holds engine.new) }
{
    let at = variables.get(lane, spot.var);
    let value = pack_weak(variables.stored(weak));
    match find_weak::<S, E>(engine, header, lane, at, spot) {
        Ok(cell) => {
            let old = engine.write_plain(lane, cell.at, cell.slot, value);
            Reply::WasWeak(lane, has_serial(pair_in(old)))
        }
        Err(refusal) => refusal,
    }
}

/// `load W SPOT`.
pub(crate) fn load<S: Shape, E: Engine<S>>(
    engine: &mut E,
    header: &Header<'_>,
    variables: &mut Variables,
    lane: u32,
    weak: u32,
    spot: Spot,
) -> Reply
    requires { IsReady S.sizes (E.history engine.old) (E.holds engine.old) (standing variables.old) header.now (cmd.Lane lane (lane_cmd.Load weak spot)) }
    ensures did { LaneDid header.now (E.history engine.old) (E.history engine.new) (shown (standing variables.old)) (shown (standing variables.new)) lane (lane_cmd.Load weak spot) result }
    ensures held { AreHeld (E.holds engine.new) (standing variables.new) }
    ensures counts { (standing variables.new).counts ≡ (standing variables.old).counts }
{
    let at = variables.get(lane, spot.var);
    match find_weak::<S, E>(engine, header, lane, at, spot) {
        Ok(cell) => {
            let got = engine.read_plain(lane, cell.at, cell.slot);
            let pair = pair_in(got);
            variables.bind_weak(weak, pair);
            Reply::IsWeak(lane, has_serial(pair))
        }
        Err(refusal) => {
            variables.bind_weak(weak, NO_PAIR);
            refusal
        }
    }
}
