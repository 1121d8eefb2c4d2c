//! What every engine does, said by its history.
ghost use Rattle.std.specs.Prelude.{◌≡◌, ◌+◌, ◌-◌, ◌<◌, ◌≤◌, ◌⊎◌, ℕ, List, All, IfSome, IsTrue, OnOk, OnErr, Some, length, map, slice_get, take, drop, true, false};
ghost use Rattle.std.specs.List.{list_all};
ghost use Rattle.world_model.specs.Types.{Ref, Entry, Lane, Marker, Collector};
ghost use Rattle.world_model.specs.Types.act;
ghost use Rattle.world_model.specs.Types.sweep;
ghost use Rattle.world_model.specs.NameLists.{names_from, first_member};
ghost use Rattle.world_model.specs.World.{is_open, made, kind_of, unit_of, refs_of, plain_of, left_of};
ghost use Rattle.world_model.specs.State.{Holds};
ghost use Rattle.world_model.specs.LaneSteps.{is_lawful};
ghost use Rattle.world_model.specs.Histories.{state_of, after, Legal};
ghost use Rattle.world_model.specs.Calls.{Appends};
ghost use Rattle.world_model.specs.Hooks.{SameTest, AreCalled, MeetTest};
ghost use Rattle.world_model.specs.Engines.{IsInFrame, IsOfLane, no_slice, KeepsHeld, KeepsOthers, act_of_create, act_of_dissolve, act_of_weak, name_of};

use crate::hooks::Hooks;
use crate::kind::Kind;
use crate::name::{Name, Ref, Weak};
use crate::pass::Phase;
use crate::reply::{Begin, Commit, CreateErr, DissolveErr, Marked, Purged, SerialsSpent, Swept};
use crate::shape::Shape;

/// A world of objects, whichever way it is kept.
///
/// An engine means two things: its history, which is legal after every call, and for each lane the
/// references that its open frame holds. Every call but `lawful`, `kind_of`, `unit_of`, `member`, `phase` and `left` adds
/// to the history the entries of that call alone, the last of which carries its answer; so the
/// conditions under which an entry may stand there are the causes of the answer. What a lane holds it holds
/// until it closes its frame.
pub trait Engine<S: Shape> {
    /// All that was done, the first entry first.
    ghost history: { Self → List Entry };

    /// Which references the open frame of a lane holds.
    ghost holds: { Self → ℕ → Ref → Type 0 };

    /// Does nothing: its contract tells the caller what is true of every engine at any moment. The
    /// history is legal, and no slice is open, since each call closes the slice that it opens. What a
    /// lane holds has an index of the range of the lane that made it, and different objects have
    /// different indexes.
    fn lawful(&self)
        ensures legal { Legal S.sizes (history self.now) }
        ensures closed { IsTrue (no_slice (after (history self.now))) }
        ensures range { (lane : ℕ) (r : Ref) → holds self.now lane r → IsOfLane S.sizes r.name.lane r.index }
        ensures apart { (k l : ℕ) (q r : Ref) → holds self.now k q → holds self.now l r → q.index ≡ r.index → q.name ≡ r.name };

    /// Opens the frame of a lane, and tells the phase that it found. While a frame is open, no
    /// collection begins or commits.
    fn open_frame(&mut self, lane: u32) -> Phase
        requires lane { lane < S.sizes.lanes }
        requires closed { is_open (after (history self.old)) (Lane lane) ≡ false }
        ensures entries { Appends S.sizes (history self.old) (history self.new) (Lane lane) (act.FrameOpen result) }
        ensures held { KeepsHeld (holds self.old) (holds self.new) };

    /// Closes the frame of a lane, which holds nothing after that.
    fn close_frame(&mut self, lane: u32)
        requires frame { IsInFrame S.sizes (history self.old) lane }
        ensures entries { Appends S.sizes (history self.old) (history self.new) (Lane lane) act.FrameClose }
        ensures held { KeepsOthers lane (holds self.old) (holds self.new) };

    /// Makes one unit, a cluster of 1 to 1,024 objects of these kinds with empty cells, under the
    /// next names of the lane, and writes references to them to `out`.
    ///
    /// It is refused with `NamesSpent` where the lane has too few names left, and else with `Full`
    /// where too few of its indexes are free. Then nothing is made, and `out` stays.
    fn create(&mut self, lane: u32, kinds: &[Kind], out: &mut [Ref]) -> Result<(), CreateErr>
        requires frame { IsInFrame S.sizes (history self.old) lane }
        requires some { 1 ≤ length kinds.now }
        requires few { length kinds.now ≤ 1024 }
        requires lawful { IsTrue (list_all (is_lawful S.sizes) kinds.now) }
        requires room { length out.old ≡ length kinds.now }
        ensures entries { Appends S.sizes (history self.old) (history self.new) (Lane lane) (act_of_create (after (history self.old)) lane kinds.now result) }
        ensures names { OnOk result (map (λ r. r.name) out.new ≡ names_from lane (made (after (history self.old)) lane + 1) kinds.now) }
        ensures given { OnOk result (All (holds self.new lane) out.new) }
        ensures refused { OnErr result (out.new ≡ out.old) }
        ensures held { KeepsHeld (holds self.old) (holds self.new) };

    /// The kind of an object: its class, the numbers of its reference and plain slots, and when it is
    /// ready to be finished.
    fn kind_of(&mut self, lane: u32, at: Ref) -> Kind
        requires frame { IsInFrame S.sizes (history self.old) lane }
        requires at { holds self.old lane at }
        ensures kind { kind_of (after (history self.old)) at.name ≡ Some result }
        ensures same { history self.new ≡ history self.old }
        ensures held { KeepsHeld (holds self.old) (holds self.new) };

    /// The first member of the unit of an object, by whose name the unit goes. A unit is a cluster
    /// while it has several members; all of them live and die as one.
    fn unit_of(&mut self, lane: u32, at: Ref) -> Name
        requires frame { IsInFrame S.sizes (history self.old) lane }
        requires at { holds self.old lane at }
        ensures first { first_member (unit_of (after (history self.old)) at.name) ≡ Some result }
        ensures same { history self.new ≡ history self.old }
        ensures held { KeepsHeld (holds self.old) (holds self.new) };

    /// The member number `k` of the unit of an object, in the order of their names, from 0; none where
    /// it has no more than `k`. The object that is found is held from then on.
    fn member(&mut self, lane: u32, at: Ref, k: u32) -> Option<Ref>
        requires frame { IsInFrame S.sizes (history self.old) lane }
        requires at { holds self.old lane at }
        ensures member { name_of result ≡ slice_get (unit_of (after (history self.old)) at.name) k }
        ensures given { IfSome result (holds self.new lane) }
        ensures same { history self.new ≡ history self.old }
        ensures held { KeepsHeld (holds self.old) (holds self.new) };

    /// Reads a reference cell of an object. `slot` is below the number of its kind's reference slots.
    /// The object that is found is held from then on.
    fn read_ref(&mut self, lane: u32, at: Ref, slot: u32) -> Option<Ref>
        requires frame { IsInFrame S.sizes (history self.old) lane }
        requires at { holds self.old lane at }
        requires slot { slot < refs_of (after (history self.old)) at.name }
        ensures entries { Appends S.sizes (history self.old) (history self.new) (Lane lane) (act.ReadRef at.name slot (name_of result)) }
        ensures given { IfSome result (holds self.new lane) }
        ensures held { KeepsHeld (holds self.old) (holds self.new) };

    /// Writes a reference cell of an object, and tells what stood there, which is held from then on.
    /// `slot` is below the number of its kind's reference slots.
    ///
    /// While a collection marks, the unit of `to` is marked before it is stored, unless it is marked
    /// already. This is the insertion barrier of Dijkstra, Lamport, Martin, Scholten and Steffens
    /// (On-the-fly garbage collection: an exercise in cooperation, 1978): a unit that was scanned
    /// never comes to refer to one that is not marked.
    fn write_ref(&mut self, lane: u32, at: Ref, slot: u32, to: Option<Ref>) -> Option<Ref>
        requires frame { IsInFrame S.sizes (history self.old) lane }
        requires at { holds self.old lane at }
        requires slot { slot < refs_of (after (history self.old)) at.name }
        requires to { IfSome to (holds self.old lane) }
        ensures entries { Appends S.sizes (history self.old) (history self.new) (Lane lane) (act.WriteRef at.name slot (name_of to) (name_of result)) }
        ensures given { IfSome result (holds self.new lane) }
        ensures held { KeepsHeld (holds self.old) (holds self.new) };

    /// Reads a plain cell of an object, a number that no collection looks at. The plain slots of an
    /// object are the last ones of the shape's, as many as its kind says.
    fn read_plain(&mut self, lane: u32, at: Ref, slot: u32) -> u64
        requires frame { IsInFrame S.sizes (history self.old) lane }
        requires at { holds self.old lane at }
        requires first { S.sizes.slots - plain_of (after (history self.old)) at.name ≤ slot }
        requires last { slot < S.sizes.slots }
        ensures entries { Appends S.sizes (history self.old) (history self.new) (Lane lane) (act.ReadPlain at.name slot result) }
        ensures held { KeepsHeld (holds self.old) (holds self.new) };

    /// Writes a plain cell of an object, and tells what stood there. The plain slots of an object are
    /// the last ones of the shape's, as many as its kind says.
    fn write_plain(&mut self, lane: u32, at: Ref, slot: u32, value: u64) -> u64
        requires frame { IsInFrame S.sizes (history self.old) lane }
        requires at { holds self.old lane at }
        requires first { S.sizes.slots - plain_of (after (history self.old)) at.name ≤ slot }
        requires last { slot < S.sizes.slots }
        ensures entries { Appends S.sizes (history self.old) (history self.new) (Lane lane) (act.WritePlain at.name slot value result) }
        ensures held { KeepsHeld (holds self.old) (holds self.new) };

    /// Adds an object to the root set, or takes it out of it, and tells whether it was there.
    fn set_root(&mut self, lane: u32, at: Ref, on: bool) -> bool
        requires frame { IsInFrame S.sizes (history self.old) lane }
        requires at { holds self.old lane at }
        ensures entries { Appends S.sizes (history self.old) (history self.new) (Lane lane) (act.Root at.name on result) }
        ensures held { KeepsHeld (holds self.old) (holds self.new) };

    /// Writes a strong pointer of the lane, and tells what stood there, which is held from then on. `h` is
    /// the number of the pointer, below the shape's. What a strong pointer names is reached, as what
    /// is rooted is, until the lane that owns the pointer writes it again.
    ///
    /// While a collection marks, the unit of `to` is marked before it is stored, as in `write_ref`.
    fn set_strong(&mut self, lane: u32, h: u32, to: Option<Ref>) -> Option<Ref>
        requires frame { IsInFrame S.sizes (history self.old) lane }
        requires number { h < S.sizes.strong }
        requires to { IfSome to (holds self.old lane) }
        ensures entries { Appends S.sizes (history self.old) (history self.new) (Lane lane) (act.SetStrong h (name_of to) (name_of result)) }
        ensures given { IfSome result (holds self.new lane) }
        ensures held { KeepsHeld (holds self.old) (holds self.new) };

    /// Reads a strong pointer of the lane. `h` is its number, below the shape's. The object that is
    /// found is held from then on.
    fn get_strong(&mut self, lane: u32, h: u32) -> Option<Ref>
        requires frame { IsInFrame S.sizes (history self.old) lane }
        requires number { h < S.sizes.strong }
        ensures entries { Appends S.sizes (history self.old) (history self.new) (Lane lane) (act.GetStrong h (name_of result)) }
        ensures given { IfSome result (holds self.new lane) }
        ensures held { KeepsHeld (holds self.old) (holds self.new) };

    /// The weak pointer to an object: the same one for all who ask, made with the next serial of the
    /// lane that asks first. It keeps nothing alive, and may be kept anywhere, for ever.
    ///
    /// It is refused with `SerialsSpent` where the object has none and the lane has drawn all its
    /// serials.
    fn weak_of(&mut self, lane: u32, at: Ref) -> Result<Weak, SerialsSpent>
        requires frame { IsInFrame S.sizes (history self.old) lane }
        requires at { holds self.old lane at }
        ensures entries { Appends S.sizes (history self.old) (history self.new) (Lane lane) (act_of_weak at.name result) }
        ensures held { KeepsHeld (holds self.old) (holds self.new) };

    /// The object for which a weak pointer was made, while it lives and is not garbage; it is held
    /// from then on. Any other pair of numbers gives none, also one that was never made.
    fn resolve(&mut self, lane: u32, weak: Weak) -> Option<Ref>
        requires frame { IsInFrame S.sizes (history self.old) lane }
        ensures entries { Appends S.sizes (history self.old) (history self.new) (Lane lane) (act.Resolve weak (name_of result)) }
        ensures given { IfSome result (holds self.new lane) }
        ensures held { KeepsHeld (holds self.old) (holds self.new) };

    /// Takes the unit of an object apart, so that each of its members is a unit by itself, and tells
    /// how many they are. Only the lane that made the unit can do this; a unit of one member stays as
    /// it is. References, roots and weak pointers stay, so from then on each member is kept or removed
    /// by itself.
    ///
    /// It is refused with `Marking` while a collection marks, for then one mark stands for all
    /// members. Then nothing is changed.
    fn dissolve(&mut self, lane: u32, at: Ref) -> Result<u32, DissolveErr>
        requires frame { IsInFrame S.sizes (history self.old) lane }
        requires at { holds self.old lane at }
        requires own { at.name.lane ≡ lane }
        ensures entries { Appends S.sizes (history self.old) (history self.new) (Lane lane) (act_of_dissolve at.name result) }
        ensures held { KeepsHeld (holds self.old) (holds self.new) };

    /// Marks an object as garbage, which is never undone, and tells whether it was garbage. From then
    /// on its weak pointer gives nothing. It stays in the world as long as it is reached, and
    /// references to it stay.
    fn mark_garbage(&mut self, lane: u32, at: Ref) -> bool
        requires frame { IsInFrame S.sizes (history self.old) lane }
        requires at { holds self.old lane at }
        ensures entries { Appends S.sizes (history self.old) (history self.new) (Lane lane) (act.MarkGarbage at.name result) }
        ensures held { KeepsHeld (holds self.old) (holds self.new) };

    /// Whether an object is valid: not marked as garbage.
    fn is_valid(&mut self, lane: u32, at: Ref) -> bool
        requires frame { IsInFrame S.sizes (history self.old) lane }
        requires at { holds self.old lane at }
        ensures entries { Appends S.sizes (history self.old) (history self.new) (Lane lane) (act.IsValid at.name result) }
        ensures held { KeepsHeld (holds self.old) (holds self.new) };

    /// Runs one slice of marking: scans grey units until `budget` objects or more are scanned, or
    /// nothing is grey. The budget is tested before each unit, which is scanned whole.
    fn mark(&mut self, marker: u32, budget: u32) -> Marked
        requires marker { marker < S.sizes.markers }
        ensures entries { Appends S.sizes (history self.old) (history self.new) (Marker marker) (act.Slice budget result) }
        ensures held { KeepsHeld (holds self.old) (holds self.new) };

    /// The phase of the collector.
    fn phase(&mut self) -> Phase
        ensures phase { result ≡ (after (history self.old)).phase }
        ensures same { history self.new ≡ history self.old }
        ensures held { KeepsHeld (holds self.old) (holds self.new) };

    /// How many objects the last collection removed that are not released; while they are being
    /// found, how many are found.
    fn left(&mut self) -> u32
        ensures left { result ≡ left_of (after (history self.old)) }
        ensures same { history self.new ≡ history self.old }
        ensures held { KeepsHeld (holds self.old) (holds self.new) };

    /// Begins a collection and marks the root units. It is refused, in this order, while one runs,
    /// while an object of the last one is not released, and while a frame or a slice is open.
    fn begin(&mut self) -> Begin
        ensures entries { Appends S.sizes (history self.old) (history self.new) Collector (act.BeginGc result) }
        ensures held { KeepsHeld (holds self.old) (holds self.new) };

    /// Removes all units that are not marked, where nothing is grey and no frame or slice is open.
    /// It is refused, in this order, while no collection marks, while a unit is grey, and while a
    /// frame or a slice is open.
    fn commit(&mut self) -> Commit
        ensures entries { Appends S.sizes (history self.old) (history self.new) Collector (act.CommitGc result) }
        ensures held { KeepsHeld (holds self.old) (holds self.new) };

    /// Looks for removed objects at up to `budget` items more of the object array, and writes the
    /// names that it finds to the front of `found`. It stops early at the last item, and where
    /// `found` is full. It finds nothing where no collection gathers.
    fn sweep(&mut self, budget: u32, found: &mut [Name]) -> Swept
        ensures entries { Appends S.sizes (history self.old) (history self.new) Collector (act.Sweep budget result (take result.found found.new)) }
        ensures room { result.found ≤ length found.old }
        ensures rest { drop result.found found.new ≡ drop result.found found.old }
        ensures more { result.stop ≡ sweep.More → (result.looked ≡ budget) ⊎ (result.found ≡ length found.old) }
        ensures held { KeepsHeld (holds self.old) (holds self.new) };

    /// Makes up to `budget` steps of destruction. A step is the first of these that there is: the
    /// first object that is not begun gets the hook `begin`; the first unit whose members are all
    /// finished is released; the next object in turn that is not finished gets the hook `ready`
    /// with the number of its poll, and in the same step `finish` where that answers true.
    ///
    /// The order of the objects is that in which the sweeps found the first members of their units,
    /// and the turns begin behind the object that was asked last. There are fewer steps than
    /// `budget` only where no removed object is left, and none, with the answer `Gathering`, while
    /// removed objects are being found. `left` counts the removed objects that are not released.
    fn purge<D: Hooks>(&mut self, hooks: &mut D, budget: u32) -> Purged
        ensures entries { Appends S.sizes (history self.old) (history self.new) Collector (act.PurgeGc budget result) }
        ensures calls { AreCalled (after (history self.old)) (history self.old) (history self.new) (D.calls hooks.old) (D.calls hooks.new) }
        ensures tested { MeetTest (after (history self.old)) (history self.old) (history self.new) (D.test hooks.old) }
        ensures same_test { SameTest (D.test hooks.old) (D.test hooks.new) }
        ensures held { KeepsHeld (holds self.old) (holds self.new) };

    /// What a lane holds, the history gave it since it opened its frame.
    ghost held_is_given: { (e : Self) (lane : ℕ) (r : Ref) → holds e lane r → Holds (state_of (history e)) lane r.name };

    /// An object that is held has one index.
    ghost one_index: { (e : Self) (k l : ℕ) (q r : Ref) → holds e k q → holds e l r → q.name ≡ r.name → q ≡ r };
}
