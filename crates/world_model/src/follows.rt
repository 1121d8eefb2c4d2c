//! What follows from the rules: laws of every legal history, each the contract of a function that
//! does nothing.
ghost use Rattle.world_model.specs.Follows.{HeadlineHolds};
ghost use Rattle.world_model.specs.Follows.{HeldLives, GivenIsHeld, HeldWithUnit, NamedLives, LivesAfter, UnitsAfter};
ghost use Rattle.world_model.specs.Follows.{RemovedAfter, NoneComesBack, UnitStays};
ghost use Rattle.world_model.specs.Follows.{UnitsNeverJoin, OwnUnitsStay};
ghost use Rattle.world_model.specs.Follows.{UnitsAreSound, EachInOnePlace};
ghost use Rattle.world_model.specs.Follows.{BlackRefersToMarked, NoWhiteReached, ScannedOnce, StartMarksRoots};
ghost use Rattle.world_model.specs.Follows.{RootsStayMarked, CommitRuleFollows};
ghost use Rattle.world_model.specs.Follows.{ReachedStay, CommitRemovesUnreached};
ghost use Rattle.world_model.specs.Follows.{FloatingIsBounded, UnreachedIsRemoved};
ghost use Rattle.world_model.specs.Follows.{DestroyedOnce, DestroyedByStage, AllBegunFirst};
ghost use Rattle.world_model.specs.Follows.{BegunInOrder, BegunWhenFinished, FinishedBehindPoll, PollsAreNumbered, AskedInTurn, ReleasedWhole, ReleasedBeforeStart};
ghost use Rattle.world_model.specs.Follows.{WeakPointers, ResolveGives, ResolveGivesNoneAgain};
ghost use Rattle.world_model.specs.Follows.{GarbageIsMarked, GarbageLasts};
ghost use Rattle.world_model.specs.Follows.{MarksChangeNothing, GarbageDecidesNothing};
ghost use Rattle.world_model.specs.Follows.{TakenApart, DissolvesUnit, DissolveAnswers, StaysAlone, CollectedSingly};
ghost use Rattle.world_model.specs.Follows.{OpenKeeps, OwnStays, OwnJoins, FewOpen};
ghost use Rattle.world_model.specs.Follows.{QuotasHold, CensusAddsUp, NamesOnce, SerialsOnce};
ghost use Rattle.world_model.specs.Stays.{NamedFromPlaces, OnlyOfMade, BegunBehindGathering, MomentsEndNow};
ghost use Rattle.world_model.specs.Stays.{KindsStay, MarkedStays, MarkingLasts, OwedInMarking, ParityTurns, ParityStays};
ghost use Rattle.world_model.specs.Stays.{CollectorsStay, MarkersStay};
ghost use Rattle.world_model.specs.Follows.{RefusalsChangeNothing, CallsEnd, BeginIsDecided, CommitIsDecided, CreateIsDecided};

/// A collection removes only whole units that no root reaches, each object is begun at most once
/// and then finished at most once, and a weak pointer gives its own object until its removal or
/// marking as garbage and nothing after. A cluster that was taken apart is no unit any more, so of
/// its members this speaks one by one.
pub fn headline()
    ensures { HeadlineHolds }
{}

// ---- what lives

/// What a lane holds lives, in every phase, and its frame is open.
pub fn held_lives()
    ensures { HeldLives }
{}

/// What an entry gives to a lane, by making it, reading it or resolving a weak pointer, the lane then
/// holds, with all members of its unit.
pub fn given_is_held()
    ensures { GivenIsHeld }
{}

/// What a lane holds it holds with all members of its unit.
pub fn held_with_unit()
    ensures { HeldWithUnit }
{}

/// What a reference cell of an object that lives names, what is rooted, and what a strong pointer
/// names lives, in every phase.
pub fn named_lives()
    ensures { NamedLives }
{}

/// After an entry there live the objects that it makes and those that lived before it; after a
/// commit, of these, those of marked units.
pub fn lives_after()
    ensures { LivesAfter }
{}

/// After an entry the units are the one that it makes, if it makes one; the two into which it parts
/// one, if it does; and those before it that lose no member, after a commit the marked ones of these.
pub fn units_after()
    ensures { UnitsAfter }
{}

/// After an entry there are removed, after a commit, the objects of the units that were not marked,
/// and those that were removed and that it does not release.
pub fn removed_after()
    ensures { RemovedAfter }
{}

/// An object that was made and does not live does not live again.
pub fn none_comes_back()
    ensures { NoneComesBack }
{}

/// As long as an object lives and no member is taken out of its unit it stays in that unit.
pub fn unit_stays()
    ensures { UnitStays }
{}

/// Units never grow and are never joined: what stands in one unit stood in one, if it lived.
pub fn units_never_join()
    ensures { UnitsNeverJoin }
{}

/// A lane alone takes the units apart that it made: while others act, an object of the lane that
/// lives stays in its unit.
pub fn own_units_stay()
    ensures { OwnUnitsStay }
{}

/// A name stands in one unit, and once; each unit has a member; and outside marking each unit
/// counts as marked.
pub fn units_are_sound()
    ensures { UnitsAreSound }
{}

/// An object that was made lives, is removed, or is released, and exactly one of these.
pub fn each_in_one_place()
    ensures { EachInOnePlace }
{}

// ---- marking

/// While a collection marks, a marked unit that is not grey refers to marked units alone: the
/// tri-colour invariant.
pub fn black_refers_to_marked()
    ensures { BlackRefersToMarked }
{}

/// While a collection marks, where nothing is grey and each root unit is marked, each unit that is
/// reached is marked.
pub fn no_white_reached()
    ensures { NoWhiteReached }
{}

/// Since a collection has started no unit is scanned twice.
pub fn scanned_once()
    ensures { ScannedOnce }
{}

/// A solo start of a collection marks each root unit.
pub fn start_marks_roots()
    ensures { StartMarksRoots }
{}

/// Where each root unit is marked while a collection marks, each root unit is so until the commit.
pub fn roots_stay_marked()
    ensures { RootsStayMarked }
{}

/// Behind a solo start, where nothing is grey, no white unit is reached.
pub fn commit_rule_follows()
    ensures { CommitRuleFollows }
{}

// ---- removal

/// No entry takes a unit that is reached out of the world, though one may part it in two; and a unit
/// goes whole, by a commit alone, to the removed ones.
pub fn reached_stay()
    ensures { ReachedStay }
{}

/// What a commit removes is whole units that lived, and none of them is reached.
pub fn commit_removes_unreached()
    ensures { CommitRemovesUnreached }
{}

/// A unit that stands when a collection starts, and still after its commit, was reached at the
/// start, or is reached, by the references of the start, from an object that was stored since.
pub fn floating_is_bounded()
    ensures { FloatingIsBounded }
{}

/// A unit that is reached in neither of these ways is removed by that commit.
pub fn unreached_is_removed()
    ensures { UnreachedIsRemoved }
{}

// ---- destruction

/// Each object is begun at most once, finished at most once, and never finished before it is begun.
pub fn destroyed_once()
    ensures { DestroyedOnce }
{}

/// What lives, and what is removed and not begun, was neither begun nor finished; what is begun was
/// begun once; what is finished, and what is released, was begun once and finished once.
pub fn destroyed_by_stage()
    ensures { DestroyedByStage }
{}

/// While one object that the last commit removed is not begun, none of them is finished.
pub fn all_begun_first()
    ensures { AllBegunFirst }
{}

/// When an object is finished, each object that was removed with it was begun.
pub fn begun_when_finished()
    ensures { BegunWhenFinished }
{}

/// An object is finished directly behind its own poll, in which it agreed: no other act of the
/// collector stands between.
pub fn finished_behind_poll()
    ensures { FinishedBehindPoll }
{}

/// The polls of an object are numbered 1, 2, 3 and so on, up to 65,535, at which the number stays.
pub fn polls_are_numbered()
    ensures { PollsAreNumbered }
{}

/// The objects that are begun are a beginning of the destruction order.
pub fn begun_in_order()
    ensures { BegunInOrder }
{}

/// Between two polls of an object each other one that is begun and not finished is polled.
pub fn asked_in_turn()
    ensures { AskedInTurn }
{}

/// A release takes one removed unit, whole, and each of its members was begun once and finished
/// once.
pub fn released_whole()
    ensures { ReleasedWhole }
{}

/// While a collection marks, and so from its start on, every removed object is released.
pub fn released_before_start()
    ensures { ReleasedBeforeStart }
{}

// ---- weak pointers

/// A pair of index and serial is given for one object at most, and an object has one; it gives its
/// object exactly while that lives and is not garbage, and a pair that was never given gives none.
pub fn weak_pointers()
    ensures { WeakPointers }
{}

/// A weak pointer gives an object exactly where it was given for it, and the object lives and is not
/// garbage.
pub fn resolve_gives()
    ensures { ResolveGives }
{}

/// A weak pointer whose object does not live, or is garbage, never gives anything again.
pub fn resolve_gives_none_again()
    ensures { ResolveGivesNoneAgain }
{}

// ---- garbage

/// An object is garbage exactly where a lane has marked it so; so none is garbage when it is made,
/// whichever index it gets.
pub fn garbage_is_marked()
    ensures { GarbageIsMarked }
{}

/// What is garbage stays so.
pub fn garbage_lasts()
    ensures { GarbageLasts }
{}

/// To mark an object as garbage changes nothing of what is reached or collected: the world stays as it
/// was but for the mark, and so do the units that count as marked or grey.
pub fn marks_change_nothing()
    ensures { MarksChangeNothing }
{}

/// Nothing but marking as garbage, asking for it and resolving a weak pointer hangs on what is garbage:
/// every other entry may come exactly where it may without, and leaves the same.
pub fn garbage_decides_nothing()
    ensures { GarbageDecidesNothing }
{}

// ---- taking a unit apart

/// When a lane says that it has taken a unit of so many members apart, each of them is a unit by
/// itself, whatever others did meanwhile.
pub fn taken_apart()
    ensures { TakenApart }
{}

/// In a solo call that is the unit in which the object stood, and all other units stay.
pub fn dissolves_unit()
    ensures { DissolvesUnit }
{}

/// Taking a unit apart is refused exactly while a collection marks: else some solo call does it.
pub fn dissolve_answers()
    ensures { DissolveAnswers }
{}

/// An object that is a unit by itself is one as long as it lives.
pub fn stays_alone()
    ensures { StaysAlone }
{}

/// When a unit was taken apart, a whole collection keeps those of its members that are reached each
/// by itself, and no others.
pub fn collected_singly()
    ensures { CollectedSingly }
{}

// ---- frames

/// While a frame or a slice is open no collection starts and none commits, the phase stays, but for
/// the end of gathering, and each object that lives stays so, in its unit as long as no member is
/// taken out of that.
pub fn open_keeps()
    ensures { OpenKeeps }
{}

/// Entries of others leave a lane its frame, the kinds of its objects, its strong pointers, the
/// number of its serials, and whether its frame is open.
pub fn own_stays()
    ensures { OwnStays }
{}

/// What stays a lane's own over two stretches, one behind the other, stays over both.
pub fn own_joins()
    ensures { OwnJoins }
{}

/// What is open are frames of lanes and slices of markers of the shape, each once, so at most as
/// many as there are lanes and markers.
pub fn few_open()
    ensures { FewOpen }
{}

// ---- quotas

/// The free indexes of a lane are its quota less its objects that are made and not released, and no
/// lane makes more names or draws more serials than the shape has.
pub fn quotas_hold()
    ensures { QuotasHold }
{}

/// The numbers of a lane's census add up: its free indexes, its objects that live and those that are
/// removed and not released are its quota together.
pub fn census_adds_up()
    ensures { CensusAddsUp }
{}

/// No name is given twice, and what was given is what was made.
pub fn names_once()
    ensures { NamesOnce }
{}

/// No serial is given to two objects.
pub fn serials_once()
    ensures { SerialsOnce }
{}

// ---- answers

/// A refusal leaves the world as it was.
pub fn refusals_change_nothing()
    ensures { RefusalsChangeNothing }
{}

/// A call that runs alone leaves nothing under way: no store is owed, no unit is half taken apart, no
/// slice is open, and no step of destruction is left to close.
pub fn calls_end()
    ensures { CallsEnd }
{}

/// What the collector is told when it asks for a start is decided by the world.
pub fn begin_is_decided()
    ensures { BeginIsDecided }
{}

/// What a commit is told that runs alone is decided by the world, but for the row word that shows some
/// of the grey units.
pub fn commit_is_decided()
    ensures { CommitIsDecided }
{}

/// Whether objects of these kinds are made, and why not, is decided by the world.
pub fn create_is_decided()
    ensures { CreateIsDecided }
{}

// ---- where something stands

/// What names an object is a reference cell of an object that was made, within the reference slots of
/// its kind, or a strong pointer of the shape.
pub fn named_from_places()
    ensures { NamedFromPlaces }
{}

/// What was not made has no number in a plain cell, no pair and no note, and no commit removed it.
pub fn only_of_made()
    ensures { OnlyOfMade }
{}

/// While the removed objects are being found none of them is begun, and none was asked.
pub fn begun_behind_gathering()
    ensures { BegunBehindGathering }
{}

/// The newest moment of an open slice is the world now, and so is that of a collection that marks.
pub fn moments_end_now()
    ensures { MomentsEndNow }
{}

// ---- what stays

/// An object that was made keeps its kind, also when it is removed and released.
pub fn kinds_stay()
    ensures { KindsStay }
{}

/// What is marked stays marked until a collection starts.
pub fn marked_stays()
    ensures { MarkedStays }
{}

/// A collection marks until it commits, and meanwhile no unit is taken apart.
pub fn marking_lasts()
    ensures { MarkingLasts }
{}

/// What a lane owes it owes in its open frame, and while a collection marks.
pub fn owed_in_marking()
    ensures { OwedInMarking }
{}

/// The parity of a history turns with each collection that starts, and with nothing else.
pub fn parity_turns()
    ensures { ParityTurns }
{}

/// The parity stays while no collection starts: so while others than the collector act, and while a frame
/// or a slice is open.
pub fn parity_stays()
    ensures { ParityStays }
{}

// ---- what others leave

/// Entries of lanes and markers leave the phase, the removed objects and how far they are found and
/// destroyed, and what the collector has under way.
pub fn collectors_stay()
    ensures { CollectorsStay }
{}

/// Entries of others leave a marker whether its slice is open, the units that it has scanned, and the
/// moments that it has seen.
pub fn markers_stay()
    ensures { MarkersStay }
{}
