//! One function for each operation on a word. A step is allowed where the rule allows it, and tells its seat what the
//! ask says.
ghost use Rattle.std.specs.Prelude.{◌≡◌, ◌+◌, ◌-◌, ◌%◌, ◌^◌, ◌==◌, [], bit_and, bit_or};
ghost use Rattle.atomic_table.specs.Table.{Allows};
ghost use prog.Atomic.{either};
ghost use Rattle.word_layout.specs.Places.{IsPart, place};
ghost use Rattle.heap_rule.specs.Tells.{Tells};
ghost use Rattle.heap_rule.specs.Rule.{Keeps};
ghost use Rattle.heap_rule.specs.Seats.{Follows};

use crate::asks::Ask;
use crate::heap::{Heap, Seat};
use crate::views::View;
use atomic_table::Play;
use std::marker::{Brand, PhantomData};
use word_layout::{Part, word_of};
use world_model::Shape;

/// What the step is for, which each call picks.
pub(crate) trait Asks {
    ghost use Rattle.heap_rule.specs.Types.{Ask};

    ghost ask: { Ask };
}

impl Asks for Brand {
    ghost use Rattle.heap_rule.specs.Types.ask;
    ghost use Rattle.heap_rule.specs.Types.collector_ask;

    ghost ask = { ask.Collector collector_ask.ClearDirty };
}

/// What a step with this ask tells.
pub(crate) struct Told<S: Shape, A: Asks> {
    of: PhantomData<(S, A)>,
}

impl<S: Shape, A: Asks> Play<(), View> for Told<S, A> {
    ghost use Rattle.std.specs.Prelude.{◌≡◌};
    ghost use Rattle.heap_rule.specs.Tells.{Tells};

    ghost then = { λ step before found after. (after.1 ≡ before.1) × Tells S.sizes A.ask step.first before.0 found after.0 };
}

/// Loads a word, and answers what it had.
pub(crate) fn load<S: Shape, A: Asks>(heap: &Heap<S>, seat: &mut Seat, ask: &Ask, part: Part) -> u64
    requires ask { A.ask ≡ ask.now }
    requires seat { seat.old.heap ≡ heap.now }
    requires part { IsPart S.sizes part }
    requires rule { Allows (Keeps S.sizes) 0 seat.old.id (seat.old.view, []) (place S.sizes part) (λ n. n) (λ found me. (me.1 ≡ []) × Tells S.sizes ask.now 0 seat.old.view found me.0) }
    ensures seat { Follows seat.old seat.new }
    ensures told { Tells S.sizes ask.now 0 seat.old.view result seat.new.view }
{
    let _ = ask;
    heap.table
        .shared
        .load::<Told<S, A>>(&mut seat.seat, word_of::<S>(part))
}

/// Stores a word.
pub(crate) fn store<S: Shape, A: Asks>(
    heap: &Heap<S>,
    seat: &mut Seat,
    ask: &Ask,
    part: Part,
    value: u64,
)
    requires ask { A.ask ≡ ask.now }
    requires seat { seat.old.heap ≡ heap.now }
    requires part { IsPart S.sizes part }
    requires rule { Allows (Keeps S.sizes) 0 seat.old.id (seat.old.view, []) (place S.sizes part) (λ n. value) (λ found me. (me.1 ≡ []) × Tells S.sizes ask.now value seat.old.view value me.0) }
    ensures seat { Follows seat.old seat.new }
    ensures told { Tells S.sizes ask.now value seat.old.view value seat.new.view }
{
    let _ = ask;
    heap.table
        .shared
        .store::<Told<S, A>>(&mut seat.seat, word_of::<S>(part), value);
}

/// Swaps a word for another, and answers what it had.
pub(crate) fn swap<S: Shape, A: Asks>(
    heap: &Heap<S>,
    seat: &mut Seat,
    ask: &Ask,
    part: Part,
    value: u64,
) -> u64
    requires ask { A.ask ≡ ask.now }
    requires seat { seat.old.heap ≡ heap.now }
    requires part { IsPart S.sizes part }
    requires rule { Allows (Keeps S.sizes) 0 seat.old.id (seat.old.view, []) (place S.sizes part) (λ n. value) (λ found me. (me.1 ≡ []) × Tells S.sizes ask.now value seat.old.view found me.0) }
    ensures seat { Follows seat.old seat.new }
    ensures told { Tells S.sizes ask.now value seat.old.view result seat.new.view }
{
    let _ = ask;
    heap.table
        .shared
        .swap::<Told<S, A>>(&mut seat.seat, word_of::<S>(part), value)
}

/// Adds to a word, and answers what it had.
pub(crate) fn fetch_add<S: Shape, A: Asks>(
    heap: &Heap<S>,
    seat: &mut Seat,
    ask: &Ask,
    part: Part,
    k: u64,
) -> u64
    requires ask { A.ask ≡ ask.now }
    requires seat { seat.old.heap ≡ heap.now }
    requires part { IsPart S.sizes part }
    requires rule { Allows (Keeps S.sizes) 0 seat.old.id (seat.old.view, []) (place S.sizes part) (λ n. (n + k) % 2 ^ 64) (λ found me. (me.1 ≡ []) × Tells S.sizes ask.now k seat.old.view found me.0) }
    ensures seat { Follows seat.old seat.new }
    ensures told { Tells S.sizes ask.now k seat.old.view result seat.new.view }
{
    let _ = ask;
    heap.table
        .shared
        .fetch_add::<Told<S, A>>(&mut seat.seat, word_of::<S>(part), k)
}

/// Takes from a word, and answers what it had.
pub(crate) fn fetch_sub<S: Shape, A: Asks>(
    heap: &Heap<S>,
    seat: &mut Seat,
    ask: &Ask,
    part: Part,
    k: u64,
) -> u64
    requires ask { A.ask ≡ ask.now }
    requires seat { seat.old.heap ≡ heap.now }
    requires part { IsPart S.sizes part }
    requires rule { Allows (Keeps S.sizes) 0 seat.old.id (seat.old.view, []) (place S.sizes part) (λ n. (n + (2 ^ 64 - k)) % 2 ^ 64) (λ found me. (me.1 ≡ []) × Tells S.sizes ask.now k seat.old.view found me.0) }
    ensures seat { Follows seat.old seat.new }
    ensures told { Tells S.sizes ask.now k seat.old.view result seat.new.view }
{
    let _ = ask;
    heap.table
        .shared
        .fetch_sub::<Told<S, A>>(&mut seat.seat, word_of::<S>(part), k)
}

/// Sets bits of a word, and answers what it had.
pub(crate) fn fetch_or<S: Shape, A: Asks>(
    heap: &Heap<S>,
    seat: &mut Seat,
    ask: &Ask,
    part: Part,
    k: u64,
) -> u64
    requires ask { A.ask ≡ ask.now }
    requires seat { seat.old.heap ≡ heap.now }
    requires part { IsPart S.sizes part }
    requires rule { Allows (Keeps S.sizes) 0 seat.old.id (seat.old.view, []) (place S.sizes part) (λ n. bit_or n k) (λ found me. (me.1 ≡ []) × Tells S.sizes ask.now k seat.old.view found me.0) }
    ensures seat { Follows seat.old seat.new }
    ensures told { Tells S.sizes ask.now k seat.old.view result seat.new.view }
{
    let _ = ask;
    heap.table
        .shared
        .fetch_or::<Told<S, A>>(&mut seat.seat, word_of::<S>(part), k)
}

/// Keeps some bits of a word, and answers what it had.
pub(crate) fn fetch_and<S: Shape, A: Asks>(
    heap: &Heap<S>,
    seat: &mut Seat,
    ask: &Ask,
    part: Part,
    k: u64,
) -> u64
    requires ask { A.ask ≡ ask.now }
    requires seat { seat.old.heap ≡ heap.now }
    requires part { IsPart S.sizes part }
    requires rule { Allows (Keeps S.sizes) 0 seat.old.id (seat.old.view, []) (place S.sizes part) (λ n. bit_and n k) (λ found me. (me.1 ≡ []) × Tells S.sizes ask.now k seat.old.view found me.0) }
    ensures seat { Follows seat.old seat.new }
    ensures told { Tells S.sizes ask.now k seat.old.view result seat.new.view }
{
    let _ = ask;
    heap.table
        .shared
        .fetch_and::<Told<S, A>>(&mut seat.seat, word_of::<S>(part), k)
}

/// Changes a word where it is the expected one, and answers what it had.
pub(crate) fn compare_exchange<S: Shape, A: Asks>(
    heap: &Heap<S>,
    seat: &mut Seat,
    ask: &Ask,
    part: Part,
    expected: u64,
    value: u64,
) -> u64
    requires ask { A.ask ≡ ask.now }
    requires seat { seat.old.heap ≡ heap.now }
    requires part { IsPart S.sizes part }
    requires rule { Allows (Keeps S.sizes) 0 seat.old.id (seat.old.view, []) (place S.sizes part) (λ n. either (n == expected) value n) (λ found me. (me.1 ≡ []) × Tells S.sizes ask.now expected seat.old.view found me.0) }
    ensures seat { Follows seat.old seat.new }
    ensures told { Tells S.sizes ask.now expected seat.old.view result seat.new.view }
{
    let _ = ask;
    heap.table
        .shared
        .compare_exchange::<Told<S, A>>(&mut seat.seat, word_of::<S>(part), expected, value)
}
