//! The heap, its seats, and the rule of its words.
ghost use Rattle.std.specs.Prelude.{◌≡◌, []};

use crate::views::View;
use atomic_table::{Table, TableRule};
use std::alloc::Global;
use std::marker::{Model, PhantomData};
use world_model::Shape;

/// The rule of a heap of this shape.
pub(crate) struct HeapRule<S: Shape> {
    of: PhantomData<S>,
}

impl<S: Shape> TableRule<(), View, ()> for HeapRule<S> {
    ghost use Rattle.heap_rule.specs.Rule.{Keeps};
    ghost use Rattle.heap_rule.specs.Start.{whole};

    ghost holds = { λ _. Keeps S.sizes };

    ghost first = { λ _. whole S.sizes };
}

/// The words of a heap, which any number of seats act on at once. Contracts see which heap it is.
pub struct Heap<S: Shape> {
    pub(crate) table: Table<(), View, (), HeapRule<S>, Global>,
}

impl<S: Shape> Model for Heap<S> {
    ghost use Rattle.std.specs.Prelude.{◌≡◌};
    ghost use Rattle.atomic_table.specs.Seated.{TableId};
    ghost use Rattle.word_layout.specs.Places.{word_count};

    ghost Value = { TableId };

    ghost view = { λ h. h.table.shared.table_id };

    ghost invariant = { λ h. (h.table.shared.table_id.words ≡ word_count S.sizes) × (h.table.shared.table_id.slots ≡ 0) };
}

/// What a caller acts with: it has passes, and knows what was done by them and, of what others did, a beginning. It has
/// no bytes.
#[derive(Drop)]
pub struct Seat {
    pub(crate) seat: atomic_table::Seat<(), View>,
}

impl Model for Seat {
    ghost use Rattle.std.specs.Prelude.{◌≡◌, []};
    ghost use Rattle.heap_rule.specs.Seats.{SeatIs};

    ghost Value = { SeatIs };

    ghost view = { λ s. record { heap = s.seat.table_id; id = s.seat.id; view = s.seat.me.0 } };

    ghost invariant = { λ s. s.seat.me.1 ≡ [] };
}
