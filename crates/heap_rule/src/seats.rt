//! A seat is cut in two, and two are made one.
ghost use Rattle.std.specs.Prelude.{◌≡◌};
ghost use Rattle.heap_rule.specs.Seats.{Follows};
ghost use Rattle.heap_rule.specs.Seating.{kept, dealt, joined, MayJoin};

use crate::heap::{Heap, Seat};
use crate::views::View;
use atomic_table::{Join, Split};
use std::marker::{Brand, PhantomData};
use world_model::{PassSet, Shape};

/// The passes that a new seat gets, which each call picks.
pub(crate) trait Deals {
    ghost use Rattle.heap_rule.specs.Types.{PassSet};

    ghost those: { PassSet };
}

impl Deals for Brand {
    ghost use Rattle.std.specs.Prelude.{false};

    ghost those = { record { lanes = 0; markers = 0; collector = false } };
}

/// What the two seats know: of its own passes, each what the one knew.
pub(crate) struct Parts<D: Deals> {
    of: PhantomData<D>,
}

impl<D: Deals> Split<View> for Parts<D> {
    ghost use Rattle.heap_rule.specs.Seating.{kept, dealt};

    ghost left = { kept D.those };

    ghost right = { dealt D.those };
}

/// What the one seat knows: of each pass what the seat knew that had it.
pub(crate) struct Both;

impl Join<View> for Both {
    ghost use Rattle.heap_rule.specs.Seating.{joined, spent};

    ghost both = { joined };

    ghost spent = { spent };
}

impl<S: Shape> Heap<S> {
    /// Cuts a seat in two where each call picks as `D` which passes the new seat gets, which may be any function of `set`.
    fn cut<D: Deals>(&self, seat: &mut Seat, set: PassSet) -> Seat
        requires set { D.those ≡ set }
        requires heap { seat.old.heap ≡ self.now }
        ensures kept { seat.new.view ≡ kept set seat.old.view }
        ensures seat { Follows seat.old seat.new }
        ensures dealt { result.view ≡ dealt set seat.old.view }
        ensures heap { result.heap ≡ self.now }
    {
        let _ = set;
        let new = self.table.shared.split_seat::<Parts<D>>(&mut seat.seat);
        Seat { seat: new }
    }

    /// Gives those passes of a seat that are in the set to a new one, with what it knew of them, their open frames and what
    /// these hold. Both seats have seen what the one had seen. It costs one load.
    pub fn split(&self, seat: &mut Seat, set: PassSet) -> Seat
        requires heap { seat.old.heap ≡ self.now }
        ensures kept { seat.new.view ≡ kept set seat.old.view }
        ensures seat { Follows seat.old seat.new }
        ensures dealt { result.view ≡ dealt set seat.old.view }
        ensures heap { result.heap ≡ self.now }
    {
        self.cut::<Brand>(seat, set)
    }

    /// Gives all passes of another seat to this one, which has then seen what either had seen. No marker of either has its
    /// slice open. It costs one load.
    pub fn join(&self, seat: &mut Seat, other: Seat)
        requires heap { seat.old.heap ≡ self.now }
        requires other { other.heap ≡ self.now }
        requires closed { MayJoin seat.old.view other.view }
        ensures joined { seat.new.view ≡ joined seat.old.view other.view }
        ensures seat { Follows seat.old seat.new }
    {
        self.table
            .shared
            .join_seat::<Both>(&mut seat.seat, other.seat);
    }
}
