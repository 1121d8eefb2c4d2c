//! One function for each kind of step, on a heap and a seat.
ghost use Rattle.std.specs.Prelude.{◌≡◌, ◌-◌, ◌^◌, true};
ghost use Rattle.heap_rule.specs.Types.{Lane, Marker, Collector};
ghost use Rattle.heap_rule.specs.Types.ask;
ghost use Rattle.heap_rule.specs.Types.lane_ask;
ghost use Rattle.heap_rule.specs.Types.lane_gate;
ghost use Rattle.heap_rule.specs.Types.marker_ask;
ghost use Rattle.heap_rule.specs.Types.collector_ask;
ghost use Rattle.heap_rule.specs.Types.collector_gate;
ghost use Rattle.heap_rule.specs.Tells.{MayAsk, Tells};
ghost use Rattle.heap_rule.specs.Seats.{Follows};

use crate::asks::{Ask, CollectorAsk, CollectorGate, LaneAsk, LaneGate, MarkerAsk};
use crate::heap::{Heap, Seat};
use crate::words::{fetch_add, fetch_and, fetch_or, fetch_sub, load};
use std::marker::Brand;
use word_layout::Part;
use world_model::Shape;

/// The bit of the gate that says that a unit was put into a row.
const DIRTY_BIT: u64 = 8;

/// A lane opens its frame: one more frame is open. The colours' sections of gate and open frames change, the frame of the
/// lane is empty, and each slice sees one moment more; all else stands.
pub fn open_frame<S: Shape>(heap: &Heap<S>, seat: &mut Seat, lane: u32) -> u64
    requires heap { seat.old.heap ≡ heap.now }
    requires may { MayAsk S.sizes seat.old.view (ask.Lane lane lane_ask.Open) 256 }
    ensures seat { Follows seat.old seat.new }
    ensures told { Tells S.sizes (ask.Lane lane lane_ask.Open) 256 seat.old.view result seat.new.view }
{
    let ask = Ask::Lane {
        lane,
        ask: LaneAsk::Open,
    };
    fetch_add::<S, Brand>(heap, seat, &ask, Part::Gate, 256)
}

/// A lane closes its frame: one frame less is open. It holds nothing any more, and what it had loaded for a weak pointer is
/// forgotten; all else stands as where a frame is opened.
pub fn close_frame<S: Shape>(heap: &Heap<S>, seat: &mut Seat, lane: u32) -> u64
    requires heap { seat.old.heap ≡ heap.now }
    requires may { MayAsk S.sizes seat.old.view (ask.Lane lane lane_ask.Close) 256 }
    ensures seat { Follows seat.old seat.new }
    ensures told { Tells S.sizes (ask.Lane lane lane_ask.Close) 256 seat.old.view result seat.new.view }
{
    let ask = Ask::Lane {
        lane,
        ask: LaneAsk::Close,
    };
    fetch_sub::<S, Brand>(heap, seat, &ask, Part::Gate, 256)
}

/// A lane that has put a unit into a row sets the dirty bit, which it owed. Gate, debts and the licence of a store change.
pub fn set_dirty_by_lane<S: Shape>(heap: &Heap<S>, seat: &mut Seat, lane: u32) -> u64
    requires heap { seat.old.heap ≡ heap.now }
    requires may { MayAsk S.sizes seat.old.view (ask.Lane lane lane_ask.SetDirty) 8 }
    ensures seat { Follows seat.old seat.new }
    ensures told { Tells S.sizes (ask.Lane lane lane_ask.SetDirty) 8 seat.old.view result seat.new.view }
{
    let ask = Ask::Lane {
        lane,
        ask: LaneAsk::SetDirty,
    };
    fetch_or::<S, Brand>(heap, seat, &ask, Part::Gate, DIRTY_BIT)
}

/// A marker that has put a unit into its row sets the dirty bit, which it owed.
pub fn set_dirty_by_marker<S: Shape>(heap: &Heap<S>, seat: &mut Seat, marker: u32) -> u64
    requires heap { seat.old.heap ≡ heap.now }
    requires may { MayAsk S.sizes seat.old.view (ask.Marker marker marker_ask.SetDirty) 8 }
    ensures seat { Follows seat.old seat.new }
    ensures told { Tells S.sizes (ask.Marker marker marker_ask.SetDirty) 8 seat.old.view result seat.new.view }
{
    let ask = Ask::Marker {
        marker,
        ask: MarkerAsk::SetDirty,
    };
    fetch_or::<S, Brand>(heap, seat, &ask, Part::Gate, DIRTY_BIT)
}

/// The collector clears the dirty bit, and begins to look at the rows: what it finds zero from here on stays so while the
/// gate is clean and nobody owes the bit.
pub fn clear_dirty<S: Shape>(heap: &Heap<S>, seat: &mut Seat) -> u64
    requires heap { seat.old.heap ≡ heap.now }
    requires may { MayAsk S.sizes seat.old.view (ask.Collector collector_ask.ClearDirty) (2 ^ 64 - 1 - 8) }
    ensures seat { Follows seat.old seat.new }
    ensures told { Tells S.sizes (ask.Collector collector_ask.ClearDirty) (2 ^ 64 - 1 - 8) seat.old.view result seat.new.view }
{
    let ask = Ask::Collector {
        ask: CollectorAsk::ClearDirty,
    };
    fetch_and::<S, Brand>(heap, seat, &ask, Part::Gate, !DIRTY_BIT)
}

/// A lane loads the gate, to know the phase and the parity. No section of the rule is touched: the words stay.
pub fn look_by_lane<S: Shape>(heap: &Heap<S>, seat: &mut Seat, lane: u32) -> u64
    requires heap { seat.old.heap ≡ heap.now }
    requires may { MayAsk S.sizes seat.old.view (ask.Lane lane (lane_ask.LoadGate lane_gate.Look)) 0 }
    ensures seat { Follows seat.old seat.new }
    ensures told { Tells S.sizes (ask.Lane lane (lane_ask.LoadGate lane_gate.Look)) 0 seat.old.view result seat.new.view }
{
    let ask = Ask::Lane {
        lane,
        ask: LaneAsk::LoadGate {
            why: LaneGate::Look,
        },
    };
    load::<S, Brand>(heap, seat, &ask, Part::Gate)
}

/// A marker loads the gate, to know the phase and the parity.
pub fn look_by_marker<S: Shape>(heap: &Heap<S>, seat: &mut Seat, marker: u32) -> u64
    requires heap { seat.old.heap ≡ heap.now }
    requires may { MayAsk S.sizes seat.old.view (ask.Marker marker marker_ask.LoadGate) 0 }
    ensures seat { Follows seat.old seat.new }
    ensures told { Tells S.sizes (ask.Marker marker marker_ask.LoadGate) 0 seat.old.view result seat.new.view }
{
    let ask = Ask::Marker {
        marker,
        ask: MarkerAsk::LoadGate,
    };
    load::<S, Brand>(heap, seat, &ask, Part::Gate)
}

/// The collector loads the gate, to know the phase and the parity.
pub fn look_by_collector<S: Shape>(heap: &Heap<S>, seat: &mut Seat) -> u64
    requires heap { seat.old.heap ≡ heap.now }
    requires may { MayAsk S.sizes seat.old.view (ask.Collector (collector_ask.LoadGate collector_gate.Look)) 0 }
    ensures seat { Follows seat.old seat.new }
    ensures told { Tells S.sizes (ask.Collector (collector_ask.LoadGate collector_gate.Look)) 0 seat.old.view result seat.new.view }
{
    let ask = Ask::Collector {
        ask: CollectorAsk::LoadGate {
            why: CollectorGate::Look,
        },
    };
    load::<S, Brand>(heap, seat, &ask, Part::Gate)
}
