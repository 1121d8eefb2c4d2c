//! The calls of a shared heap that open and close the frame of a lane.
//!
//! A call says what it adds to the one history behind the words: its entry, once, behind all that its seat had seen and
//! what other seats did meanwhile. It takes no memory and waits for nothing.
//!
//! It stands on the steps of `heap_rule`. The layer above uses [`open_frame`] and [`close_frame`].
#![tactic(auto)]

ghost use Rattle.std.specs.Prelude.{◌≡◌, [], ◌∷◌};
ghost use Rattle.world_model.specs.Follows.{entry};
ghost use Rattle.word_layout.specs.Values.{gate_word, IsGate};
ghost use Rattle.frames.specs.Types.{Gate, Lane};
ghost use Rattle.frames.specs.Types.act;
ghost use Rattle.heap_rule.specs.Views.{memos_but};
ghost use Rattle.heap_rule.specs.Seats.{Follows};
ghost use Rattle.heap_rule.specs.Telling.{Now};
ghost use Rattle.frames.specs.Calls.{IsClosed, IsOpened, AddsEntries};

use heap_rule::{Heap, Seat, steps};
use word_layout::unpack_gate;
use world_model::{Phase, Shape};

/// The phase that the word of a gate has.
fn phase_of(word: u64) -> Phase
    ensures { (g : Gate) → IsGate g → gate_word g ≡ word → result ≡ g.phase }
{
    match unpack_gate(word) {
        Some(gate) => gate.phase,
        None => Phase::Idle,
    }
}

/// Opens the frame of a lane, and answers the phase of the heap at that step. It adds FrameOpen with this phase; the lane
/// holds nothing.
pub fn open_frame<S: Shape>(heap: &Heap<S>, seat: &mut Seat, lane: u32) -> Phase
    requires heap { seat.old.heap ≡ heap.now }
    requires closed { IsClosed S.sizes seat.old.view lane }
    ensures seat { Follows seat.old seat.new }
    ensures added { AddsEntries S.sizes seat.old.view (entry (Lane lane) (act.FrameOpen result) ∷ []) seat.new.view }
    ensures kept { Now seat.old.view seat.new.view }
    ensures opened { IsOpened S.sizes seat.new.view lane }
{
    let word = steps::open_frame(heap, seat, lane);
    phase_of(word)
}

/// Closes the frame of a lane. It adds FrameClose; what the lane held it holds no more.
pub fn close_frame<S: Shape>(heap: &Heap<S>, seat: &mut Seat, lane: u32)
    requires heap { seat.old.heap ≡ heap.now }
    requires opened { IsOpened S.sizes seat.old.view lane }
    ensures seat { Follows seat.old seat.new }
    ensures added { AddsEntries S.sizes seat.old.view (entry (Lane lane) act.FrameClose ∷ []) seat.new.view }
    ensures kept { Now (record seat.old.view { memos = memos_but lane seat.old.view.memos }) seat.new.view }
    ensures closed { IsClosed S.sizes seat.new.view lane }
{
    steps::close_frame(heap, seat, lane);
}
