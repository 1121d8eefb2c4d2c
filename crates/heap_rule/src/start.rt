//! A heap at its start: the words are zero but for the free chains.
ghost use Rattle.std.specs.Prelude.{◌≡◌, ◌+◌, ◌<◌, IfOk};
ghost use Rattle.world_model.specs.Sizes.{item_count};
ghost use Rattle.heap_rule.specs.Types.part;
ghost use Rattle.heap_rule.specs.Memory.{Shows};
ghost use Rattle.heap_rule.specs.Start.{whole, first_memory, linked_below, stocked_below};

use crate::heap::{Heap, Seat};
use atomic_table::Table;
use std::alloc::{AllocError, Global};
use word_layout::{Part, Stock, pack_stock, word_count, word_of};
use world_model::Shape;

/// The word that links an item to the one behind it in its lane's part of the array.
fn next_item<S: Shape>(item: u32) -> u64
    requires { item < item_count S.sizes }
    ensures { result ≡ first_memory S.sizes (part.Next item) }
{
    if item + 1 == (item / S::QUOTA + 1) * S::QUOTA {
        0
    } else {
        item as u64 + 2
    }
}

/// Links an item, where those before it are linked.
fn link_item<S: Shape>(words: &mut Vec<u64>, item: u32)
    requires item { item < item_count S.sizes }
    requires shown { Shows S.sizes words.old.items (linked_below S.sizes item) }
    ensures { Shows S.sizes words.new.items (linked_below S.sizes (item + 1)) }
{
    words[word_of::<S>(Part::Next(item))] = next_item::<S>(item);
}

/// Gives a lane its part of the array, where those before it have theirs.
fn stock_lane<S: Shape>(words: &mut Vec<u64>, lane: u32)
    requires lane { lane < S.sizes.lanes }
    requires shown { Shows S.sizes words.old.items (stocked_below S.sizes lane) }
    ensures { Shows S.sizes words.new.items (stocked_below S.sizes (lane + 1)) }
{
    words[word_of::<S>(Part::FreeStock(lane))] = pack_stock(Stock {
        first: Some(lane * S::QUOTA),
        count: S::QUOTA,
    });
}

/// The words of an empty heap.
fn first_words<S: Shape>(alloc: Global) -> Result<Vec<u64>, AllocError>
    ensures { IfOk result (λ words. Shows S.sizes words.items (first_memory S.sizes)) }
{
    let mut words = vec![in alloc; 0u64; word_count::<S>()]?;
    for item in 0..(S::LANES * S::QUOTA) {
        link_item::<S>(&mut words, item);
    }
    for lane in 0..S::LANES {
        stock_lane::<S>(&mut words, lane);
    }
    Ok(words)
}

impl<S: Shape> Heap<S> {
    /// An empty heap: phase Idle, the parity 0, and all items of each lane in its free chain, in rising order. The seat
    /// has all passes and has seen nothing. This is the one call that takes memory, for all words at once.
    pub fn new(alloc: Global) -> Result<(Heap<S>, Seat), AllocError>
        ensures seat { IfOk result (λ r. r.1.heap ≡ r.0) }
        ensures whole { IfOk result (λ r. r.1.view ≡ whole S.sizes) }
    {
        let words = first_words::<S>(alloc)?;
        let (table, seat) = Table::of_words(alloc, words.as_slice(), &())?;
        Ok((Heap { table }, Seat { seat }))
    }
}
