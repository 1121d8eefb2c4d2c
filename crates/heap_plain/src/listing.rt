//! Finding the members of units: one by its number, those of a unit that is taken apart, and those of
//! the removed ones, as a sweep finds their first members.
ghost use Rattle.std.specs.Prelude.{◌≡◌, ◌+◌, ◌<◌, ◌≤◌, [], ◌++◌, length, get_or, ℕ};
ghost use Rattle.heap_plain.specs.Filling.{Filled};
ghost use Rattle.heap_plain.specs.Parts.{life_at, first_at};
ghost use Rattle.heap_plain.specs.Listing.{chained, chain, member_at, begins, units_at, CanList};

use crate::life::Life;
use crate::queue::Queue;

/// Writes the indexes of a unit's members, of which the first is at `head`, to the first places.
pub(crate) fn list_unit(next: &[u32], head: u32, count: usize, members: &mut [u32])
    requires chain { (k : ℕ) → k < count → chained next.now head k < length next.now }
    requires room { count ≤ length members.old }
    ensures { Filled members.old members.new 0 count (chained next.now head) }
{
    let mut index = head;
    for k in 0..count {
        members[k] = index;
        index = next[index as usize];
    }
}

/// The index of the member number `k` of a unit of `size` members, of which the first is at `head`. It
/// follows `k` links.
pub(crate) fn member_at(next: &[u32], head: u32, size: u32, k: u32) -> Option<u32>
    requires chain { (j : ℕ) → j < size → chained next.now head j < length next.now }
    ensures { result ≡ member_at next.now head size k }
{
    if k >= size {
        return None;
    }
    let mut index = head;
    for j in 0..k {
        let _ = j;
        index = next[index as usize];
    }
    Some(index)
}

/// Whether the first member of a removed unit is at an index.
fn begins(life: Life, first: usize, index: usize) -> bool
    ensures { result ≡ begins life first index }
{
    match life {
        Life::Removed => first == index,
        _ => false,
    }
}

/// Lists the indexes of a unit's members, of which the first is at `head`, for destruction.
fn queue_unit(next: &[u32], head: u32, count: usize, queue: &mut Queue)
    requires chain { (k : ℕ) → k < count → chained next.now head k < length next.now }
    requires none_begun { queue.old.ring ≡ [] }
    requires room { length queue.old.todo + count ≤ queue.old.room }
    ensures { queue.new ≡ record queue.old { todo = queue.old.todo ++ chain next.now head count } }
{
    let mut index = head;
    for k in 0..count {
        let _ = k;
        queue.list(index);
        index = next[index as usize];
    }
}

/// Looks for the first members of removed units at `count` items from `from` on, and lists the indexes
/// of the units' members for destruction.
pub(crate) fn list_units(
    lives: &[Life],
    firsts: &[u32],
    sizes: &[u32],
    next: &[u32],
    from: usize,
    count: usize,
    queue: &mut Queue,
)
    requires can { CanList lives.now firsts.now sizes.now next.now from count (length queue.old.todo) queue.old.room }
    requires none_begun { queue.old.ring ≡ [] }
    ensures { queue.new ≡ record queue.old { todo = queue.old.todo ++ units_at lives.now firsts.now sizes.now next.now from count } }
{
    for k in 0..count {
        let index = from + k;
        if begins(lives[index], firsts[index] as usize, index) {
            queue_unit(next, index as u32, sizes[index] as usize, queue);
        }
    }
}
