//! Making a unit.
ghost use Rattle.std.specs.Prelude.{ℕ, ◌≡◌, ◌∷◌, [], ◌++◌, ◌+◌, ◌-◌, ◌*◌, ◌≤◌, ◌<◌, ◌^◌, Some, length};
ghost use Rattle.heap_plain.specs.Types.{Lane};
ghost use Rattle.world_model.specs.Engines.{act_of_refusal};
ghost use Rattle.heap_plain.specs.Filling.{Filled, FilledAt, RowsFilled};
ghost use Rattle.heap_plain.specs.Stocked.{CanPop, popped};
ghost use Rattle.heap_plain.specs.Creation.{Decides};
ghost use Rattle.heap_plain.specs.Parts.{kind_at};

use crate::filled::fill;
use crate::stock::Stock;
use world_model::{CreateErr, Diary, Kind, Name, Pass, Ref};

/// Whether `asked` objects may be made where `left` names are left and `free` indexes are free.
pub(crate) fn decide(asked: u32, left: u64, free: u32) -> Result<(), CreateErr>
    requires { asked < 2 ^ 32 }
    ensures { Decides asked left free result }
{
    if left < asked as u64 {
        return Err(CreateErr::NamesSpent { left: left as u32 });
    }
    if free < asked {
        return Err(CreateErr::Full { free });
    }
    Ok(())
}

/// Notes that a creation was refused.
pub(crate) fn refuse(lane: u32, asked: u32, refused: CreateErr, diary: &mut Diary)
    ensures { diary.new ≡ diary.old ++ record { pass = Lane lane; act = act_of_refusal asked refused } ∷ [] }
{
    match refused {
        CreateErr::Full { free } => diary.full(Pass::Lane(lane), asked, free),
        CreateErr::NamesSpent { left } => diary.names_spent(Pass::Lane(lane), asked, left as u64),
    }
}

/// Writes the names of a lane from count `first` on to the next free places.
pub(crate) fn place(
    names: &mut Vec<Option<Name>>,
    free: &Stock,
    count: usize,
    lane: u32,
    first: u64,
)
    requires stack { CanPop free.now.free count (length names.old.items) }
    requires few { first + count < 2 ^ 64 }
    ensures { FilledAt names.old.items names.new.items (popped free.now.free) count (λ k. Some (record { lane = lane; count = first + k })) }
{
    for k in 0..count {
        names[free.peek(k) as usize] = Some(Name {
            lane,
            count: first + k as u64,
        });
    }
}

/// Writes `value` to the next free places.
pub(crate) fn fill_popped<T: Copy + Drop>(items: &mut Vec<T>, free: &Stock, count: usize, value: T)
    requires stack { CanPop free.now.free count (length items.old.items) }
    ensures { FilledAt items.old.items items.new.items (popped free.now.free) count (λ k. value) }
{
    for k in 0..count {
        items[free.peek(k) as usize] = value;
    }
}

/// Writes these kinds to the next free places.
pub(crate) fn classify(stored: &mut Vec<Kind>, free: &Stock, kinds: &[Kind])
    requires stack { CanPop free.now.free (length kinds.now) (length stored.old.items) }
    ensures { FilledAt stored.old.items stored.new.items (popped free.now.free) (length kinds.now) (kind_at kinds.now) }
{
    for k in 0..kinds.len() {
        stored[free.peek(k) as usize] = kinds[k];
    }
}

/// Writes `value` to all cells of the rows of the next free indexes. A row has `slots` cells.
pub(crate) fn fill_rows<T: Copy + Drop>(
    cells: &mut Vec<T>,
    free: &Stock,
    count: usize,
    slots: usize,
    value: T,
)
    requires enough { count ≤ length free.now.free }
    requires rows { (k : ℕ) → k < count → popped free.now.free k * slots + slots ≤ length cells.old.items }
    ensures { RowsFilled cells.old.items cells.new.items (popped free.now.free) count slots value }
{
    for k in 0..count {
        fill(cells, free.peek(k) as usize * slots, slots, value);
    }
}

/// Writes to each of the next free places, but the last, the one behind it.
pub(crate) fn link(next: &mut Vec<u32>, free: &Stock, count: usize)
    requires some { 1 ≤ count }
    requires stack { CanPop free.now.free count (length next.old.items) }
    ensures { FilledAt next.old.items next.new.items (popped free.now.free) (count - 1) (λ k. popped free.now.free (k + 1)) }
{
    for k in 0..count - 1 {
        next[free.peek(k) as usize] = free.peek(k + 1);
    }
}

/// Writes references to the objects at the next free indexes, whose names are those of
/// the lane from count `first` on.
pub(crate) fn answer(out: &mut [Ref], free: &Stock, lane: u32, first: u64)
    requires enough { length out.old ≤ length free.now.free }
    requires few { first + length out.old < 2 ^ 64 }
    ensures { Filled out.old out.new 0 (length out.old) (λ k. record { index = popped free.now.free k; name = record { lane = lane; count = first + k } }) }
{
    for k in 0..out.len() {
        out[k] = Ref {
            index: free.peek(k),
            name: Name {
                lane,
                count: first + k as u64,
            },
        };
    }
}
