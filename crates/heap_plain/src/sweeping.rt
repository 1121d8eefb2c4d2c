//! Removing white units, and finding what was removed.
ghost use Rattle.std.specs.Prelude.{◌≡◌, ◌+◌, ◌<◌, ◌≤◌, ◌^◌, ◌⊎◌, IsSome, length, true, ℕ};
ghost use Rattle.heap_plain.specs.Parts.{name_at, life_at, first_at, is_removed};
ghost use Rattle.heap_plain.specs.Sweeping.{without, Removes, Looks, Finds};

use crate::colours::Colours;
use crate::life::Life;
use crate::marking::named;
use world_model::Name;

/// What stands at an index after a commit, where the unit of its object is marked or not.
fn without(life: Life, marked: bool) -> Life
    ensures { result ≡ without life marked }
{
    match life {
        Life::Live => if marked { Life::Live } else { Life::Removed },
        _ => life,
    }
}

/// Removes the objects of all units that are not marked.
pub(crate) fn remove_white(firsts: &[u32], colours: &Colours, lives: &mut Vec<Life>)
    requires firsts { length firsts.now ≡ length lives.old.items }
    requires heads { (i : ℕ) → first_at firsts.now i < length colours.now.marked }
    ensures { Removes firsts.now colours.now.marked lives.old.items lives.new.items (length lives.old.items) }
{
    for i in 0..lives.len() {
        lives[i] = without(lives[i], colours.is_marked(firsts[i]));
    }
}

/// Looks at an item, and writes its name behind the first `count` found ones where it is removed.
/// It tells how many are found then.
fn look(names: &[Option<Name>], life: Life, index: usize, found: &mut [Name], count: usize) -> usize
    requires room { count < length found.old }
    requires named { is_removed life ≡ true → IsSome (name_at names.now index) }
    ensures { Looks names.now life index count result found.old found.new }
{
    match life {
        Life::Removed => {
            found[count] = named(names, index);
            count + 1
        }
        _ => count,
    }
}

/// Looks for removed objects at up to `budget` items from `from` on, and writes their names to the
/// front of `found`. It tells how many items it looked at, and how many it found.
pub(crate) fn find_removed(
    names: &[Option<Name>],
    lives: &[Life],
    from: usize,
    budget: u32,
    found: &mut [Name],
) -> (u32, u32)
    requires from { from ≤ length lives.now }
    requires few { length lives.now < 2 ^ 32 }
    requires named { (i : ℕ) → life_at lives.now i ≡ Life.Removed → IsSome (name_at names.now i) }
    ensures { Finds names.now lives.now from budget result.0 result.1 found.old found.new }
{
    let mut looked = 0;
    let mut count = 0;
    while looked < budget && count < found.len() && from + (looked as usize) < lives.len() {
        let index = from + looked as usize;
        count = look(names, lives[index], index, found, count);
        looked += 1;
    }
    (looked, count as u32)
}
