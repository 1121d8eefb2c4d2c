//! Taking a unit apart.
ghost use Rattle.std.specs.Prelude.{◌≡◌, ◌<◌, length};
ghost use Rattle.std.proofs.Math.ListN.{set};

/// How many members a unit has at most.
pub(crate) const MEMBERS: usize = 1024;

/// Makes the last member of the unit that begins at `head`, which is at `index`, a unit by itself.
/// `left` members stay.
pub(crate) fn loosen(firsts: &mut Vec<u32>, sizes: &mut Vec<u32>, head: u32, left: u32, index: u32)
    requires first { index < length firsts.old.items }
    requires size { index < length sizes.old.items }
    requires head { head < length sizes.old.items }
    ensures firsts { firsts.new.items ≡ set firsts.old.items index index }
    ensures sizes { sizes.new.items ≡ set (set sizes.old.items index 1) head left }
{
    firsts[index as usize] = index;
    sizes[index as usize] = 1;
    sizes[head as usize] = left;
}
