//! Vectors of one value.
ghost use Rattle.std.specs.Prelude.{◌≡◌, ◌+◌, ◌≤◌, IfOk, get_or, length, replicate};
ghost use Rattle.heap_plain.specs.Filling.{Filled};

use std::alloc::{AllocError, Global};

/// A vector with `value` so many times.
pub(crate) fn filled<T: Copy + Drop>(
    alloc: Global,
    count: usize,
    value: T,
) -> Result<Vec<T>, AllocError>
    ensures { IfOk result (λ v. v.items ≡ replicate count value) }
{
    let mut all = Vec::new(alloc);
    for n in 0..count {
        let _ = n;
        all.push(value)?;
    }
    Ok(all)
}

/// Writes `value` to `count` places from `from` on.
pub(crate) fn fill<T: Copy + Drop>(items: &mut Vec<T>, from: usize, count: usize, value: T)
    requires { from + count ≤ length items.old.items }
    ensures { Filled items.old.items items.new.items from count (λ k. value) }
{
    for k in 0..count {
        items[from + k] = value;
    }
}

/// Writes the numbers of `from` over those of `items`.
pub(crate) fn copy(items: &mut Vec<u32>, from: &[u32])
    requires { length items.old.items ≡ length from.now }
    ensures { Filled items.old.items items.new.items 0 (length from.now) (λ k. get_or from.now k 0) }
{
    for k in 0..from.len() {
        items[k] = from[k];
    }
}
