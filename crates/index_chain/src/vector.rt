//! Words in a vector.
ghost use Rattle.std.specs.Prelude.{◌≡◌, slice_get, replicate, length, None, IfOk, refl};
ghost use Rattle.std.proofs.Common.{ap, sym, ◌∙◌};
ghost use Rattle.std.proofs.lemmas.List.Sums.{fold-append};
ghost use Rattle.index_chain.specs.Walks.{after_write, written};

use crate::words::Links;
use std::alloc::{AllocError, Global};

/// Items from 0 on, with their words in a vector. Something is told of each of them.
#[derive(Drop)]
pub struct VecLinks {
    next: Vec<Option<u32>>,
}

impl VecLinks {
    /// So many items, none of which has a next one.
    pub fn new(alloc: Global, count: u32) -> Result<VecLinks, AllocError>
        ensures { IfOk result (λ links. links.next.items ≡ replicate count None) }
    {
        let next = vec![in alloc; None; count as usize]?;
        Ok(VecLinks { next })
    }
}

impl Links for VecLinks {
    ghost words = { λ links. slice_get links.next.items };

    ghost writes = { λ old new ws. slice_get new.next.items ≡ written (slice_get old.next.items) ws };

    ghost stays = { λ links. refl };

    ghost follows = { λ a b c ws vs h k. k ∙ (ap (λ words. written words vs) h ∙ sym (fold-append after_write (slice_get a.next.items) ws vs)) };

    fn next(&mut self, i: u32) -> Option<u32> {
        self.next[i as usize]
    }

    fn set_next(&mut self, i: u32, to: Option<u32>) {
        self.next[i as usize] = to;
    }
}
