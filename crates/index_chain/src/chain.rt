//! Chains.
ghost use Rattle.std.specs.Prelude.{◌≡◌, []};
ghost use Rattle.index_chain.specs.Walks.{Words, items, IsChain};

/// A chain of `count` items from `first` on. Where `count` is 0, `first` means nothing.
///
/// It stands for the list of the items that one meets from `first` through their words.
#[derive(Clone, Copy, Debug, PartialEq, Eq)]
pub struct Chain {
    pub first: Option<u32>,
    pub count: u32,
}

impl Chain {
    /// The chain without items.
    pub fn new() -> Chain
        ensures count { result.count ≡ 0 }
        ensures items { (words : Words) → items words result ≡ [] }
        ensures chain { (words : Words) → IsChain words result }
    {
        Chain {
            first: None,
            count: 0,
        }
    }
}
