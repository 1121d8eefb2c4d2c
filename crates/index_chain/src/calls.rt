//! What is done with chains.
ghost use Rattle.std.specs.Prelude.{◌≡◌, ◌<◌, ◌≤◌, ◌+◌, ◌-◌, ◌^◌, [], ◌∷◌, ◌++◌, take, drop, false, Some, None, IfSome, option_and_then, slice_get};
ghost use Rattle.index_chain.specs.Walks.{IsTold, next_of, with_next, walk, items, has, AreApart, IsChain, Stays};
ghost use Rattle.index_chain.specs.declared.chain.Chain.{Chain};
ghost use Rattle.index_chain.specs.Calls.{joined, with_end, end_write, join_write};

use crate::chain::Chain;
use crate::words::Links;

/// The chain with one more item in front. It takes constant time, and makes one write, to that item.
pub fn push_front<L: Links>(links: &mut L, chain: Chain, i: u32) -> Chain
    requires chain { IsChain (L.words links.old) chain }
    requires told { IsTold (L.words links.old) i }
    requires new { has (items (L.words links.old) chain) i ≡ false }
    requires count { chain.count + 1 < 2 ^ 32 }
    ensures items { items (L.words links.new) result ≡ i ∷ items (L.words links.old) chain }
    ensures chain { IsChain (L.words links.new) result }
    ensures words { L.words links.new ≡ with_next (L.words links.old) i chain.first }
    ensures writes { L.writes links.old links.new ((i, chain.first) ∷ []) }
    ensures others { (other : Chain) → has (items (L.words links.old) other) i ≡ false → IsChain (L.words links.old) other → Stays (L.words links.old) (L.words links.new) other }
{
    links.set_next(i, chain.first);
    Chain {
        first: Some(i),
        count: chain.count + 1,
    }
}

/// One chain followed by another. It takes time linear in the first one, and makes one write, to the last item
/// of the first one, and none where one of them is empty.
pub fn append<L: Links>(links: &mut L, front: Chain, back: Chain) -> Chain
    requires front { IsChain (L.words links.old) front }
    requires back { IsChain (L.words links.old) back }
    requires apart { AreApart (items (L.words links.old) front) (items (L.words links.old) back) }
    requires count { front.count + back.count < 2 ^ 32 }
    ensures items { items (L.words links.new) result ≡ items (L.words links.old) front ++ items (L.words links.old) back }
    ensures chain { IsChain (L.words links.new) result }
    ensures words { L.words links.new ≡ joined (L.words links.old) (items (L.words links.old) front) (items (L.words links.old) back) back.first }
    ensures writes { L.writes links.old links.new (join_write (items (L.words links.old) front) (items (L.words links.old) back) back.first) }
    ensures others { (other : Chain) → AreApart (items (L.words links.old) front) (items (L.words links.old) other) → IsChain (L.words links.old) other → Stays (L.words links.old) (L.words links.new) other }
{
    if front.count == 0 {
        return back;
    }
    if back.count == 0 {
        return front;
    }
    let last = at(links, front, front.count - 1);
    links.set_next(last, back.first);
    Chain {
        first: front.first,
        count: front.count + back.count,
    }
}

/// The first `n` items of a chain, and the rest. It takes time linear in `n`, and writes nothing.
pub fn take_front<L: Links>(links: &mut L, chain: Chain, n: u32) -> (Chain, Chain)
    requires chain { IsChain (L.words links.old) chain }
    requires n { n ≤ chain.count }
    ensures front { items (L.words links.old) result.0 ≡ take n (items (L.words links.old) chain) }
    ensures rest { items (L.words links.old) result.1 ≡ drop n (items (L.words links.old) chain) }
    ensures front_chain { IsChain (L.words links.old) result.0 }
    ensures rest_chain { IsChain (L.words links.old) result.1 }
    ensures words { L.words links.new ≡ L.words links.old }
    ensures writes { L.writes links.old links.new [] }
{
    let next = behind(links, chain, n);
    let front = Chain {
        first: chain.first,
        count: n,
    };
    let rest = Chain {
        first: next,
        count: chain.count - n,
    };
    (front, rest)
}

/// The chain without its last item, and that item. It takes time linear in the chain, and makes one write: the
/// item that is the last one then has no next item. Where no item is left it writes nothing.
pub fn drop_last<L: Links>(links: &mut L, chain: Chain) -> (Chain, u32)
    requires chain { IsChain (L.words links.old) chain }
    requires some { 1 ≤ chain.count }
    ensures items { items (L.words links.new) result.0 ≡ take (chain.count - 1) (items (L.words links.old) chain) }
    ensures last { slice_get (items (L.words links.old) chain) (chain.count - 1) ≡ Some result.1 }
    ensures chain { IsChain (L.words links.new) result.0 }
    ensures words { L.words links.new ≡ with_end (L.words links.old) (take (chain.count - 1) (items (L.words links.old) chain)) None }
    ensures writes { L.writes links.old links.new (end_write (take (chain.count - 1) (items (L.words links.old) chain)) None) }
    ensures others { (other : Chain) → AreApart (take (chain.count - 1) (items (L.words links.old) chain)) (items (L.words links.old) other) → IsChain (L.words links.old) other → Stays (L.words links.old) (L.words links.new) other }
{
    let last = at(links, chain, chain.count - 1);
    let left = Chain {
        first: chain.first,
        count: chain.count - 1,
    };
    if left.count == 0 {
        return (left, last);
    }
    let end = at(links, left, left.count - 1);
    links.set_next(end, None);
    (left, last)
}

/// Item `k` of a chain, from 0. It takes time linear in `k`, and writes nothing.
pub fn at<L: Links>(links: &mut L, chain: Chain, k: u32) -> u32
    requires chain { IsChain (L.words links.old) chain }
    requires k { k < chain.count }
    ensures item { slice_get (items (L.words links.old) chain) k ≡ Some result }
    ensures words { L.words links.new ≡ L.words links.old }
    ensures writes { L.writes links.old links.new [] }
{
    match behind(links, chain, k) {
        Some(i) => i,
        None => 0,
    }
}

// What stands behind the first `n` items of a chain.
fn behind<L: Links>(links: &mut L, chain: Chain, n: u32) -> Option<u32>
    requires chain { IsChain (L.words links.old) chain }
    requires n { n ≤ chain.count }
    ensures rest { walk (L.words links.old) (chain.count - n) result ≡ drop n (items (L.words links.old) chain) }
    ensures words { L.words links.new ≡ L.words links.old }
    ensures writes { L.writes links.old links.new [] }
{
    let mut here = chain.first;
    for passed in 0..n {
        let _ = passed;
        here = step(links, here);
    }
    here
}

// The item behind an item, if there is one.
fn step<L: Links>(links: &mut L, here: Option<u32>) -> Option<u32>
    requires { IfSome here (IsTold (L.words links.old)) }
    ensures next { result ≡ option_and_then (next_of (L.words links.old)) here }
    ensures words { L.words links.new ≡ L.words links.old }
    ensures writes { L.writes links.old links.new [] }
{
    match here {
        Some(i) => links.next(i),
        None => None,
    }
}
