//! Chains over a vector.
ghost use Rattle.std.specs.Prelude.{◌≡◌, slice_get};
ghost use Rattle.index_chain.specs.Walks.{items, IsChain};

use index_chain::{
    Chain, Links, VecLinks, append, at, drop_last, outside_stays, parts_stay, push_front,
    take_front,
};

// Whether these are the items of a chain.
fn has_items(links: &mut VecLinks, chain: Chain, expected: &[u32]) -> bool
    requires { IsChain (slice_get links.old.next.items) chain }
    ensures { slice_get links.new.next.items ≡ slice_get links.old.next.items }
{
    let mut same = chain.count as usize == expected.len();
    for k in 0..chain.count {
        let item = at(links, chain, k);
        if expected.get(k as usize) != Some(&item) {
            same = false;
        }
    }
    same
}

#[test]
fn items_are_pushed(rt: HostRuntime) {
    let mut links = VecLinks::new(rt.alloc(), 6).expect(&rt, "memory");
    let chain = push_front(&mut links, Chain::new(), 0);
    let chain = push_front(&mut links, chain, 5);
    let chain = push_front(&mut links, chain, 2);
    assert_eq!(rt;
        chain,
        Chain {
            first: Some(2),
            count: 3
        }
    );
    assert!(rt; has_items(&mut links, chain, &[2, 5, 0]));
}

#[test]
fn two_chains_are_joined(rt: HostRuntime) {
    let mut links = VecLinks::new(rt.alloc(), 6).expect(&rt, "memory");
    let one = push_front(&mut links, Chain::new(), 0);
    let one = push_front(&mut links, one, 2);
    let two = push_front(&mut links, Chain::new(), 3);
    let two = push_front(&mut links, two, 1);
    let all = append(&mut links, one, two);
    assert_eq!(rt;
        all,
        Chain {
            first: Some(2),
            count: 4
        }
    );
    assert!(rt; has_items(&mut links, all, &[2, 0, 1, 3]));
}

#[test]
fn an_empty_chain_is_joined(rt: HostRuntime) {
    let mut links = VecLinks::new(rt.alloc(), 6).expect(&rt, "memory");
    let one = push_front(&mut links, Chain::new(), 4);
    let none = Chain::new();
    let front = append(&mut links, one, none);
    assert_eq!(rt;
        front,
        Chain {
            first: Some(4),
            count: 1
        }
    );
    let back = append(&mut links, none, front);
    assert_eq!(rt;
        back,
        Chain {
            first: Some(4),
            count: 1
        }
    );
    assert!(rt; has_items(&mut links, back, &[4]));
}

#[test]
fn a_chain_is_parted(rt: HostRuntime) {
    let mut links = VecLinks::new(rt.alloc(), 6).expect(&rt, "memory");
    let chain = push_front(&mut links, Chain::new(), 0);
    let chain = push_front(&mut links, chain, 5);
    let chain = push_front(&mut links, chain, 2);
    let (front, rest) = take_front(&mut links, chain, 2);
    assert_eq!(rt;
        front,
        Chain {
            first: Some(2),
            count: 2
        }
    );
    assert_eq!(rt;
        rest,
        Chain {
            first: Some(0),
            count: 1
        }
    );
    assert!(rt; has_items(&mut links, front, &[2, 5]));
    assert!(rt; has_items(&mut links, rest, &[0]));
}

#[test]
fn nothing_and_all_is_taken(rt: HostRuntime) {
    let mut links = VecLinks::new(rt.alloc(), 6).expect(&rt, "memory");
    let chain = push_front(&mut links, Chain::new(), 0);
    let chain = push_front(&mut links, chain, 5);
    let (none, all) = take_front(&mut links, chain, 0);
    assert_eq!(rt; none.count, 0);
    assert_eq!(rt; all, chain);
    let (all, none) = take_front(&mut links, chain, 2);
    assert_eq!(rt; all, chain);
    assert_eq!(rt; none.count, 0);
    assert!(rt; has_items(&mut links, chain, &[5, 0]));
}

#[test]
fn the_last_items_are_dropped(rt: HostRuntime) {
    let mut links = VecLinks::new(rt.alloc(), 5000).expect(&rt, "memory");
    let chain = push_front(&mut links, Chain::new(), 4999);
    let chain = push_front(&mut links, chain, 0);
    let (chain, last) = drop_last(&mut links, chain);
    assert_eq!(rt; last, 4999);
    assert_eq!(rt;
        chain,
        Chain {
            first: Some(0),
            count: 1
        }
    );
    let (none, last) = drop_last(&mut links, chain);
    assert_eq!(rt; last, 0);
    assert_eq!(rt; none.count, 0);
}

#[test]
fn words_name_the_next_items(rt: HostRuntime) {
    let mut links = VecLinks::new(rt.alloc(), 4).expect(&rt, "memory");
    links.set_next(3, Some(9));
    assert_eq!(rt; links.next(3), Some(9));
}

// The laws hold of all chains: they can be called anywhere.
#[test]
fn laws() {
    outside_stays();
    parts_stay();
}
