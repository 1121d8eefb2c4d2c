//! References.
ghost use Rattle.std.specs.Prelude.{◌≡◌};
ghost use Rattle.word_layout.specs.Values.{Unpacks, IsRef, ref_word};

use world_model::{Name, Ref};

/// The word of a reference, and 0 for none.
pub fn pack_ref(r: Option<Ref>) -> u64
    requires { IsRef r }
    ensures { result ≡ ref_word r }
{
    match r {
        Some(r) => 16777216 * r.name.count + (1048576 * (r.name.lane as u64) + (r.index as u64)),
        None => 0,
    }
}

/// The reference of a word, or none, or that it is the word of neither.
pub fn unpack_ref(w: u64) -> Option<Option<Ref>>
    ensures { Unpacks IsRef ref_word w result }
{
    if w == 0 {
        return Some(None);
    }
    let count = w / 16777216;
    if count == 0 || count >= 68719476736 {
        return None;
    }
    Some(Some(Ref {
        index: (w % 1048576) as u32,
        name: Name {
            lane: (w / 1048576 % 16) as u32,
            count,
        },
    }))
}
