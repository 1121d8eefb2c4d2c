//! Kinds.
ghost use Rattle.std.specs.Prelude.{◌≡◌};
ghost use Rattle.word_layout.specs.Values.{Unpacks, IsKind, kind_word, ready_number};

use world_model::{ClassId, Kind, Ready};

fn ready_number(ready: Ready) -> u64
    ensures { result ≡ ready_number ready }
{
    match ready {
        Ready::After(polls) => polls as u64,
        Ready::Never => 127,
    }
}

/// The word of a kind.
pub fn pack_kind(k: Kind) -> u64
    requires { IsKind k }
    ensures { result ≡ kind_word k }
{
    (k.class.0 as u64)
        + (4096 * (k.refs as u64) + (524288 * (k.plain as u64) + 67108864 * ready_number(k.ready)))
}

/// The kind of a word, or none where it is that of no kind.
pub fn unpack_kind(w: u64) -> Option<Kind>
    ensures { Unpacks IsKind kind_word w result }
{
    let polls = (w / 67108864 % 128) as u32;
    let ready = if polls <= 100 {
        Ready::After(polls)
    } else if polls == 127 {
        Ready::Never
    } else {
        return None;
    };
    let k = Kind {
        class: ClassId((w % 4096) as u32),
        refs: (w / 4096 % 128) as u32,
        plain: (w / 524288 % 128) as u32,
        ready,
    };
    if pack_kind(k) == w { Some(k) } else { None }
}
