//! Heads.
ghost use Rattle.std.specs.Prelude.{◌≡◌, ◌<◌};
ghost use Rattle.word_layout.specs.Values.{Unpacks, IsHead, head_word, life_number};

use crate::gate::bit;

/// How far the destruction of a unit, or of one of its members, has come.
#[derive(Clone, Copy, Debug, PartialEq, Eq)]
pub enum Life {
    Free,
    Live,
    Doomed,
    Begun,
    Finished,
}

/// How far an item's destruction has come, its colour, and how often it was asked, below 65,536.
#[derive(Clone, Copy, Debug, PartialEq, Eq)]
pub struct Head {
    pub life: Life,
    pub colour: bool,
    pub polls: u32,
}

fn life_number(life: Life) -> u64
    ensures { result ≡ life_number life }
{
    match life {
        Life::Free => 0,
        Life::Live => 1,
        Life::Doomed => 2,
        Life::Begun => 3,
        Life::Finished => 4,
    }
}

/// The word of a head.
pub fn pack_head(h: Head) -> u64
    requires { IsHead h }
    ensures { result ≡ head_word h }
{
    life_number(h.life) + (8 * bit(h.colour) + 65536 * (h.polls as u64))
}

/// The head of a word, or none where it is that of no head.
pub fn unpack_head(w: u64) -> Option<Head>
    ensures { Unpacks IsHead head_word w result }
{
    let life = match w % 8 {
        0 => Life::Free,
        1 => Life::Live,
        2 => Life::Doomed,
        3 => Life::Begun,
        4 => Life::Finished,
        _ => return None,
    };
    let h = Head {
        life,
        colour: w / 8 % 2 == 1,
        polls: (w / 65536 % 65536) as u32,
    };
    if pack_head(h) == w { Some(h) } else { None }
}
