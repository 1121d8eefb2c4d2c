//! Weak pointers.
ghost use Rattle.std.specs.Prelude.{◌≡◌};
ghost use Rattle.word_layout.specs.Values.{weak_word};

use world_model::Weak;

/// The word of a pair.
pub fn pack_weak(w: Weak) -> u64
    ensures { result ≡ weak_word w }
{
    4294967296 * (w.serial as u64) + (w.index as u64)
}

/// The pair of a word.
pub fn unpack_weak(w: u64) -> Weak
    ensures { weak_word result ≡ w }
{
    Weak {
        index: (w % 4294967296) as u32,
        serial: (w / 4294967296) as u32,
    }
}
