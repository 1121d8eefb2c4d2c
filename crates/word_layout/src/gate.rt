//! The gate.
ghost use Rattle.std.specs.Prelude.{◌≡◌, ◌<◌};
ghost use Rattle.word_layout.specs.Values.{Unpacks, IsGate, gate_word, bit, phase_number};

use world_model::Phase;

/// What all look at first: the phase, the parity of the number of collections that were started, whether
/// something was stored since the commit was looked at, and how many frames and slices are open, below 256.
#[derive(Clone, Copy, Debug, PartialEq, Eq)]
pub struct Gate {
    pub phase: Phase,
    pub parity: bool,
    pub dirty: bool,
    pub frames: u32,
}

// A bit as a number.
pub(crate) fn bit(b: bool) -> u64
    ensures { result ≡ bit b }
{
    if b { 1 } else { 0 }
}

fn phase_number(phase: Phase) -> u64
    ensures { result ≡ phase_number phase }
{
    match phase {
        Phase::Idle => 0,
        Phase::Marking => 1,
        Phase::Gathering => 2,
    }
}

/// The word of a gate.
pub fn pack_gate(g: Gate) -> u64
    requires { IsGate g }
    ensures { result ≡ gate_word g }
{
    phase_number(g.phase) + (4 * bit(g.parity) + (8 * bit(g.dirty) + 256 * (g.frames as u64)))
}

/// The gate of a word, or none where it is that of no gate.
pub fn unpack_gate(w: u64) -> Option<Gate>
    ensures { Unpacks IsGate gate_word w result }
{
    let phase = match w % 4 {
        0 => Phase::Idle,
        1 => Phase::Marking,
        2 => Phase::Gathering,
        _ => return None,
    };
    let g = Gate {
        phase,
        parity: w / 4 % 2 == 1,
        dirty: w / 8 % 2 == 1,
        frames: (w / 256 % 256) as u32,
    };
    if pack_gate(g) == w { Some(g) } else { None }
}
