//! The words that the machine shows.
ghost use Rattle.std.specs.Prelude.{◌≡◌, ℕ, ◌+◌, ◌*◌, ◌<◌, ◌^◌, Bool, true, false};
ghost use Rattle.word_layout.specs.Values.{bit};
ghost use Rattle.mark_core.specs.Numbered.{cell_of, step_of};
ghost use Rattle.mark_core.specs.Shown.{state, sizes};
ghost use Rattle.mark_core.specs.Words.{gate_word, head, head_word, cell_word, row_word, root_bit, root_word, target_of, old_word, colour};

use crate::machine::Machine;
use crate::types::{Cell, Event};
use word_layout::{Gate, Head, Life, pack_gate, pack_head};

// The word with one more bit.
fn with_bit(word: u64, i: u64, b: bool) -> u64
    requires i { i < 64 }
    requires word { word < 2 ^ i }
    ensures { result ≡ word + bit b * 2 ^ i }
{
    if b { word + (1 << i) } else { word }
}

impl Machine {
    fn gate_word(&self) -> u64
        ensures { result ≡ gate_word (sizes self.now.shape) (state self.now) }
    {
        pack_gate(Gate {
            phase: self.phase(),
            parity: self.parity(),
            dirty: self.is_dirty(),
            frames: self.frames(),
        })
    }

    fn head_word(&self, unit: u32) -> u64
        ensures { result ≡ head_word (state self.now) unit }
    {
        pack_head(Head {
            life: self.life(unit),
            colour: self.colour(unit),
            polls: 0,
        })
    }

    fn life(&self, unit: u32) -> Life
        ensures { result ≡ (head (state self.now) unit).life }
    {
        if self.is_doomed(unit) {
            Life::Doomed
        } else {
            Life::Live
        }
    }

    fn colour(&self, unit: u32) -> bool
        ensures { result ≡ colour (state self.now) unit }
    {
        if self.is_marked(unit) {
            self.parity()
        } else {
            !self.parity()
        }
    }

    /// What a cell or strong pointer names, by its number.
    pub(crate) fn target_at(&self, n: u32) -> Option<u32>
        ensures { result ≡ target_of (sizes self.now.shape) (state self.now) (cell_of self.now.shape n) }
    {
        match self.cell_of(n) {
            Cell::CellOf { cell, .. } => self.target(cell),
            Cell::StrongOf { lane, .. } => self.root(self.shape().units as u64 + lane as u64),
        }
    }

    fn cell_word(&self, n: u32) -> u64
        ensures { result ≡ cell_word (target_of (sizes self.now.shape) (state self.now) (cell_of self.now.shape n)) }
    {
        match self.target_at(n) {
            Some(u) => 1 + u as u64,
            None => 0,
        }
    }

    fn row_word(&self, row: u32, word: u32) -> u64
        ensures { result ≡ row_word (state self.now).place row word }
    {
        let first = 64 * word as u64;
        let mut bits = 0;
        for i in 0..64u64 {
            bits = with_bit(bits, i, self.row_bit(row, first + i));
        }
        bits
    }

    fn root_bit(&self, p: u64) -> bool
        ensures { result ≡ root_bit (sizes self.now.shape) (state self.now) p }
    {
        p < self.shape().units as u64 && self.root(p).is_some()
    }

    fn root_word(&self, word: u32) -> u64
        ensures { result ≡ root_word (sizes self.now.shape) (state self.now) word }
    {
        let first = 64 * word as u64;
        let mut bits = 0;
        for i in 0..64u64 {
            bits = with_bit(bits, i, self.root_bit(first + i));
        }
        bits
    }

    /// The word that an event finds.
    pub(crate) fn old_word(&self, event: Event) -> u64
        ensures { result ≡ old_word (sizes self.now.shape) (state self.now) (step_of self.now.shape event) }
    {
        match event {
            Event::Shade { unit } => self.head_word(unit),
            Event::LoadHead { unit } => self.head_word(unit),
            Event::DoomHead { unit } => self.head_word(unit),
            Event::SwapCell { cell, .. } => self.cell_word(cell),
            Event::LoadCell { cell } => self.cell_word(cell),
            Event::AddRow { row, unit } => self.row_word(row, unit / 64),
            Event::TakeRow { row, word } => self.row_word(row, word),
            Event::LoadRow { row, word } => self.row_word(row, word),
            Event::RootBit { unit, .. } => self.root_word(unit / 64),
            Event::FrameOpen
            | Event::FrameClose
            | Event::BeginExchange
            | Event::SetDirty
            | Event::ClearDirty
            | Event::CommitExchange
            | Event::Settle => self.gate_word(),
        }
    }
}
