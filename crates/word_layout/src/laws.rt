//! What is true of the words of all values.
ghost use Rattle.word_layout.specs.Changes.{FramesAdd, PhaseChanges, DirtyChanges, ColourChanges, BitsChange};
ghost use Rattle.word_layout.specs.Places.{PlacesFit, PlacesFill, PlacesDiffer, RowsReach};
ghost use Rattle.word_layout.specs.Values.{AreDifferent, IsGate, gate_word, IsHead, head_word, IsWeak, weak_word, IsRef, ref_word, IsKind, kind_word, IsStock, stock_word};

/// Different gates in range have different words.
pub fn gates_differ()
    ensures { AreDifferent IsGate gate_word }
{}

/// Different heads in range have different words.
pub fn heads_differ()
    ensures { AreDifferent IsHead head_word }
{}

/// Different pairs in range have different words.
pub fn pairs_differ()
    ensures { AreDifferent IsWeak weak_word }
{}

/// Different references in range, and none, have different words.
pub fn references_differ()
    ensures { AreDifferent IsRef ref_word }
{}

/// Different kinds in range have different words.
pub fn kinds_differ()
    ensures { AreDifferent IsKind kind_word }
{}

/// Different stocks in range have different words.
pub fn stocks_differ()
    ensures { AreDifferent IsStock stock_word }
{}

/// Each part has a place below the number of words.
pub fn places_fit()
    ensures { PlacesFit }
{}

/// Each place below the number of words is that of a part: no word is idle.
pub fn places_fill()
    ensures { PlacesFill }
{}

/// Each item has its bit in a row.
pub fn rows_reach()
    ensures { RowsReach }
{}

/// Different parts have different places.
pub fn places_differ()
    ensures { PlacesDiffer }
{}

/// One more frame adds 256 to the word of a gate, and one frame less takes 256 away.
pub fn frames_add()
    ensures { FramesAdd }
{}

/// Replacing bits 0 and 1 of the word of a gate replaces its phase, flipping bit 2 flips its parity, and
/// nothing else changes.
pub fn phase_changes()
    ensures { PhaseChanges }
{}

/// Setting or clearing bit 3 of the word of a gate sets or clears its dirty bit, and nothing else.
pub fn dirty_changes()
    ensures { DirtyChanges }
{}

/// Setting or clearing bit 3 of the word of a head sets or clears its colour, and nothing else.
pub fn colour_changes()
    ensures { ColourChanges }
{}

/// Setting or clearing a bit of a word changes that bit alone, and the count of ones by what it was before.
pub fn bits_change()
    ensures { BitsChange }
{}
