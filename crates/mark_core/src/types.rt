//! Who acts on what, and what each is at.

/// Who acts.
#[derive(Clone, Copy, Debug, PartialEq, Eq)]
pub enum Actor {
    /// A lane, which loads and stores, by its number.
    Lane(u32),
    /// A marker, which scans units, by its number.
    Marker(u32),
    /// The collector, which begins and commits a marking.
    Collector,
}

/// A reference cell of a unit, or a strong pointer of a lane.
#[derive(Clone, Copy, Debug, PartialEq, Eq)]
pub enum Cell {
    /// Cell number `cell`, which is one of the unit's.
    CellOf { unit: u32, cell: u32 },
    /// Strong pointer `number` of the lane.
    StrongOf { lane: u32, number: u32 },
}

/// Where a grey unit stands: one that is marked and not yet scanned.
#[derive(Clone, Copy, Debug, PartialEq, Eq)]
pub enum Place {
    /// It is not grey.
    Nowhere,
    /// Its bit in this row is set. Row `m` is that of marker `m`; the one behind the markers' rows is that
    /// of the lanes and the collector.
    InRow(u32),
    /// On the stack of this marker.
    OnStack(u32),
    /// Under the scan of this marker.
    UnderScan(u32),
    /// In the hand of this lane, which shaded it.
    InHand(u32),
    /// In the hand of the collector.
    InCollector,
}

/// What the collector is at.
#[derive(Clone, Copy, Debug, PartialEq, Eq)]
pub enum Job {
    /// Nothing.
    NoJob,
    /// It goes over the root set, and loads this place of it next: the root bits by their units' numbers,
    /// then the strong pointers by their lanes'.
    Roots(u64),
    /// It looks whether all rows are empty, and loads this word of this row next.
    Look { row: u32, word: u32 },
}

/// The sizes of a machine.
#[derive(Clone, Copy, Debug, PartialEq, Eq)]
pub struct Shape {
    pub lanes: u32,
    pub markers: u32,
    pub units: u32,
    /// The cells of each unit.
    pub cells: u32,
}

/// A marker's scan of a unit.
#[derive(Clone, Copy, Debug, PartialEq, Eq)]
pub struct ScanAt {
    pub unit: u32,
    /// The cell at the cursor: it and those of the unit behind it are still to be settled.
    pub next: u32,
    /// The unit that the cell at the cursor named when it was loaded, until it is settled.
    pub found: Option<u32>,
}

/// An atomic event of marking. Units, cells, rows and words of rows go by number from 0.
///
/// Cell `c` is one of unit `c / cells`, and the cells behind those of the last unit are the strong pointers,
/// one for each lane. Row `m` is that of marker `m`, and the row behind the markers' rows is that of the
/// lanes and the collector. Bit `i` of word `w` of a row stands for unit `64 * w + i`.
#[derive(Clone, Copy, Debug, PartialEq, Eq)]
pub enum Event {
    /// A lane or a marker opens its frame.
    FrameOpen,
    /// It closes it; a lane holds nothing from then on.
    FrameClose,
    /// The collector begins a marking, if no frame is open: what is in the world is white then.
    BeginExchange,
    /// A unit is marked. If it was white it is grey from then on.
    Shade { unit: u32 },
    /// A lane stores into a cell or its strong pointer, and holds what stood there.
    SwapCell { cell: u32, to: Option<u32> },
    /// A cell or strong pointer is loaded.
    LoadCell { cell: u32 },
    /// A grey unit of a hand or stack gets its bit in a row.
    AddRow { row: u32, unit: u32 },
    /// A marker takes the units of a word of a row to its stack.
    TakeRow { row: u32, word: u32 },
    /// Who added to a row sets the gate's dirty bit.
    SetDirty,
    /// The collector clears it, and begins to look at the rows.
    ClearDirty,
    /// A word of a row is loaded.
    LoadRow { row: u32, word: u32 },
    /// The collector ends the marking, if no frame is open and the gate is clean.
    CommitExchange,
    /// The head of a unit is loaded.
    LoadHead { unit: u32 },
    /// The collector dooms a white unit.
    DoomHead { unit: u32 },
    /// The collector ends the collection.
    Settle,
    /// The root bit of a unit is set, cleared or loaded.
    RootBit { unit: u32, on: Option<bool> },
}
