//! What a step is for: its pass and its plain arguments. Lists that a step is about stand in the view of its seat.
use word_layout::Part;
use world_model::{Marked, Ref, Weak};

/// A word of an item whose object is there.
#[derive(Clone, Copy, Drop)]
pub enum ItemWord {
    Owner,
    Name,
    Kind,
    Next,
}

/// Why a lane loads the gate.
#[derive(Clone, Copy, Drop)]
pub enum LaneGate {
    /// To know the phase and the parity.
    Look,
    /// To resolve a weak pointer whose index is none of the array.
    Beyond { pair: Weak },
    /// To take a unit apart, which is refused while a collection marks.
    Refuse { at: Ref },
    /// To say that a unit of so many members was taken apart.
    Apart { at: Ref, count: u32 },
}

/// What a memo gets.
#[derive(Clone, Copy, Drop)]
pub enum MemoLoad {
    Owner,
    /// The head of the unit that the owner named.
    Head,
    Name,
}

/// What a step of a lane is for.
#[derive(Clone, Copy, Drop)]
pub enum LaneAsk {
    Open,
    Close,
    /// Marks the unit that begins at this item.
    Shade { unit: u32 },
    SwapCell { at: Ref, slot: u32, to: Option<Ref> },
    SwapPlain { at: Ref, slot: u32, value: u64 },
    SwapStrong { h: u32, to: Option<Ref> },
    LoadCell { at: Ref, slot: u32 },
    LoadPlain { at: Ref, slot: u32 },
    LoadStrong { h: u32 },
    /// Puts the unit in its hand into the row of the lanes.
    AddHand { unit: u32 },
    SetDirty,
    LoadGate { why: LaneGate },
    SetRoot { at: Ref, on: bool },
    /// Loads a word of an object that it holds, by its item.
    LoadOf { index: u32, word: ItemWord },
    /// Loads, and stores, a word that it alone changes, of an item that it has taken or of its free chain.
    LoadKept { part: Part },
    StoreItem { part: Part, value: u64 },
    Link { index: u32, to: Option<u32> },
    /// Makes objects of all items that it has taken, of which this is the first: one unit.
    Publish { first: u32 },
    /// Takes the return chain, to make so many objects.
    TakeReturn { asked: u32 },
    /// Takes the first items of its free chain; gives the items behind so many that it has taken to the free chain, in front.
    TakeFree { count: u32 },
    GiveFree { kept: u32 },
    /// Loads the number of names that it has made, to make so many objects more.
    LoadNames { asked: u32 },
    LoadOwn { part: Part },
    StoreOwn { part: Part, value: u64 },
    /// Loads the serial of an object, where the lane has made so many serials.
    FindSerial { at: Ref, made: u32 },
    /// Gives an object this serial, where its word is the one expected, which has none.
    GiveSerial { at: Ref, serial: u32, expected: u64 },
    /// The first and the second load of the serial that a weak pointer compares, and the loads between them.
    FirstSerial { pair: Weak },
    LoadMemo { pair: Weak, part: MemoLoad },
    SecondSerial { pair: Weak },
    /// Prepares the head of a unit's last member, makes that member a unit by itself, and cuts it off its old unit's
    /// chain, behind the item of the member before it; all by items.
    Prepare { index: u32 },
    Loosen { index: u32 },
    CutOff { index: u32, last: u32 },
    MarkGarbage { at: Ref },
    IsValid { at: Ref },
}

/// What a step of a marker is for.
#[derive(Clone, Copy, Drop)]
pub enum MarkerAsk {
    Open,
    Close { budget: u32, reply: Marked },
    /// Marks what was found at the cursor of its scan.
    ShadeFound,
    /// Loads the cell at the cursor, of this item.
    ScanCell { index: u32, slot: u32 },
    /// Puts a unit of its stack into its own row.
    AddRow { unit: u32 },
    TakeRow { row: u32, word: u32 },
    LoadRow { row: u32, word: u32 },
    SetDirty,
    LoadGate,
    /// Loads the head of a unit of its stack, and begins its scan.
    StartScan { unit: u32 },
    /// Loads the head of what was found, which is settled where it is marked.
    SettleFound,
    /// Loads a word of a member of the unit under scan, or of what a cell of it named, by its item.
    LoadOf { index: u32, word: ItemWord },
}

/// Why the collector loads the gate.
#[derive(Clone, Copy, Drop)]
pub enum CollectorGate {
    Look,
    /// To start a collection, with so many removed objects that are not released.
    Begin { left: u32 },
    Commit,
    /// To sweep; and to say that a sweep stops before the last item.
    Sweep { budget: u32 },
    SweepMore { budget: u32 },
    Purge { budget: u32 },
}

/// A step of destruction.
#[derive(Clone, Copy, Drop)]
pub enum LifeStep {
    Begin,
    Ask { poll: u32, answer: bool },
    Finish,
}

/// What a step of the collector is for.
#[derive(Clone, Copy, Drop)]
pub enum CollectorAsk {
    Begin {
        expected: u64,
    },
    LoadGate {
        why: CollectorGate,
    },
    /// Loads a word of the root set, and a strong pointer.
    LoadRoots {
        word: u32,
    },
    LoadStrong {
        lane: u32,
        h: u32,
    },
    /// Marks a root unit that it found.
    ShadeRoot {
        unit: u32,
    },
    AddHand {
        unit: u32,
    },
    ClearDirty,
    LookRow {
        row: u32,
        word: u32,
    },
    Commit {
        expected: u64,
    },
    /// Loads the owner at the cursor, and the head of the unit that it named; and dooms the unit that begins there.
    LookOwner,
    LookHead {
        unit: u32,
    },
    Doom,
    Settle {
        budget: u32,
    },
    /// Loads a word of an object that lives or is removed, by its item.
    LoadOf {
        index: u32,
        word: ItemWord,
    },
    /// Loads the head, and the link, of an item of the removed chain.
    LoadHead {
        index: u32,
    },
    LoadLink {
        index: u32,
    },
    /// Links the unit that begins at this item behind the removed chain; and takes the unit that is the next to be released
    /// out of it, which stands behind this item, or in front.
    Append {
        first: u32,
    },
    CutUnit {
        behind: Option<u32>,
    },
    /// Clears a word of a member of that unit, and links its last member to this item.
    Clear {
        part: Part,
    },
    LinkBack {
        last: u32,
        to: Option<u32>,
    },
    StoreLife {
        index: u32,
        step: LifeStep,
    },
    LoadReturn {
        lane: u32,
    },
    /// Puts the items of that unit, which begins at this one, in front of the return chain of its lane.
    Release {
        lane: u32,
        first: u32,
        expected: u64,
        new: u64,
    },
    LoadOwn {
        part: Part,
    },
    /// Loads the number of removed objects that are not released, behind so many steps of a purge.
    LoadLeft {
        budget: u32,
        steps: u32,
    },
    StoreOwn {
        part: Part,
        value: u64,
    },
}

/// What a step is for.
#[derive(Clone, Copy, Drop)]
pub enum Ask {
    Lane { lane: u32, ask: LaneAsk },
    Marker { marker: u32, ask: MarkerAsk },
    Collector { ask: CollectorAsk },
}
