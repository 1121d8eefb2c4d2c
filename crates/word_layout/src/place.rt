//! The place of each word of a heap.
ghost use Rattle.std.specs.Prelude.{◌≡◌, ◌<◌, ◌≤◌, ◌+◌, ◌*◌};
ghost use Rattle.world_model.specs.Sizes.{item_count};
ghost use Rattle.word_layout.specs.Places.{IsPart, place, row_words, lanes_at, roots_at, rows_at, items_at, word_count};

use world_model::Shape;

/// The parts of a heap of words. An item is an index of the object array; a row has a bit for each item.
#[derive(Clone, Copy, Debug, PartialEq, Eq)]
pub enum Part {
    /// The gate.
    Gate,
    /// The head of an item.
    Head(u32),
    /// The unit of an item: 1 + the index of its first member, or 0 where it is free.
    Owner(u32),
    /// The next item of an item's chain: 1 + its index, or 0 at the end.
    Next(u32),
    /// The reference word of the object of an item, or 0.
    NameOf(u32),
    /// The kind of the object of an item.
    KindOf(u32),
    /// The serial of an item, or 0.
    Serial(u32),
    /// A cell of an item, by its slot.
    Cell(u32, u32),
    /// A word of the root set.
    Root(u32),
    /// A word of a row of grey units, by the row and the word: row `m` is that of marker `m`, and row MARKERS,
    /// the last one, that of the lanes and the collector.
    Row(u32, u32),
    /// A strong pointer of a lane.
    Strong(u32, u32),
    /// The free items of a lane.
    FreeStock(u32),
    /// The items that come back to a lane.
    ReturnStock(u32),
    /// How many names a lane has given.
    NamesMade(u32),
    /// How many serials a lane has given.
    SerialsMade(u32),
    /// The place of the sweep.
    Cursor,
    /// The first of the removed chain.
    Removed,
    /// How many removed objects are not released.
    Left,
    /// The place of the polls.
    Polling,
}

// How many items there are.
fn items<S: Shape>() -> usize
    ensures count { result ≡ item_count S.sizes }
    ensures few { result ≤ 1048576 }
{
    (S::LANES as usize) * (S::QUOTA as usize)
}

// How many words a row has.
fn row_words<S: Shape>() -> usize
    ensures count { result ≡ row_words S.sizes }
    ensures few { result ≤ 16384 }
{
    (items::<S>() + 63) / 64
}

// How many words all rows have.
fn rows<S: Shape>() -> usize
    ensures count { result ≡ (S.sizes.markers + 1) * row_words S.sizes }
    ensures few { result ≤ 278528 }
{
    ((S::MARKERS as usize) + 1) * row_words::<S>()
}

// How many strong pointers there are.
fn strongs<S: Shape>() -> usize
    ensures count { result ≡ S.sizes.lanes * S.sizes.strong }
    ensures few { result ≤ 8192 }
{
    (S::LANES as usize) * (S::STRONG as usize)
}

// Where the words of lanes begin, of their so many-th kind.
fn lanes_at<S: Shape>(k: usize) -> usize
    requires { k ≤ 4 }
    ensures place { result ≡ lanes_at S.sizes k }
    ensures few { result ≤ 37 }
{
    5 + k * (S::LANES as usize)
}

// Where the words of the root set begin.
fn roots_at<S: Shape>() -> usize
    ensures place { result ≡ roots_at S.sizes }
    ensures few { result ≤ 8229 }
{
    lanes_at::<S>(4) + strongs::<S>()
}

// Where the rows begin.
fn rows_at<S: Shape>() -> usize
    ensures place { result ≡ rows_at S.sizes }
    ensures few { result ≤ 24613 }
{
    roots_at::<S>() + row_words::<S>()
}

// Where the words of items begin, of their so many-th kind.
fn items_at<S: Shape>(k: usize) -> usize
    requires { k ≤ 6 }
    ensures place { result ≡ items_at S.sizes k }
    ensures few { result ≤ 6594597 }
{
    rows_at::<S>() + rows::<S>() + k * items::<S>()
}

/// How many words a heap has.
pub fn word_count<S: Shape>() -> usize
    ensures count { result ≡ word_count S.sizes }
    ensures few { result ≤ 73703461 }
{
    items_at::<S>(6) + items::<S>() * (S::SLOTS as usize)
}

/// The place of a part, of those that the shape has. The gate has place 0.
pub fn word_of<S: Shape>(part: Part) -> usize
    requires { IsPart S.sizes part }
    ensures { result ≡ place S.sizes part }
{
    match part {
        Part::Gate => 0,
        Part::Cursor => 1,
        Part::Removed => 2,
        Part::Left => 3,
        Part::Polling => 4,
        Part::FreeStock(lane) => lanes_at::<S>(0) + (lane as usize),
        Part::ReturnStock(lane) => lanes_at::<S>(1) + (lane as usize),
        Part::NamesMade(lane) => lanes_at::<S>(2) + (lane as usize),
        Part::SerialsMade(lane) => lanes_at::<S>(3) + (lane as usize),
        Part::Strong(lane, h) => {
            lanes_at::<S>(4) + ((lane as usize) * (S::STRONG as usize) + (h as usize))
        }
        Part::Root(w) => roots_at::<S>() + (w as usize),
        Part::Row(row, w) => rows_at::<S>() + ((row as usize) * row_words::<S>() + (w as usize)),
        Part::Head(i) => items_at::<S>(0) + (i as usize),
        Part::Owner(i) => items_at::<S>(1) + (i as usize),
        Part::Next(i) => items_at::<S>(2) + (i as usize),
        Part::NameOf(i) => items_at::<S>(3) + (i as usize),
        Part::KindOf(i) => items_at::<S>(4) + (i as usize),
        Part::Serial(i) => items_at::<S>(5) + (i as usize),
        Part::Cell(i, slot) => {
            items_at::<S>(6) + ((i as usize) * (S::SLOTS as usize) + (slot as usize))
        }
    }
}
