//! The limits of a world.
ghost use Rattle.std.specs.Prelude.{ℕ, refl};
ghost use Rattle.world_model.specs.Sizes.{Sizes, IsLawful, HasConstants, level, small, level_is_lawful, small_is_lawful};

/// The limits of a world, as constants of a type. Definitions see them as one record, `sizes`.
pub trait Shape {
    /// How many lanes there are, 1 to 8.
    const LANES: u32;

    /// How many indexes each lane has, 1 and more; all lanes together at most 2^20.
    /// Index `i` belongs to lane `i / QUOTA`.
    const QUOTA: u32;

    /// How many cells each object has, 1 to 64.
    const SLOTS: u32;

    /// How many strong pointers each lane has, 1 to 1,024.
    const STRONG: u32;

    /// How many markers there are, 1 to 16.
    const MARKERS: u32;

    /// How many serials each lane may draw, 1 to 2^28 - 1.
    const SERIALS: u32;

    /// How many names each lane may give, 1 to 2^36 - 1.
    const NAMES: u64;

    ghost LANES: { ℕ };

    ghost QUOTA: { ℕ };

    ghost SLOTS: { ℕ };

    ghost STRONG: { ℕ };

    ghost MARKERS: { ℕ };

    ghost SERIALS: { ℕ };

    ghost NAMES: { ℕ };

    /// All of them.
    ghost sizes: { Sizes };

    /// The constants are those of the record.
    ghost constants: { HasConstants sizes LANES QUOTA SLOTS STRONG MARKERS SERIALS NAMES };

    /// They are in their ranges.
    ghost lawful: { IsLawful sizes };
}

/// The limits of a level.
#[derive(Clone, Copy, Debug, PartialEq, Eq)]
pub struct Level;

impl Shape for Level {
    const LANES: u32 = 4;

    const QUOTA: u32 = 8192;

    const SLOTS: u32 = 12;

    const STRONG: u32 = 64;

    const MARKERS: u32 = 8;

    const SERIALS: u32 = 268435455;

    const NAMES: u64 = 68719476735;

    ghost LANES = { 4 };

    ghost QUOTA = { 8192 };

    ghost SLOTS = { 12 };

    ghost STRONG = { 64 };

    ghost MARKERS = { 8 };

    ghost SERIALS = { 268435455 };

    ghost NAMES = { 68719476735 };

    ghost sizes = { level };

    ghost constants = { record { lanes = refl; quota = refl; slots = refl; strong = refl; markers = refl; serials = refl; names = refl } };

    ghost lawful = { level_is_lawful };
}

/// The limits of a world that is quickly full, for tests.
#[derive(Clone, Copy, Debug, PartialEq, Eq)]
pub struct Small;

impl Shape for Small {
    const LANES: u32 = 2;

    const QUOTA: u32 = 8;

    const SLOTS: u32 = 4;

    const STRONG: u32 = 4;

    const MARKERS: u32 = 2;

    const SERIALS: u32 = 8;

    const NAMES: u64 = 64;

    ghost LANES = { 2 };

    ghost QUOTA = { 8 };

    ghost SLOTS = { 4 };

    ghost STRONG = { 4 };

    ghost MARKERS = { 2 };

    ghost SERIALS = { 8 };

    ghost NAMES = { 64 };

    ghost sizes = { small };

    ghost constants = { record { lanes = refl; quota = refl; slots = refl; strong = refl; markers = refl; serials = refl; names = refl } };

    ghost lawful = { small_is_lawful };
}
