//! Names and numbers of variables, and names of fields.
ghost use Rattle.std.specs.Prelude.{◌≡◌, ◌+◌, [], ◌<◌, ◌≤◌, length, IfOk, IfSome, OnOk, MatchOption, slice_get, Some, None};
ghost use Rattle.level_script.specs.Names.{number_in, with_name, number_of_name, has_number, with_number, AreSame};

use indexmap::IndexSet;
use std::alloc::{AllocError, Global};
use std::marker::Model;

/// The most names of a table.
const MOST: usize = 4294967295;

/// How many places for hints there are.
const PLACES: usize = 4096;

/// The four bytes from this place on as a number.
fn four_bytes_at(bytes: &[u8], at: usize) -> u32
    requires { at + 4 ≤ length bytes.now }
{
    u32::from_le_bytes([bytes[at], bytes[at + 1], bytes[at + 2], bytes[at + 3]])
}

/// A number for a name, of its first and its last four bytes, or of each of fewer. No clause says
/// which, since only time rests on it.
fn mix(name: &[u8]) -> u64 {
    let count = name.len();
    let key = if count >= 4 {
        four_bytes_at(name, 0) as u64 | (four_bytes_at(name, count - 4) as u64) << 32
    } else if count > 0 {
        name[0] as u64 | (name[count / 2] as u64) << 8 | (name[count - 1] as u64) << 16
    } else {
        0
    };
    key.wrapping_mul(0x9e37_79b9_7f4a_7c15)
}

/// The place of a name's hint.
fn place_of(mixed: u64) -> usize {
    (mixed >> 52) as usize
}

/// Names, by number from 0 in the order in which they came. Contracts see it as the list of their
/// texts.
#[derive(Drop)]
pub struct NameTable {
    alloc: Global,
    names: IndexSet<String>,
    /// At the place of a name perhaps its number, below the upper half of its mix. A name is compared
    /// before a hint is taken, so that nothing rests on hints but time: most look-ups find a name
    /// here and search no further.
    hints: Vec<u64>,
}

impl Model for NameTable {
    ghost use Rattle.std.specs.Prelude.{ℕ, List, map, length, string_bytes, ◌≤◌};

    ghost Value = { List (List ℕ) };

    ghost view = { λ t. map string_bytes t.names.keys };

    ghost invariant = { λ t. length t.names.keys ≤ 4294967295 };
}

impl NameTable {
    /// No name.
    pub fn new(alloc: Global) -> NameTable
        ensures { result ≡ [] }
    {
        NameTable {
            alloc,
            names: IndexSet::new(alloc),
            hints: Vec::new(alloc),
        }
    }

    /// How many names there are.
    pub fn count(&self) -> u32
        ensures { result ≡ length self.now }
    {
        self.names.len() as u32
    }

    /// The number of a name, where the hint at its place is right.
    #[inline(always)]
    fn hinted(&self, name: &str) -> Option<u32>
        ensures { IfSome result (λ number. number_of_name self.now name.now ≡ Some number) }
    {
        let mixed = mix(name.as_bytes());
        let hint = *self.hints.get(place_of(mixed))?;
        let number = (hint % (1 << 32)) as u32;
        if hint >> 32 != mixed >> 32 || number as usize >= self.names.len() {
            return None;
        }
        let known = self.names.get_index(number as usize)?;
        if known.as_str() == name {
            Some(number)
        } else {
            None
        }
    }

    /// Keeps the number of a name at its place.
    fn hint(&mut self, name: &str, number: u32) -> Result<(), AllocError>
        ensures { self.new ≡ self.old }
    {
        if self.hints.is_empty() {
            self.hints.resize(PLACES, 0)?;
        }
        let mixed = mix(name.as_bytes());
        if let Some(hint) = self.hints.get_mut(place_of(mixed)) {
            *hint = mixed >> 32 << 32 | number as u64;
        }
        Ok(())
    }

    /// The number of a name.
    pub fn find(&self, name: &str) -> Option<u32>
        ensures { result ≡ number_of_name self.now name.now }
    {
        if let Some(number) = self.hinted(name) {
            return Some(number);
        }
        match self.names.get_index_of(name) {
            Some(number) => Some(number as u32),
            None => None,
        }
    }

    /// The name with a number.
    pub fn get(&self, number: u32) -> Option<&str>
        ensures { MatchOption result (slice_get self.now number ≡ None) (λ name. slice_get self.now number ≡ Some name.now) }
    {
        match self.names.get_index(number as usize) {
            Some(name) => Some(name.as_str()),
            None => None,
        }
    }

    /// The same as `add`, by the hashes alone.
    fn insert(&mut self, name: &str) -> Result<u32, AllocError>
        ensures number { IfOk result (λ number. number ≡ number_in self.old name.now) }
        ensures names { OnOk result (self.new ≡ with_name self.old name.now) }
    {
        let key = String::from_str(self.alloc, name)?;
        if self.names.len() >= MOST {
            return Err(AllocError);
        }
        let (number, _) = self.names.insert_full(key)?;
        Ok(number as u32)
    }

    /// The number of a name, which is added where it is new. After an error nothing is said of the
    /// table.
    pub fn add(&mut self, name: &str) -> Result<u32, AllocError>
        ensures number { IfOk result (λ number. number ≡ number_in self.old name.now) }
        ensures names { OnOk result (self.new ≡ with_name self.old name.now) }
    {
        if let Some(number) = self.hinted(name) {
            return Ok(number);
        }
        let number = self.insert(name)?;
        self.hint(name, number)?;
        Ok(number)
    }
}

/// Appends zeros until there is an element at this place.
fn reach(rounds: &mut Vec<u32>, at: usize) -> Result<(), AllocError>
    ensures there { OnOk result (at < length rounds.new.items) }
    ensures same { AreSame rounds.old.items rounds.new.items }
{
    while rounds.len() <= at {
        rounds.push(0)?;
    }
    Ok(())
}

/// Numbers, in the order in which they came. Contracts see it as their list.
#[derive(Drop)]
pub struct NumberSet {
    alloc: Global,
    numbers: Vec<u32>,
    /// For each number the round in which it came last, or 0: by it a number is found at once.
    rounds: Vec<u32>,
    /// The round of those that are there, from 1.
    round: u32,
}

impl Model for NumberSet {
    ghost use Rattle.std.specs.Prelude.{ℕ, List, ◌≤◌};
    ghost use Rattle.level_script.specs.Names.{AreUpTo, CameIn};

    ghost Value = { List ℕ };

    ghost view = { λ s. s.numbers.items };

    ghost invariant = { λ s. (1 ≤ s.round) × AreUpTo s.round s.rounds.items × CameIn s.rounds.items s.round s.numbers.items };
}

impl NumberSet {
    /// No number.
    pub fn new(alloc: Global) -> NumberSet
        ensures { result ≡ [] }
    {
        NumberSet {
            alloc,
            numbers: Vec::new(alloc),
            rounds: Vec::new(alloc),
            round: 1,
        }
    }

    /// The allocator that the numbers are on.
    pub fn alloc(&self) -> Global {
        self.alloc
    }

    /// Whether a number is there.
    pub fn has(&self, number: u32) -> bool
        ensures { result ≡ has_number self.now number }
    {
        match self.rounds.get(number as usize) {
            Some(round) => *round == self.round,
            None => false,
        }
    }

    /// Adds a number where it is new.
    pub fn add(&mut self, number: u32) -> Result<(), AllocError>
        ensures { OnOk result (self.new ≡ with_number self.old number) }
    {
        if self.has(number) {
            return Ok(());
        }
        reach(&mut self.rounds, number as usize)?;
        self.numbers.push(number)?;
        self.rounds[number as usize] = self.round;
        Ok(())
    }

    /// Takes all numbers out.
    pub fn clear(&mut self)
        ensures { self.new ≡ [] }
    {
        self.numbers.clear();
        if self.round < u32::MAX {
            self.round += 1;
        } else {
            self.rounds = Vec::new(self.alloc);
            self.round = 1;
        }
    }
}
