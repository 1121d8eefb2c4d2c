//! Calls that are counted, and of which some fail.
ghost use Rattle.std.specs.Prelude.{◌≡◌, ◌+◌, ◌-◌, ◌^◌, ◌<◌, ◌≤◌, ◌↔◌, min, if◌then◌else◌, IsTrue, Contains};

/// The calls of a source or a sink in memory.
#[derive(Drop)]
pub(crate) struct Calls {
    /// The numbers of those that fail, from 1.
    pub(crate) fails: Vec<u32>,
    /// How many there were. It stays at the greatest u64.
    pub(crate) made: u64,
    /// How many of them failed.
    pub(crate) faults: u64,
    ghost counted: { faults ≤ made },
}

impl Calls {
    /// No call yet.
    pub(crate) fn new(fails: Vec<u32>) -> Calls
        ensures fails { result.fails ≡ fails }
        ensures made { result.made ≡ 0 }
        ensures faults { result.faults ≡ 0 }
    {
        Calls {
            fails,
            made: 0,
            faults: 0,
        }
    }

    /// Counts one call more, and says whether it fails.
    pub(crate) fn next(&mut self) -> bool
        ensures listed { IsTrue result ↔ Contains self.old.fails.items (self.old.made + 1) }
        ensures fails { self.new.fails ≡ self.old.fails }
        ensures made { self.new.made ≡ min (self.old.made + 1) (2 ^ 64 - 1) }
        ensures faults { self.new.faults ≡ self.old.faults + (if result then 1 else 0) }
    {
        let listed = is_listed(&self.fails, self.made);
        self.made = self.made.saturating_add(1);
        if listed {
            self.faults += 1;
        }
        listed
    }
}

// Whether the call after so many is listed. No number above the greatest u32 is.
fn is_listed(fails: &[u32], made: u64) -> bool
    ensures listed { IsTrue result ↔ Contains fails.now (made + 1) }
    ensures low { IsTrue result → made + 1 < 2 ^ 32 }
{
    if made >= u64::from(u32::MAX) {
        return false;
    }
    let number = made as u32 + 1;
    fails.contains(&number)
}
