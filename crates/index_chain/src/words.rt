//! The words of items.
ghost use Rattle.std.specs.Prelude.{◌≡◌, ℕ, List, [], ◌∷◌, ◌++◌, Option, Some};
ghost use Rattle.index_chain.specs.Walks.{IsTold, with_next};

/// Items with one word each, which names another item or none.
pub trait Links {
    /// For each item of which something is told its next item, or none; nothing for any other.
    ghost words: { Self → ℕ → Option (Option ℕ) };

    /// Whether exactly these writes, one after the other, lead from the first state to the second: each gives an
    /// item another next item, or none.
    ghost writes: { Self → Self → List (ℕ × Option ℕ) → Type 0 };

    /// The next item of an item, or none.
    fn next(&mut self, i: u32) -> Option<u32>
        requires { IsTold (words self.old) i }
        ensures next { words self.old i ≡ Some result }
        ensures same { words self.new ≡ words self.old }
        ensures none { writes self.old self.new [] };

    /// Gives an item another next item, or none. Nothing need be told of that item.
    fn set_next(&mut self, i: u32, to: Option<u32>)
        requires { IsTold (words self.old) i }
        ensures now { words self.new ≡ with_next (words self.old) i to }
        ensures one { writes self.old self.new ((i, to) ∷ []) };

    // A state is its own without a write, and writes follow one another.
    ghost stays: { (links : Self) → writes links links [] };

    ghost follows: { (a b c : Self) (ws vs : List (ℕ × Option ℕ)) → writes a b ws → writes b c vs → writes a c (ws ++ vs) };
}
