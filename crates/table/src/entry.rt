ghost use Rattle.std.specs.Prelude.{◌≡◌, ℕ, ◌<◌, Decides};

/// A kind of entry: when two entries have the same key, and at which slot a search for a key starts.
pub trait Entry: Copy {
    // two entries have the same key
    ghost alike: { Self → Self → Type 0 };

    // the slot at which a search among so many slots starts
    ghost initial: { Self → ℕ → ℕ };

    /// Whether the two have the same key.
    fn same_key(&self, other: &Self) -> bool
        ensures { Decides result (alike self.now other.now) };

    /// The slot at which a search for the key starts.
    fn start(&self, slots: usize) -> usize
        requires { 0 < slots }
        ensures value { result ≡ initial self.now slots }
        ensures within { result < slots };

    ghost reflexive: { (x : Self) → alike x x };

    ghost symmetric: { (x y : Self) → alike x y → alike y x };

    ghost transitive: { (x y z : Self) → alike x y → alike y z → alike x z };

    // same keys start at the same slot
    ghost together: { (x y : Self) (n : ℕ) → alike x y → initial x n ≡ initial y n };
}
