ghost use Rattle.std.specs.Prelude.{◌≡◌, ◌<◌, Bool, length, is_some, MatchOption};
ghost use Rattle.model.specs.Lists.{repeats as some_repeat};
ghost use Rattle.lists.specs.Repeats.{has_stood, Apart, Repeated};

/// An entry of a list in which no two may have the same key.
// Not a hash table's trait of entries: that has laws and a place to start at, which no list needs.
pub trait Keyed {
    // whether two entries have the same key
    ghost same: { Self → Self → Bool };

    fn has_key_of(&self, other: &Self) -> bool
        ensures { result ≡ same self.now other.now };
}

/// Whether an entry before the one at `i` has its key.
fn stood<T: Keyed>(items: &[T], i: usize) -> bool
    requires { i < length items.now }
    ensures { result ≡ has_stood T.Keyed.same items.now i }
{
    let item = &items[i];
    items[..i].iter().any(|earlier| earlier.has_key_of(item))
}

/// The first place whose key stood earlier, if there is one.
pub fn first_repeat<T: Keyed>(items: &[T]) -> Option<usize>
    ensures first { MatchOption result (Apart T.Keyed.same items.now (length items.now)) (λ i. Repeated T.Keyed.same items.now i) }
    ensures test { is_some result ≡ some_repeat T.Keyed.same items.now }
{
    (0..items.len()).find(|&i| stood(items, i))
}
