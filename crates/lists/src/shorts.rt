ghost use Rattle.std.specs.Prelude.{◌≡◌, ℕ, ◌<◌, ◌≤◌, [], ◌∷◌, ◌++◌, length, if◌then◌else◌, is_some, MatchOption, nat_lt, slice_set};
ghost use Rattle.lists.specs.Shorts.{listed};

use crate::places::set_in;
use crate::short::Short;

// Lengths are compared, and not left to `get_mut`: no proof knows what an array holds after a write through that.
impl<T: Copy, const N: usize> Short<T, N> {
    /// An empty list; `fill` is never read.
    pub fn new(fill: T) -> Self
        ensures { listed result ≡ [] }
    {
        Short {
            items: [fill; N],
            len: 0,
        }
    }

    /// The items of a slice, or nothing where there are more than `N`.
    pub fn of(items: &[T], fill: T) -> Option<Self>
        ensures { MatchOption result (N < length items.now) (λ s. (listed s ≡ items.now) × (length items.now ≤ N)) }
    {
        let len = items.len();
        if len > N {
            return None;
        }
        let mut all = [fill; N];
        all[..len].copy_from_slice(items);
        Some(Short { items: all, len })
    }

    /// The items as a slice.
    pub fn as_slice(&self) -> &[T]
        ensures value { result.now ≡ listed self.now }
        ensures bound { length result.now ≤ N }
    {
        &self.items[..self.len]
    }

    /// Replaces the item at a place; nothing changes past the end.
    pub fn set(&mut self, place: usize, item: T)
        ensures { listed self.new ≡ slice_set (listed self.old) place item }
    {
        set_in(&mut self.items[..self.len], place, item);
    }

    /// One more item, or nothing where there are `N` already.
    pub fn push(&mut self, item: T) -> Option<()>
        ensures room { is_some result ≡ nat_lt (length (listed self.old)) N }
        ensures items { listed self.new ≡ (if is_some result then listed self.old ++ item ∷ [] else listed self.old) }
    {
        if self.len == N {
            return None;
        }
        self.items[self.len] = item;
        self.len += 1;
        Some(())
    }
}
