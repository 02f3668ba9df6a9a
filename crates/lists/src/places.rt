//! Writing at a place of a slice.
ghost use Rattle.std.specs.Prelude.{◌≡◌, slice_set};

/// Replaces the item at a place; nothing changes past the end.
pub fn set_in<T: Copy>(items: &mut [T], place: usize, item: T)
    ensures { items.new ≡ slice_set items.old place item }
{
    // By index: after a write through `get_mut` a proof knows no element of a slice.
    if place < items.len() {
        items[place] = item;
    }
}
