ghost use Rattle.std.specs.Prelude.{◌≡◌, ◌+◌, ◌<◌, ◌≤◌, length, Some, slice_set};
ghost use Rattle.table.specs.Tables.{slot, Table, Kept, Empty};
ghost use Rattle.table.specs.Finds.{FindsIn, Finds, Open, Interned};

use crate::entry::Entry;
use crate::found::Found;

/// What a slot holds; one that is not there holds nothing.
pub fn taken<E: Copy>(slots: &[Option<E>], i: usize) -> Option<E>
    ensures { result ≡ slot slots.now i }
{
    slots.get(i).copied().flatten()
}

/// What slot `i` alone answers a search for the key of `e`; none where an entry with another key takes it.
fn met<E: Entry>(slots: &[Option<E>], e: &E, i: usize) -> Option<Found>
    requires within { i < length slots.now }
    ensures { FindsIn E.alike slots.now e.now i (i + 1) result }
{
    match &slots[i] {
        None => Some(Found::Free(i)),
        Some(x) => x.same_key(e).then_some(Found::At(i)),
    }
}

/// Looks for the entry with the key of `e`, slot by slot up to a free one; none where others take all these slots.
fn find_in<E: Entry>(slots: &[Option<E>], e: &E, from: usize, to: usize) -> Option<Found>
    requires within { to ≤ length slots.now }
    ensures { FindsIn E.alike slots.now e.now from to result }
{
    (from..to).find_map(|i| met(slots, e, i))
}

// From here on clauses say that the slots are a table: by a rule of the project they are lent as a slice, and no type says it of one.
/// Looks for the entry with the key of `e`, slot by slot from its start, round the slice.
pub fn find<E: Entry>(slots: &[Option<E>], e: &E) -> Found
    requires { Table E.alike E.initial slots.now }
    ensures { Finds E.alike E.initial slots.now e.now result }
{
    if slots.is_empty() {
        return Found::Full;
    }
    let start = e.start(slots.len());
    if let Some(found) = find_in(slots, e, start, slots.len()) {
        return found;
    }
    find_in(slots, e, 0, start).unwrap_or(Found::Full)
}

/// Puts an entry into the free slot that a search for it found.
pub fn place<E: Entry>(slots: &mut [Option<E>], i: usize, e: E)
    requires open { Open E.alike E.initial slots.old e i }
    requires table { Table E.alike E.initial slots.old }
    ensures after { slots.new ≡ slice_set slots.old i (Some e) }
    ensures table { Table E.alike E.initial slots.new }
{
    slots[i] = Some(e);
}

/// Makes every slot free.
pub fn clear<E: Entry>(slots: &mut [Option<E>])
    ensures empty { Empty slots.new }
    ensures table { Table E.alike E.initial slots.new }
{
    slots.fill(None);
}

/// The slot of the entry with the key of `e`, which is placed where there is none; none where no slot is free.
pub fn intern<E: Entry>(slots: &mut [Option<E>], e: E) -> Option<usize>
    requires { Table E.alike E.initial slots.old }
    ensures table { Table E.alike E.initial slots.new }
    ensures kept { Kept slots.old slots.new }
    ensures interned { Interned E.alike slots.old slots.new e result }
{
    // A `match`: three cases with three answers, and the second writes before it answers.
    match find(slots, &e) {
        Found::At(i) => Some(i),
        Found::Free(i) => {
            place(slots, i, e);
            Some(i)
        }
        Found::Full => None,
    }
}
