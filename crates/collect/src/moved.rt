ghost use Rattle.table.specs.Tables.{Empty};
ghost use Rattle.collect.specs.Copies.{Noted};

/// Notes to which slot the node in a slot was copied.
// Not `lists::places::set_in`: that says what the slice is afterwards, this which notes stand, and this crate knows no lists.
pub fn note(moved: &mut [Option<u16>], i: u16, to: u16)
    ensures { Noted moved.old moved.new i to }
{
    let i = usize::from(i);
    // By index: of what is written through `get_mut` a proof knows the slice's length alone.
    if i < moved.len() {
        moved[i] = Some(to);
    }
}

/// Forgets every copy.
// Not `table::slots::clear`: that is for entries with keys, and a note has none.
pub fn forget(moved: &mut [Option<u16>])
    ensures { Empty moved.new }
{
    moved.fill(None);
}
