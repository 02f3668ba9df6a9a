use crate::diagram_shelf::DiagramShelf;
use crate::open_fault::OpenFault;
use shelf::calls::Shelf;
use shelf::fault::ShelfFault;
use std::alloc::Global;

/// What a dial of device 0 with 0 and 5 is answered, on a shelf of devices with 2, 3 and 2 settings.
fn dialled(heap: Global, slots: usize) -> Result<Result<(), ShelfFault>, OpenFault> {
    let mut shelf = DiagramShelf::open(heap, &[2, 3, 2], slots)?;
    let mut entries = [None; 8];
    entries[0] = Some(0);
    entries[1] = Some(5);
    Ok(shelf.dial(0, 0, &entries))
}

#[test]
fn three_parts_need_three_slots(rt: HostRuntime) {
    assert!(rt; dialled(rt.alloc(), 3) == Ok(Ok(())));
    assert!(rt; dialled(rt.alloc(), 2) == Ok(Err(ShelfFault::NoRoom)));
}

#[test]
fn slots_are_some_and_not_too_many(rt: HostRuntime) {
    assert!(rt; dialled(rt.alloc(), 0) == Err(OpenFault::SlotsOff));
    assert!(rt; dialled(rt.alloc(), 65_536) == Err(OpenFault::SlotsOff));
    assert!(rt; dialled(rt.alloc(), 65_535) == Ok(Ok(())));
}
