use flat::store::FlatShelf;
use flat::store::opening::Unopened;
use std::io;

/// The memory that a refused opening hands back, or that of no shelf.
pub fn handed_back(
    rt: &HostRuntime,
    opened: Result<FlatShelf, Unopened>,
) -> io::Result<Vec<Option<u64>>> {
    let Err(Unopened { fault, cells }) = opened else {
        return Ok(Vec::new(rt.alloc()));
    };
    println!(rt;
        "not opened: {}, {} cells handed back",
        fault.number(),
        cells.len()
    )?;
    Ok(cells)
}
