//! The file of a rig that comes in a file, as it is or after a run.
ghost use Rattle.embed.specs.Files.{Rewritten, Replayed};

use crate::performing::perform;
use crate::ran::Ran;
use crate::reading::rig_of;
use crate::unperformed::Unperformed;
use rigfile::write::write;
use std::alloc::Global;

/// Writes the file of the rig.
pub(crate) fn rewrite(heap: Global, file: &[u8], buffer: &mut [u8]) -> Result<Ran, Unperformed>
    ensures { Rewritten file.now buffer.old result buffer.new }
{
    let rig = rig_of(heap, file)?;
    let length = write(&rig, buffer)?;
    Ok(Ran { length, time: 0 })
}

/// Performs a run on the rig, and writes the file of what it leaves.
pub(crate) fn replay(
    heap: Global,
    file: &[u8],
    run: &[u8],
    buffer: &mut [u8],
) -> Result<Ran, Unperformed>
    ensures { Replayed file.now run.now buffer.old result buffer.new }
{
    let mut rig = rig_of(heap, file)?;
    let time = perform(&mut rig, run)?;
    let length = write(&rig, buffer)?;
    Ok(Ran { length, time })
}
