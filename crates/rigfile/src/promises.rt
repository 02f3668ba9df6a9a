//! What writing and reading promise together. Each function's contract is a theorem about the contracts of the two; none
//! does anything.
ghost use Rattle.std.specs.List.{AllByRecursion};
ghost use Rattle.format.specs.Files.{Eight};
ghost use Rattle.rig.specs.Rigs.{contents};
ghost use Rattle.rigfile.specs.Promises.{ReadsBack, WritesBack};

use lists::names::Name;
use rig::frame::Rig;

/// Names have eight bytes, which their type says.
fn names_have_eight_bytes(names: &[Name])
    ensures { AllByRecursion Eight names.now }
{}

/// What is written of a rig reads back as that rig, into a table as long.
pub fn what_is_written_reads_back(rig: &Rig)
    ensures { ReadsBack (contents rig.now) }
{
    names_have_eight_bytes(rig.names());
}

/// What is read is written back byte for byte.
pub fn what_is_read_is_written_back()
    ensures { WritesBack }
{}
