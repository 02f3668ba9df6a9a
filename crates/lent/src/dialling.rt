ghost use Rattle.std.specs.Prelude.{◌≡◌, ◌-◌, ◌<◌, ◌≤◌, false, length, take, drop, slice_index};
ghost use Rattle.model.specs.Charts.{dialled, late};
ghost use Rattle.model.specs.Lists.{some};
ghost use Rattle.build.specs.Builds.{Ready, Made};

use crate::constants::constant;
use build::make::{make, spread};
use nodes::edge::{Edge, NEVER};
use nodes::node::Node;

/// The edge of a level whose chart gives each setting of its device an entry, or none where no slot is free for a part of
/// it.
fn fan(
    nodes: &mut [Option<Node>],
    settings: &[u8],
    level: usize,
    entries: &[Option<u64>; 8],
) -> Option<Edge>
    requires depth { level < length settings.now }
    requires ready { Ready nodes.old settings.now }
    requires timely { some late (take (slice_index settings.now level) entries.now) ≡ false }
    ensures { Made nodes.old nodes.new settings.now level (dialled (drop level settings.now) 0 entries.now) result }
{
    let count = usize::from(settings[level]);
    // By a loop: `array::try_from_fn` says nothing of the slots that its calls leave.
    let mut kids = [NEVER; 8];
    for (i, entry) in entries[..count].iter().enumerate() {
        kids[i] = constant(nodes, settings, level + 1, *entry)?;
    }
    make(nodes, settings, level, kids)
}

/// The edge whose chart gives a scene the entry of the device's setting, or none where no slot is free for a part of it.
pub(crate) fn dial(
    nodes: &mut [Option<Node>],
    settings: &[u8],
    level: usize,
    device: usize,
    entries: &[Option<u64>; 8],
) -> Option<Edge>
    requires above { level ≤ device }
    requires depth { device < length settings.now }
    requires ready { Ready nodes.old settings.now }
    requires timely { some late (take (slice_index settings.now device) entries.now) ≡ false }
    ensures { Made nodes.old nodes.new settings.now level (dialled (drop level settings.now) (device - level) entries.now) result }
{
    if level == device {
        return fan(nodes, settings, level, entries);
    }
    let kid = dial(nodes, settings, level + 1, device, entries)?;
    spread(nodes, settings, level, kid)
}
