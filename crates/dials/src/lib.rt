//! Charts that depend on one device, built from the last device up.
#![tactic(auto)]

ghost use Rattle.std.specs.Prelude.{◌≡◌, ◌-◌, ◌<◌, ◌≤◌, false, length, take, drop, slice_index};
ghost use Rattle.model.specs.Charts.{dialled, late};
ghost use Rattle.model.specs.Lists.{some};
ghost use Rattle.store.specs.Stores.{chart};
ghost use Rattle.build.specs.Builds.{Legal};
ghost use Rattle.build.specs.Grew.{nodes_in, shape_in, MadeIn};
ghost use Rattle.dials.specs.Flats.{flat, lifted};

use build::node_store::NodeStore;
use nodes::edge::{Edge, NEVER};

/// The edge of a level whose chart gives a scene what the chart of `e`, an edge of the level `from`, gives it, or none
/// where no slot is free for a part of it.
// That a level is in the shape is asked, here and wherever one is handed in: no type says that a number is below the
// length of another value.
fn lift(store: &mut NodeStore, level: usize, from: usize, e: Edge) -> Option<Edge>
    requires above { level ≤ from }
    requires depth { from ≤ length (shape_in store.old) }
    requires legal { Legal (nodes_in store.old) (shape_in store.old) from e }
    ensures { MadeIn store.old store.new level (lifted (shape_in store.old) level (from - level) (chart (nodes_in store.old) (drop from (shape_in store.old)) e)) result }
{
    if level == from {
        return Some(e);
    }
    let kid = lift(store, level + 1, from, e)?;
    store.spread(level, kid)
}

/// The edge whose chart has one entry throughout, or none where no slot is free for a part of it.
pub fn constant(store: &mut NodeStore, level: usize, entry: Option<u64>) -> Option<Edge>
    requires depth { level ≤ length (shape_in store.old) }
    requires timely { late entry ≡ false }
    ensures { MadeIn store.old store.new level (flat (drop level (shape_in store.old)) entry) result }
{
    let leaf = Edge {
        weight: entry,
        child: 0,
    };
    let devices = store.devices();
    lift(store, level, devices, leaf)
}

/// The edge of a level whose chart gives each setting of its device an entry, or none where no slot is free for a part of
/// it.
fn fan(store: &mut NodeStore, level: usize, entries: &[Option<u64>; 8]) -> Option<Edge>
    requires depth { level < length (shape_in store.old) }
    requires timely { some late (take (slice_index (shape_in store.old) level) entries.now) ≡ false }
    ensures { MadeIn store.old store.new level (dialled (drop level (shape_in store.old)) 0 entries.now) result }
{
    let count = store.count(level);
    // By a loop: `array::try_from_fn` says nothing of the store that its calls leave.
    let mut kids = [NEVER; 8];
    for (i, entry) in entries[..count].iter().enumerate() {
        kids[i] = constant(store, level + 1, *entry)?;
    }
    store.make(level, kids)
}

/// The edge whose chart gives a scene the entry of the device's setting, or none where no slot is free for a part of it.
pub fn dial(
    store: &mut NodeStore,
    level: usize,
    device: usize,
    entries: &[Option<u64>; 8],
) -> Option<Edge>
    requires above { level ≤ device }
    requires depth { device < length (shape_in store.old) }
    requires timely { some late (take (slice_index (shape_in store.old) device) entries.now) ≡ false }
    ensures { MadeIn store.old store.new level (dialled (drop level (shape_in store.old)) (device - level) entries.now) result }
{
    let fanned = fan(store, device, entries)?;
    lift(store, level, device, fanned)
}
