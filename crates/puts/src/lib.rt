//! A chart once one device is at a setting.
#![tactic(auto)]

ghost use Rattle.std.specs.Prelude.{◌<◌, ◌≤◌, length, slice_index};
ghost use Rattle.build.specs.Builds.{Legal};
ghost use Rattle.build.specs.Grew.{nodes_in, shape_in, MadeIn};
ghost use Rattle.puts.specs.Puts as puts;

use build::reach::raise;
use memo::diagrams::Diagrams;
use nodes::edge::{Edge, NEVER};
use nodes::remembered::{Key, Operation, Remembered};

/// The edge whose chart gives a scene what the chart of `e` gives once the device is at the setting, or none where no
/// slot is free for one of its parts.
#[cycle(putting)]
pub fn put(diagrams: &mut Diagrams, level: usize, device: u8, setting: u8, e: Edge) -> Option<Edge>
    requires above { level ≤ device }
    requires depth { device < length (shape_in diagrams.old.store) }
    requires setting { setting < slice_index (shape_in diagrams.old.store) device }
    requires legal { Legal (nodes_in diagrams.old.store) (shape_in diagrams.old.store) level e }
    ensures { MadeIn diagrams.old.store diagrams.new.store level (puts.goal (nodes_in diagrams.old.store) (shape_in diagrams.old.store) level device setting e) result }
{
    let Some(w) = e.weight else {
        return Some(e);
    };
    if level == usize::from(device) {
        let node = diagrams.store.node_at(e.child);
        let there = raise(node.edges[usize::from(setting)], w);
        return diagrams.spread(level, there);
    }
    let rest = put_below(diagrams, level, device, setting, e.child)?;
    Some(raise(rest, w))
}

/// The edge for one at 0 that leads to a node above the device, which is looked up, or built and then remembered; none
/// where no slot is free for one of its parts.
#[cycle(putting)]
fn put_below(
    diagrams: &mut Diagrams,
    level: usize,
    device: u8,
    setting: u8,
    child: u16,
) -> Option<Edge>
    requires above { level < device }
    requires depth { device < length (shape_in diagrams.old.store) }
    requires setting { setting < slice_index (shape_in diagrams.old.store) device }
    requires legal { Legal (nodes_in diagrams.old.store) (shape_in diagrams.old.store) level (puts.at_zero child) }
    ensures { MadeIn diagrams.old.store diagrams.new.store level (puts.goal (nodes_in diagrams.old.store) (shape_in diagrams.old.store) level device setting (puts.at_zero child)) result }
{
    let edge = Edge {
        weight: Some(0),
        child,
    };
    let key = Key {
        operation: Operation::Put(device, setting),
        // below the device, which is a u8
        level: level as u8,
        left: edge,
        right: edge,
    };
    if let Some(known) = diagrams.recall(&key) {
        return Some(known);
    }
    let node = diagrams.store.node_at(child);
    let count = diagrams.store.count(level);
    // By a loop, as for dials, copies and joins: `array::try_from_fn` says nothing of the store that its calls leave, and
    // for a function of our own a closure that calls `put` has to write out the clauses of `put` once more.
    let mut kids = [NEVER; 8];
    for (i, kid) in node.edges[..count].iter().enumerate() {
        kids[i] = put(diagrams, level + 1, device, setting, *kid)?;
    }
    let result = diagrams.make(level, kids)?;
    diagrams.remember(Remembered { key, result });
    Some(result)
}
