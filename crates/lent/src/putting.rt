ghost use Rattle.std.specs.Prelude.{◌<◌, ◌≤◌, length, slice_index};
ghost use Rattle.build.specs.Builds.{Ready, Legal, Made};
ghost use Rattle.memo.specs.Results.{Knows};
ghost use Rattle.puts.specs.Puts as puts;

use build::make::{make, spread};
use build::reach::{node_at, raise};
use memo::results::{recall, remember};
use nodes::edge::{Edge, NEVER};
use nodes::node::Node;
use nodes::remembered::{Key, Operation, Remembered};

/// The edge whose chart gives a scene what the chart of `e` gives once the device is at the setting, or none where no
/// slot is free for one of its parts.
#[cycle(putting)]
pub(crate) fn put(
    nodes: &mut [Option<Node>],
    memo: &mut [Option<Remembered>],
    settings: &[u8],
    level: usize,
    device: u8,
    setting: u8,
    e: Edge,
) -> Option<Edge>
    requires above { level ≤ device }
    requires depth { device < length settings.now }
    requires setting { setting < slice_index settings.now device }
    requires ready { Ready nodes.old settings.now }
    requires knows { Knows nodes.old settings.now memo.old }
    requires legal { Legal nodes.old settings.now level e }
    ensures made { Made nodes.old nodes.new settings.now level (puts.goal nodes.old settings.now level device setting e) result }
    ensures knows { Knows nodes.new settings.now memo.new }
{
    let Some(w) = e.weight else {
        return Some(e);
    };
    if level == usize::from(device) {
        let node = node_at(nodes, e.child);
        let there = raise(node.edges[usize::from(setting)], w);
        return spread(nodes, settings, level, there);
    }
    let rest = put_below(nodes, memo, settings, level, device, setting, e.child)?;
    Some(raise(rest, w))
}

/// The edge for one at 0 that leads to a node above the device, which is looked up, or built and then remembered; none
/// where no slot is free for one of its parts.
#[cycle(putting)]
fn put_below(
    nodes: &mut [Option<Node>],
    memo: &mut [Option<Remembered>],
    settings: &[u8],
    level: usize,
    device: u8,
    setting: u8,
    child: u16,
) -> Option<Edge>
    requires above { level < device }
    requires depth { device < length settings.now }
    requires setting { setting < slice_index settings.now device }
    requires ready { Ready nodes.old settings.now }
    requires knows { Knows nodes.old settings.now memo.old }
    requires legal { Legal nodes.old settings.now level (puts.at_zero child) }
    ensures made { Made nodes.old nodes.new settings.now level (puts.goal nodes.old settings.now level device setting (puts.at_zero child)) result }
    ensures knows { Knows nodes.new settings.now memo.new }
{
    let edge = Edge {
        weight: Some(0),
        child,
    };
    let key = Key {
        operation: Operation::Put(device, setting),
        // below the device, which is a u8
        level: level as u8,
        left: edge,
        right: edge,
    };
    if let Some(known) = recall(memo, &key) {
        return Some(known);
    }
    let node = node_at(nodes, child);
    let count = usize::from(settings[level]);
    // By a loop: `array::try_from_fn` says nothing of the slots that its calls leave.
    let mut kids = [NEVER; 8];
    for (i, kid) in node.edges[..count].iter().enumerate() {
        kids[i] = put(nodes, memo, settings, level + 1, device, setting, *kid)?;
    }
    let result = make(nodes, settings, level, kids)?;
    remember(memo, Remembered { key, result });
    Some(result)
}
