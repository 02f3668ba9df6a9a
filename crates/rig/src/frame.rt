ghost use Rattle.model.specs.Calls.{Lawful};
ghost use Rattle.rig.specs.Holding.{holding};

use crate::devices::Devices;
use moves::entry::Move;

/// A rig: the devices as they stand, and a table of moves. What it holds is always what its calls can leave.
// No model of its own: the promises of the crates above are stated of `contents`, and a model would change what a rig is
// in each of them.
#[derive(Drop)]
pub struct Rig {
    pub(crate) devices: Devices,
    pub(crate) slots: Vec<Option<Move>>,
    ghost lawful: { Lawful (holding devices slots) },
}
