ghost use Rattle.std.specs.Prelude.{IfOk};
ghost use Rattle.rig.specs.Rigs.{contents};
ghost use Rattle.diagram.specs.Means.{means};
ghost use Rattle.show.specs.Shows.{Played};
ghost use Rattle.showrun.specs.Playing.{opening};

use crate::cues::Call;
use crate::evening::*;
use rig::frame::Rig;
use show::play::show;
use std::alloc::Global;

/// Opens the rig of the evening, and makes the calls on it, one after another.
pub(crate) fn play_evening(heap: Global, calls: &mut [Call]) -> anyhow::Result<Rig>
    ensures played { IfOk result (λ rig. Played means opening calls.old calls.new (contents rig)) }
{
    let slots = vec![in heap; None; SLOTS]?;
    let shown = show(&SETTINGS, &NAMES, &SCENE, slots, calls);
    Ok(shown.map_err(|refused| refused.fault)?)
}
