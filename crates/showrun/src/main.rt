//! Plays the worked evening as one show, and prints what each call answered.
#![tactic(auto)]

mod cues;
mod evening;
mod playing;
mod print;

use cues::cues;
use playing::play_evening;
use print::answered;

fn main(rt: HostRuntime) -> anyhow::Result<()> {
    let mut cues = cues(rt.alloc())?;
    play_evening(rt.alloc(), cues.as_mut_slice())?;
    for cue in cues.as_slice() {
        answered(&rt, cue)?;
    }
    Ok(())
}
