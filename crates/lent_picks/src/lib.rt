// A pick on a lent lane: nothing of the lane is copied for it.
#![tactic(auto)]

mod finish;

ghost use Rattle.std.specs.Prelude.{◌≡◌, ◌<◌};
ghost use Rattle.lane.specs.State.{world};
ghost use Rattle.lane.specs.Calls.{called, pick_says, picked};
ghost use Rattle.lane.specs.Pick.{pick_in, step_for, has_moved};

use lane::{PickAnswer, SoundLane};
use lane_parts::{channel_of, instruction_of};
use process::Condition;

// One pick of process p. Public for the rounds, the calls and the bench, which have shown that there is such a process.
#[inline(always)]
pub fn pick_one(sound: &mut SoundLane, cells: &mut [i32; 8192], p: usize) -> PickAnswer
    requires { p < sound.old.lane.network.processes }
    ensures { called (pick_says result) (world sound.new.lane cells.new) ≡ picked p (world sound.old.lane cells.old) }
{
    let Condition::Live = sound.lane.processes[p].condition else {
        return PickAnswer::Ended;
    };
    let i = instruction_of(sound, p);
    let did = lent_steps::step(&mut sound.lane, cells, p, i);
    finish::finish(&mut sound.lane, p, did, channel_of(i))
}

// The same, where only whether the process moved is asked for.
#[inline(always)]
pub fn moves(sound: &mut SoundLane, cells: &mut [i32; 8192], p: usize) -> bool
    requires { p < sound.old.lane.network.processes }
    ensures { (world sound.new.lane cells.new ≡ pick_in p (world sound.old.lane cells.old)) × (result ≡ has_moved (step_for p (world sound.old.lane cells.old)).outcome) × (sound.new.lane.network ≡ sound.old.lane.network) }
{
    matches!(pick_one(sound, cells, p), PickAnswer::Moved)
}
