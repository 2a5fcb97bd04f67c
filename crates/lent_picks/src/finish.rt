// What is left to do after an instruction: the process moves on, or it ends and its channels are dropped. Either is a move.
ghost use Rattle.std.specs.Prelude.{◌≡◌, ◌≤◌, ◌<◌, List, ℤ};
ghost use Rattle.process.specs.Channels.{drop_one};
ghost use Rattle.lane.specs.State.{world, standing_of, put_channels};
ghost use Rattle.lane.specs.Pick.{drop_from};
ghost use Rattle.lane.specs.Calls.{pick_says};
ghost use Rattle.lent_steps.specs.Steps.{stand, finish, says};

use lane::{Lane, PickAnswer};
use process::{Channel, Condition};
use register_steps::Did;

// What process p has left to do after what its instruction did, at channel c. Public for the pick, which knows that process and channels are there.
#[inline(always)]
#[tactic(auto, unfolding(lent_steps::specs::Steps::finish))]
pub fn finish(lane: &mut Lane, p: usize, did: Did, c: usize) -> PickAnswer
    requires { (p < 16) × (lane.old.network.channels ≤ 32) × ((standing_of lane.old p).position < 1016) }
    ensures { ((cells : List ℤ) → world lane.new cells ≡ finish did p (world lane.old cells)) × (pick_says result ≡ says did c) }
{
    match did {
        Did::On => advance(lane, p, lane.processes[p].position + 1),
        Did::To(next) => advance(lane, p, next as u16),
        Did::WaitEmpty => PickAnswer::WaitingEmpty(c),
        Did::WaitFull => PickAnswer::WaitingFull(c),
        Did::Stop => end(lane, p, Condition::Stopped),
        Did::Fault => end(lane, p, Condition::Faulted),
    }
}

// ---- the process
// Process p goes to a position.
#[inline(always)]
fn advance(lane: &mut Lane, p: usize, to: u16) -> PickAnswer
    requires { p < 16 }
    ensures { (result ≡ PickAnswer.Moved) × (lane.new ≡ stand p to (standing_of lane.old p).condition lane.old) }
{
    let standing = &mut lane.processes[p];
    standing.position = to;
    standing.moves = standing.moves.saturating_add(1);
    PickAnswer::Moved
}

// Process p ends where it stands, stopped or faulted, and its channels are dropped.
#[inline(never)]
fn end(lane: &mut Lane, p: usize, condition: Condition) -> PickAnswer
    requires { (p < 16) × (lane.old.network.channels ≤ 32) }
    ensures { (result ≡ PickAnswer.Moved) × (lane.new ≡ put_channels (drop_from lane.old.network p 0 lane.old.channels) (stand p (standing_of lane.old p).position condition lane.old)) }
{
    let standing = &mut lane.processes[p];
    standing.condition = condition;
    standing.moves = standing.moves.saturating_add(1);
    drop_all(lane, p);
    PickAnswer::Moved
}

// ---- the channels of a process that ended
// A channel of which it was the sender is closed, one of which it was the receiver is emptied.
fn drop_one(sends: bool, receives: bool, mut channel: Channel) -> Channel
    ensures { result ≡ drop_one sends receives channel }
{
    if sends {
        channel = channel.close();
    }
    if receives {
        channel = channel.empty();
    }
    channel
}

// Each channel, by its sender and its receiver.
fn drop_all(lane: &mut Lane, p: usize)
    requires { lane.old.network.channels ≤ 32 }
    ensures { lane.new ≡ put_channels (drop_from lane.old.network p 0 lane.old.channels) lane.old }
{
    for c in 0..lane.network.channels {
        let sends = lane.network.sender[c] as usize == p;
        let receives = lane.network.receiver[c] as usize == p;
        lane.channels[c] = drop_one(sends, receives, lane.channels[c]);
    }
}
