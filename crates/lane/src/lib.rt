// A lane: a network with its state, and what the calls on it answer. The calls themselves stand in the crates above.
#![tactic(auto)]

ghost use Rattle.std.specs.Prelude.{◌≡◌, ◌≤◌, true};
ghost use Rattle.lane.specs.Sound.{sound_of};

use base::Refusal;
use network::Network;
use process::{Channel, Condition};

// A process without its registers, which lie in the lane's register file.
#[derive(Clone, Copy, PartialEq, Eq)]
pub struct Standing {
    pub position: u16,
    pub condition: Condition,
    pub moves: u64,
}

// Sixteen processes of eight registers each, thirty-two channels; `accepted` counts the accepted calls.
#[derive(Clone, Copy)]
pub struct Lane {
    pub network: Network,
    pub registers: [i32; 128],
    pub processes: [Standing; 16],
    pub channels: [Channel; 32],
    pub accepted: u64,
}

// A lane that is sound, which is tested once a call: picks, reliefs and what is made of them take no other.
#[derive(Clone, Copy)]
pub struct SoundLane {
    pub lane: Lane,
    ghost sound: { sound_of lane ≡ true },
    // Both follow from it; they stand here for the bounds of indices.
    ghost few_processes: { lane.network.processes ≤ 16 },
    ghost few_channels: { lane.network.channels ≤ 32 },
}

// What an accepted pick answers: the process moved; it waits at its channel, which is empty or full; it had ended before.
#[derive(Clone, Copy, PartialEq, Eq)]
pub enum PickAnswer {
    Moved,
    WaitingEmpty(usize),
    WaitingFull(usize),
    Ended,
}

// What a call on a lane by value hands back: the lane, and its answer or the refusal.
#[derive(Drop)]
pub struct Answered<A> {
    pub lane: Lane,
    pub answer: Result<A, Refusal>,
}
