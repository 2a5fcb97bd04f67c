// What the crates above read in a lane, and its count of accepted calls.
#![tactic(auto)]

ghost use Rattle.std.specs.Prelude.{◌≡◌, ◌+◌, ◌<◌};
ghost use Rattle.process.specs.Channels.{slot};
ghost use Rattle.lane.specs.State.{ended_at, count};
ghost use Rattle.lane.specs.Pick.{channel_in, instruction_for};

use lane::{Lane, SoundLane};
use network::Instruction;
use process::{Channel, Condition};

// The channel of an instruction.
pub fn channel_of(i: Instruction) -> usize
    ensures { (result ≡ channel_in i) × (result < 32) }
{
    (i.b % 32) as usize
}

// The cell of message i of channel c. Public for the crates above, which know that the channel is there.
pub fn slot(c: usize, channel: Channel, i: u16) -> usize
    requires { c < 32 }
    ensures { (result ≡ slot c channel i) × (result < 8192) }
{
    256 * c + ((channel.oldest as usize) + (i as usize)) % 256
}

// The process at an end of a channel has ended; the outside never has.
pub fn ended_at(lane: &Lane, e: u8) -> bool
    ensures { result ≡ ended_at lane.now e }
{
    match lane.processes.get(e as usize) {
        Some(standing) => standing.condition != Condition::Live,
        None => false,
    }
}

// The instruction at which process p stands. Public for the crates above, which know that the process is there.
#[tactic(auto, using(crate::proofs::Next::place_of, crate::proofs::Next::stands))]
#[inline(always)]
pub fn instruction_of(sound: &SoundLane, p: usize) -> Instruction
    requires { p < sound.now.lane.network.processes }
    ensures { result ≡ instruction_for p sound.now.lane }
{
    let place = (sound.lane.network.first[p] as usize)
        + (sound.lane.processes[p].position as usize);
    network::fetch(&sound.lane.network.code, place)
}

// One more accepted call; the count stays at its largest.
pub fn count(lane: &mut Lane)
    ensures { lane.new ≡ count lane.old }
{
    lane.accepted = lane.accepted.saturating_add(1);
}
