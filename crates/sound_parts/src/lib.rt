// When a lane is sound: the tests of its parts. They are public for `lane_sound::sound` alone, which tests the network first: at most 16 processes, at most
// 32 channels.
#![tactic(auto)]

ghost use Rattle.std.specs.Prelude.{◌≡◌, Bool, cond, not, ◌&&◌, ◌||◌, ℕ, ◌-◌, ◌*◌, ◌≤◌, false, eqb, pos, get_or};
ghost use Rattle.base.specs.Lists.{table};
ghost use Rattle.base.specs.Tests.{first_bad, is_good};
ghost use Rattle.process.specs.Want.{is_null};
ghost use Rattle.network.specs.Rules.{sender_of, receiver_of};
ghost use Rattle.lane.specs.State.{standing_of, is_ended, ended_at, channel_of};
ghost use Rattle.lane.specs.Sound.{position_sound, channel_sound, standing_zero, channel_zero};

use lane::{Lane, Standing};
use process::{Channel, Condition};

// A process as at the start: at its first instruction, live, no move made. Field by field, as the definitions `standing_zero` and `channel_zero` are.
fn standing_zero(standing: &Standing) -> bool
    ensures { result ≡ standing_zero standing.now }
{
    standing.position == 0 && standing.condition == Condition::Live && standing.moves == 0
}

// A channel of which all is zero, and open.
fn channel_zero(channel: &Channel) -> bool
    ensures { result ≡ channel_zero channel.now }
{
    channel.capacity == 0
        && channel.oldest == 0
        && channel.held == 0
        && channel.peak == 0
        && !channel.closed
}

// What is kept of an end: every binary digit of a number of two bytes where its process has ended, none where that is live.
fn mark(condition: Condition) -> u16
    ensures { result ≡ cond (is_ended condition) 65535 0 }
{
    if condition == Condition::Live {
        0
    } else {
        u16::MAX
    }
}

// Whether all positions are below the counts.
pub fn positions(lane: &Lane) -> bool
    requires { lane.now.network.processes ≤ 16 }
    ensures { result ≡ is_good (first_bad (position_sound lane.now) 0 lane.now.network.processes) }
{
    let mut wrong: u8 = 0;
    for p in 0..lane.network.processes {
        wrong |= u8::from(lane.network.count[p] <= lane.processes[p].position);
    }
    wrong == 0
}

// Which processes have ended, by the number that an end of a channel has: the outside, 255, never has.
pub fn marks(lane: &Lane) -> [u16; 256]
    ensures { result ≡ table 256 (λ e. cond (ended_at lane.now e) 65535 0) }
{
    let mut marks = [0; 256];
    // A slice: of an array of structs behind a reference the check is not told the length.
    let processes: &[Standing] = &lane.processes;
    for (p, standing) in processes.iter().enumerate() {
        marks[p] = mark(standing.condition);
    }
    marks
}

// Whether channels in use are within their limits, whatever their ends. The numbers of a channel are laid over those of the others: a capacity of 0 or above
// 256 leaves a digit from 8 to 15 of its sum, and so does an oldest above 255 as it stands; more held than at the most, and that above the capacity, leave
// digit 16 of theirs.
pub fn limits(lane: &Lane) -> bool
    requires { lane.now.network.channels ≤ 32 }
    ensures { result ≡ is_good (first_bad (λ c. channel_sound false false (channel_of lane.now c)) 0 lane.now.network.channels) }
{
    let mut rooms: u32 = 0;
    let mut oldests: u16 = 0;
    let mut fillings: u32 = 0;
    for c in 0..lane.network.channels {
        let channel = lane.channels[c];
        let capacity = channel.capacity as u32;
        let peak = channel.peak as u32;
        rooms |= capacity + 0xFFFF;
        oldests |= channel.oldest;
        fillings |= ((channel.held as u32) + 0xFFFF - peak) | (peak + 0xFFFF - capacity);
    }
    (rooms | oldests as u32) & 0xFF00 == 0 && fillings & 0x10000 == 0
}

// What the marks of its ends leave of a channel: nothing exactly where a sender that has ended has closed it and a receiver that has holds nothing.
fn left(from: u16, to: u16, channel: &Channel) -> u16
    ensures { (s t : Bool) → from ≡ cond s 65535 0 → to ≡ cond t 65535 0 → eqb result 0 ≡ ((not s || channel.now.closed) && (not t || eqb channel.now.held 0)) }
{
    (from & u16::from(!channel.closed)) | (to & channel.held)
}

// Whether channels in use whose sender has ended are closed, and those whose receiver has ended hold nothing; the marks tell which have ended.
pub fn ends(lane: &Lane, marks: &[u16; 256]) -> bool
    requires { lane.now.network.channels ≤ 32 }
    ensures { (ended : ℕ → Bool) → marks.now ≡ table 256 (λ e. cond (ended e) 65535 0) → result ≡ is_good (first_bad (λ c. (not (ended (sender_of lane.now.network c)) || (channel_of lane.now c).closed) && (not (ended (receiver_of lane.now.network c)) || eqb (channel_of lane.now c).held 0)) 0 lane.now.network.channels) }
{
    let mut wrong: u16 = 0;
    for c in 0..lane.network.channels {
        let from = marks[lane.network.sender[c] as usize];
        let to = marks[lane.network.receiver[c] as usize];
        wrong |= left(from, to, &lane.channels[c]);
    }
    wrong == 0
}

// The first process not in use that is not zero.
pub fn unused_standings(lane: &Lane) -> Result<(), usize>
    ensures { result ≡ first_bad (λ p. standing_zero (standing_of lane.now p)) lane.now.network.processes (16 - lane.now.network.processes) }
{
    for p in lane.network.processes..16 {
        if !standing_zero(&lane.processes[p]) {
            return Err(p);
        }
    }
    Ok(())
}

// The first register of a process not in use that is not zero.
pub fn unused_registers(lane: &Lane) -> Result<(), usize>
    requires { lane.now.network.processes ≤ 16 }
    ensures { result ≡ first_bad (λ r. is_null (get_or lane.now.registers r (pos 0))) (8 * lane.now.network.processes) (128 - 8 * lane.now.network.processes) }
{
    for r in 8 * lane.network.processes..128 {
        if lane.registers[r] != 0 {
            return Err(r);
        }
    }
    Ok(())
}

// The first channel not in use that is not zero.
pub fn unused_channels(lane: &Lane) -> Result<(), usize>
    ensures { result ≡ first_bad (λ c. channel_zero (channel_of lane.now c)) lane.now.network.channels (32 - lane.now.network.channels) }
{
    for c in lane.network.channels..32 {
        if !channel_zero(&lane.channels[c]) {
            return Err(c);
        }
    }
    Ok(())
}
