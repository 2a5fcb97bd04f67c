// Who waits for whom: what each process of a sound lane waits for, and the process that it points to.
#![tactic(auto)]

ghost use Rattle.std.specs.Prelude.{◌≡◌, ◌<◌};
ghost use Rattle.waits.specs.Parts.{points_of, full_of, channel_of, wait_by, AreWaits, wants_room, some_wants_room};

use lane::SoundLane;
use process::Condition;

// What a process would wait for if picked: nothing, a message, or room; with the channel, the process at its other end, 255 for the outside, and the
// capacity of a channel that is full.
#[derive(Clone, Copy, PartialEq, Eq)]
pub enum Wait {
    Free,
    Empty {
        points: u8,
        channel: u8,
    },
    Full {
        points: u8,
        channel: u8,
        capacity: u16,
    },
}

impl Wait {
    // The process that is pointed to, 255 for none.
    pub fn points(self) -> u8
        ensures { result ≡ points_of self }
    {
        match self {
            Wait::Free => 255,
            Wait::Empty { points, .. } => points,
            Wait::Full { points, .. } => points,
        }
    }

    // The capacity of the channel of a full wait, 0 for none.
    pub fn full(self) -> u16
        ensures { result ≡ full_of self }
    {
        match self {
            Wait::Full { capacity, .. } => capacity,
            _ => 0,
        }
    }

    // The channel, 0 for none.
    pub fn channel(self) -> u8
        ensures { result ≡ channel_of self }
    {
        match self {
            Wait::Free => 0,
            Wait::Empty { channel, .. } => channel,
            Wait::Full { channel, .. } => channel,
        }
    }
}

// The waits of the processes, as the search for a ring takes them: where each points, 255 for nowhere; the capacity of its full wait, 0 for none; its
// channel. The default is a desk to lend to `waits_in`, which says nothing yet.
#[derive(Clone, Copy, Default)]
pub struct Waits {
    pub points: [u8; 16],
    pub full: [u16; 16],
    pub channel: [u8; 16],
}

// What process p waits for, by its instruction: nothing is picked. A receive waits at an empty open channel, a send at a full open one; the receiver of
// a channel that is full has not ended, since one that has holds nothing. Public for the bench, which prints how each process stands.
#[tactic(auto, using(crate::proofs::Looks::ended_waits, crate::proofs::Looks::closed_waits, crate::proofs::Looks::empty_waits, crate::proofs::Looks::held_waits, crate::proofs::Looks::full_waits, crate::proofs::Looks::room_waits, crate::proofs::Looks::other_waits))]
pub fn wait_at(sound: &SoundLane, p: usize) -> Wait
    requires { p < sound.now.lane.network.processes }
    ensures { result ≡ wait_by sound.now.lane p }
{
    let lane = &sound.lane;
    let instruction = lane_parts::instruction_of(sound, p);
    let c = lane_parts::channel_of(instruction);
    let channel = lane.channels[c];
    let receiver = lane.network.receiver[c];
    if lane.processes[p].condition != Condition::Live || channel.closed {
        return Wait::Free;
    }
    match instruction.op {
        11 if channel.held == 0 => Wait::Empty {
            points: lane.network.sender[c],
            channel: c as u8,
        },
        12 if channel.held == channel.capacity => Wait::Full {
            points: receiver,
            channel: c as u8,
            capacity: channel.capacity,
        },
        _ => Wait::Free,
    }
}

// The waits of all processes, into a desk that is lent, whatever stood in it: handed back it would be copied. Public for relief.
pub fn waits_in(sound: &SoundLane, waits: &mut Waits)
    ensures { AreWaits sound.now.lane waits.new.points waits.new.full waits.new.channel }
{
    waits.points = [255; 16];
    waits.full = [0; 16];
    waits.channel = [0; 16];
    for p in 0..sound.lane.network.processes {
        let wait = wait_at(sound, p);
        // What stands there already is that of a process that is free.
        if let Wait::Free = wait {
            continue;
        }
        waits.points[p] = wait.points();
        waits.channel[p] = wait.channel();
        let Wait::Full { capacity, .. } = wait else {
            continue;
        };
        waits.full[p] = capacity;
    }
}

// Whether process p waits for room on a channel to a process. Only one that stands at a send can, so its opcode is looked at first.
#[tactic(auto, using(crate::proofs::Looks::points_at, crate::proofs::Looks::full_at, crate::proofs::Looks::no_send))]
fn wants_room_at(sound: &SoundLane, p: usize) -> bool
    requires { p < sound.now.lane.network.processes }
    ensures { result ≡ wants_room sound.now.lane p }
{
    if lane_parts::instruction_of(sound, p).op != 12 {
        return false;
    }
    let wait = wait_at(sound, p);
    wait.full() != 0 && wait.points() != 255
}

// Whether some process does: where none does, no ring can be relieved, and none is searched for. Public for the relief inside a run or a drive
// (`schedule`).
#[tactic(auto, using(crate::proofs::Looks::rooms_found, crate::proofs::Looks::rooms_on, crate::proofs::Looks::rooms_over))]
pub fn some_wants_room(sound: &SoundLane) -> bool
    ensures { result ≡ some_wants_room sound.now.lane 0 sound.now.lane.network.processes }
{
    for q in 0..sound.lane.network.processes {
        if wants_room_at(sound, q) {
            return true;
        }
    }
    false
}
