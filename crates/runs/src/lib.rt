// A run: bytes one after the other, each a pick or, 255, a relief.
#![tactic(auto)]

ghost use Rattle.std.specs.Prelude.{◌≡◌, ℕ, ◌<◌, length, get_or, replicate};
ghost use Rattle.base.specs.Tests.{first_bad, is_good};
ghost use Rattle.lane.specs.State.{world};
ghost use Rattle.relief.specs.Relief.{relieve_of};
ghost use Rattle.schedule.specs.Running.{running, begun, has_grown};
ghost use Rattle.runs.specs.Run.{bytes_run, told, result as outcome, names, named, run_of};

use base::Refusal;
use lane::{Answered, Lane, SoundLane};

// What a run came to: how many picks moved, how many reliefs enlarged.
#[derive(Clone, Copy, PartialEq, Eq)]
pub struct Ran {
    pub moved: u64,
    pub enlarged: u64,
}

// A byte names one of so many processes, or is 255. On bytes: widened, they would cost the loop below six instructions each more.
fn names(byte: u8, processes: u8) -> bool
    ensures { result ≡ names byte processes }
{
    byte < processes || byte == 255
}

// Each byte names a process, or is 255. All are looked at, right or wrong, and what each leaves is laid over the others': the compiler can
// then look at several at once. Public for the bench, which makes the same test.
#[tactic(auto, using(flags::proofs::Clean::in_all))]
pub fn all_named(picks: &[u8], processes: u8) -> bool
    ensures { result ≡ is_good (first_bad (named picks.now processes) 0 (length picks.now)) }
{
    let mut wrong = 0u8;
    for &byte in picks {
        wrong |= base::unless(names(byte, processes));
    }
    wrong == 0
}

// The relief of a byte 255: whether it enlarged a channel. Few bytes of a run are reliefs; marked so, it leaves the loop of the picks in one piece.
#[cold]
#[inline(never)]
fn eased(sound: &mut SoundLane) -> bool
    ensures answered { result ≡ has_grown (relieve_of sound.old.lane (replicate 16 0)).answer }
    ensures left { sound.new.lane ≡ (relieve_of sound.old.lane (replicate 16 0)).lane }
    ensures same_network { sound.new.lane.network ≡ sound.old.lane.network }
{
    schedule::ease_in(sound)
}

// The bytes in turn, each a pick of a process that is there, or a relief. A function by itself: laid into its caller, the loop takes up to a third longer.
#[inline(never)]
fn bytes_in(sound: &mut SoundLane, cells: &mut [i32; 8192], picks: &[u8]) -> Ran
    requires { (k : ℕ) → k < length picks.now → (get_or picks.now k 0 ≡ 255 → ⊥) → get_or picks.now k 0 < sound.old.lane.network.processes }
    ensures { running (world sound.new.lane cells.new) result.moved result.enlarged ≡ bytes_run picks.now (begun (world sound.old.lane cells.old)) }
{
    let mut ran = Ran {
        moved: 0,
        enlarged: 0,
    };
    for &byte in picks {
        if byte == 255 {
            ran.enlarged += u64::from(eased(sound));
            continue;
        }
        ran.moved += u64::from(lent_picks::moves(sound, cells, byte as usize));
    }
    ran
}

// The same of a lane that is lent, and its tests: 15, 16, 8.
fn run_in(lane: &mut Lane, cells: &mut [i32], picks: &[u8]) -> Result<Ran, Refusal>
    ensures { outcome (told result) (world lane.new cells.new) ≡ run_of picks.now (world lane.old cells.old) }
{
    let Some(cells) = cells.as_mut_array::<8192>() else {
        return Err(Refusal::Buffer);
    };
    let mut sound = lane_sound::tested(*lane)?;
    if !all_named(picks, sound.lane.network.processes as u8) {
        return Err(Refusal::Absent);
    }
    let ran = bytes_in(&mut sound, cells, picks);
    *lane = sound.lane;
    Ok(ran)
}

// A run over given bytes: each is a pick of a process or, 255, a relief.
pub fn run(mut lane: Lane, cells: &mut [i32], picks: &[u8]) -> Answered<Ran>
    ensures { outcome (told result.answer) (world result.lane cells.new) ≡ run_of picks.now (world lane cells.old) }
{
    let answer = run_in(&mut lane, cells, picks);
    Answered { lane, answer }
}
