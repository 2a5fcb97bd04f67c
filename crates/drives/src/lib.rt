// The driver: rounds of picks, and a relief after each round.
#![tactic(auto)]

pub mod series;

ghost use Rattle.std.specs.Prelude.{◌≡◌, ℕ, List, ℤ, ◌*◌, ◌≤◌};
ghost use Rattle.base.specs.Refusals.{number_of};
ghost use Rattle.lane.specs.State.{world};
ghost use Rattle.relief.specs.Relief as relief;
ghost use Rattle.schedule.specs.Running.{running, begun};
ghost use Rattle.drives.specs.Drive.{round, ends, by_relief, rounds, end_of, told, result as outcome, done, drive_of};
ghost use Rattle.drives.specs.Parts.{Ruled};

use base::Refusal;
use lane::{Answered, Lane, SoundLane};
use std::ops::ControlFlow;

// How a drive ends: nothing can move and no ring waits for room; such rings wait at channels of 256 alone; the picks are spent.
#[derive(Clone, Copy, PartialEq, Eq)]
pub enum End {
    Settled,
    Ceiling,
    Spent,
}

// What a drive came to: how it ended, the picks and enlargements made.
#[derive(Clone, Copy, PartialEq, Eq)]
pub struct Driven {
    pub end: End,
    pub picks: u64,
    pub enlarged: u64,
}

// One round: each process is picked in turn. How many moved.
fn round(sound: &mut SoundLane, cells: &mut [i32; 8192]) -> u64
    ensures moved { result ≤ 16 }
    ensures network { sound.new.lane.network ≡ sound.old.lane.network }
    ensures round { (m g : ℕ) → round (running (world sound.old.lane cells.old) m g) ≡ running (world sound.new.lane cells.new) result g }
{
    let mut moved = 0;
    for p in 0..sound.lane.network.processes {
        moved += u64::from(lent_picks::moves(sound, cells, p));
    }
    moved
}

// How a refused relief ends the drive: 14 as ceiling, 13 as settled. There is no other: the lane is sound, and there is room for any ring.
fn end_by(refusal: Refusal) -> End
    ensures { ends (end_of result) ≡ by_relief (relief.refused (number_of refusal)) }
{
    match refusal {
        Refusal::Ceiling => End::Ceiling,
        _ => End::Settled,
    }
}

// The relief after a round that moved so many processes, and the rule: only after one with no move does it end the drive. Elsewhere why nothing was
// enlarged is not asked, which costs less.
fn relieved_after(sound: &mut SoundLane, moved: u64) -> ControlFlow<End, bool>
    ensures network { sound.new.lane.network ≡ sound.old.lane.network }
    ensures rule { (cells : List ℤ) → Ruled moved (world sound.old.lane cells) result (world sound.new.lane cells) }
{
    if moved != 0 {
        return ControlFlow::Continue(schedule::ease_in(sound));
    }
    match schedule::relieve_in(sound) {
        Ok(_) => ControlFlow::Continue(true),
        Err(refusal) => ControlFlow::Break(end_by(refusal)),
    }
}

// So many rounds at most, each followed by its relief.
fn rounds(sound: &mut SoundLane, cells: &mut [i32; 8192], most: u64) -> Driven
    requires { sound.old.lane.network.processes * most ≤ 18446744073709551615 }
    ensures { outcome (told (Ok result)) (world sound.new.lane cells.new) ≡ done sound.old.lane.network.processes (rounds most 0 (begun (world sound.old.lane cells.old))) }
{
    let processes = sound.lane.network.processes as u64;
    let mut enlarged = 0;
    for made in 0..most {
        let moved = round(sound, cells);
        match relieved_after(sound, moved) {
            ControlFlow::Continue(grew) => enlarged += u64::from(grew),
            ControlFlow::Break(end) => {
                return Driven {
                    end,
                    picks: processes * (made + 1),
                    enlarged,
                };
            }
        }
    }
    Driven {
        end: End::Spent,
        picks: processes * most,
        enlarged,
    }
}

// The same of a lane that is lent, and its tests: 15, 16.
fn drive_in(lane: &mut Lane, cells: &mut [i32], budget: u64) -> Result<Driven, Refusal>
    ensures { outcome (told result) (world lane.new cells.new) ≡ drive_of budget (world lane.old cells.old) }
{
    let Some(cells) = cells.as_mut_array::<8192>() else {
        return Err(Refusal::Buffer);
    };
    let mut sound = lane_sound::tested(*lane)?;
    let most = budget / sound.lane.network.processes as u64;
    let driven = rounds(&mut sound, cells, most);
    *lane = sound.lane;
    Ok(driven)
}

// Rounds of picks with a number of picks, and a relief after each round, until the lane settles, its rings are at the ceiling,
// or the picks are spent.
pub fn drive(mut lane: Lane, cells: &mut [i32], budget: u64) -> Answered<Driven>
    ensures { outcome (told result.answer) (world result.lane cells.new) ≡ drive_of budget (world lane cells.old) }
{
    let answer = drive_in(&mut lane, cells, budget);
    Answered { lane, answer }
}
