// Rounds of any picks, with a relief after each but the last.
ghost use Rattle.std.specs.Prelude.{◌≡◌, ℕ, ◌+◌, ◌≤◌, ◌<◌, length, get_or};
ghost use Rattle.lane.specs.State.{world};
ghost use Rattle.schedule.specs.Running.{running, begun};
ghost use Rattle.drives.specs.Series.{round_of, series, pick_rounds};

use lane::SoundLane;

// How rounds of picks ended: the moves of the last one, how many more might have followed, and how many reliefs enlarged.
#[derive(Clone, Copy, PartialEq, Eq)]
pub struct Rounds {
    pub moved: u64,
    pub left: u64,
    pub enlarged: u64,
}

// A round of any picks: how many moved.
fn round_of(sound: &mut SoundLane, cells: &mut [i32; 8192], picks: &[u8]) -> u64
    requires { (k : ℕ) → k < length picks.now → get_or picks.now k 0 < sound.old.lane.network.processes }
    ensures network { sound.new.lane.network ≡ sound.old.lane.network }
    ensures round { (m g : ℕ) → round_of picks.now (running (world sound.old.lane cells.old) m g) ≡ running (world sound.new.lane cells.new) result g }
{
    let mut moved = 0;
    for &p in picks {
        moved += u64::from(lent_picks::moves(sound, cells, p as usize));
    }
    moved
}

// Rounds of picks: one, and so many more at most, each after a relief, as long as the round before had a move or its relief enlarged. The relief after
// the last round is the caller's. Public for a driver with a list of its own, which knows that each pick names a process.
pub fn rounds_in(sound: &mut SoundLane, cells: &mut [i32; 8192], picks: &[u8], again: u64) -> Rounds
    requires { (k : ℕ) → k < length picks.now → get_or picks.now k 0 < sound.old.lane.network.processes }
    ensures few { result.enlarged + result.left ≤ again }
    ensures rounds { pick_rounds again picks.now (begun (world sound.old.lane cells.old)) ≡ series (running (world sound.new.lane cells.new) result.moved result.enlarged) result.left }
    ensures network { sound.new.lane.network ≡ sound.old.lane.network }
{
    let mut enlarged = 0;
    for made in 0..again {
        let moved = round_of(sound, cells, picks);
        let grew = schedule::ease_in(sound);
        if moved == 0 && !grew {
            return Rounds {
                moved,
                left: again - made,
                enlarged,
            };
        }
        enlarged += u64::from(grew);
    }
    let moved = round_of(sound, cells, picks);
    Rounds {
        moved,
        left: 0,
        enlarged,
    }
}
