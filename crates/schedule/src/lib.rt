// The relief inside a run or a drive: what both share; and the count of accepted calls after so many of them.
#![tactic(auto)]

ghost use Rattle.std.specs.Prelude.{◌≡◌, ℕ, replicate};
ghost use Rattle.relief.specs.Relief.{told, relieve_of};
ghost use Rattle.schedule.specs.Running.{has_grown};
ghost use Rattle.schedule.specs.Counted.{counted_by};

use base::Refusal;
use lane::SoundLane;
use relief::Enlargement;

// The count of accepted calls after so many reliefs that enlarged: it stays at its largest.
#[tactic(auto, using(crate::proofs::Counted::counted_sum))]
pub fn count_by(enlarged: u64, accepted: u64) -> u64
    ensures { result ≡ counted_by enlarged accepted }
{
    accepted.saturating_add(enlarged)
}

// The relief of a sound lane, with a ring buffer of its own, which has room for any ring. Public for the driver and the bench, which have tested once that
// the lane is sound.
pub fn relieve_in(sound: &mut SoundLane) -> Result<Enlargement, Refusal>
    ensures answered { told result ≡ (relieve_of sound.old.lane (replicate 16 0)).answer }
    ensures left { sound.new.lane ≡ (relieve_of sound.old.lane (replicate 16 0)).lane }
    ensures same_network { sound.new.lane.network ≡ sound.old.lane.network }
{
    let mut ring = [0; 16];
    relief::relieve_in(sound, &mut ring)
}

// The same, where only whether it enlarged a channel is asked for. Where no process waits for room on a channel to a process, which costs less to see,
// nothing is searched for. Public for the run, and for the rounds of a drive, whose loops are quicker with it apart.
#[tactic(auto, using(relief::proofs::Unwanted::unwanted_relief))]
#[inline(never)]
pub fn ease_in(sound: &mut SoundLane) -> bool
    ensures answered { result ≡ has_grown (relieve_of sound.old.lane (replicate 16 0)).answer }
    ensures left { sound.new.lane ≡ (relieve_of sound.old.lane (replicate 16 0)).lane }
    ensures same_network { sound.new.lane.network ≡ sound.old.lane.network }
{
    waits::some_wants_room(sound) && relieve_in(sound).is_ok()
}
