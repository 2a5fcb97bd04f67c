// The tests 8 and 9 of a call at a channel, from outside. Those before are of the cells (15) and `lane_sound::tested` (16).
#![tactic(auto)]

ghost use Rattle.std.specs.Prelude.{◌≡◌, ◌<◌, OnOk};
ghost use Rattle.call_parts.specs.Tests.{outer};

use base::Refusal;
use lane::SoundLane;

// Channel c is there, and its end in `ends`, the senders or the receivers of the lane, is outside. Public for the calls.
pub fn outer(sound: &SoundLane, ends: &[u8; 32], c: usize) -> Result<(), Refusal>
    ensures tested { result ≡ outer c sound.now.lane.network.channels ends.now }
    ensures there { OnOk result (c < sound.now.lane.network.channels) }
{
    if sound.lane.network.channels <= c {
        return Err(Refusal::Absent);
    }
    if ends[c] != 255 {
        return Err(Refusal::Inside);
    }
    Ok(())
}
