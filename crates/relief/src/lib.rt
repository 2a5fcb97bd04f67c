// Relief: the ring that is relieved, and the channel that grows.
#![tactic(auto)]

ghost use Rattle.std.specs.Prelude.{◌≡◌, ◌++◌, ◌≤◌, ◌<◌, List, ℕ, MatchResult, length, take, drop};
ghost use Rattle.base.specs.declared.Refusal.TheVariants.{Buffer};
ghost use Rattle.rings.specs.Arrays.{found_of};
ghost use Rattle.relief.specs.Relief.{Enlargeable, told, relief, found_in, grown, settled, relieve_of};

use base::Refusal;
use lane::{Answered, Lane, SoundLane};
use rings::{Ring, Unrelieved};
use waits::Waits;

// A ring was found and its channel enlarged: the ring's length, whose processes stand in the lent buffer, and the channel.
#[derive(Clone, Copy, PartialEq, Eq)]
pub struct Enlargement {
    pub length: usize,
    pub channel: usize,
}

// The ring of a lane that is to be relieved, by which relief is settled.
fn ring_in(sound: &SoundLane) -> Result<Ring, Unrelieved>
    ensures found { found_of result ≡ found_in sound.now.lane }
    ensures settles { (buffer : List ℕ) → relieve_of sound.now.lane buffer ≡ settled (found_of result) sound.now.lane buffer }
{
    let mut waits = Waits::default();
    waits::waits_in(sound, &mut waits);
    rings::search(
        &waits.points,
        &waits.full,
        &waits.channel,
        sound.lane.network.processes,
    )
}

// The processes of a ring into the front of a buffer, if that has room for them.
fn write(ring: &Ring, buffer: &mut [u8]) -> Result<(), Refusal>
    ensures { MatchResult result
        (λ u. (ring.now.length ≤ length buffer.old) × (buffer.new ≡ take ring.now.length ring.now.members ++ drop ring.now.length buffer.old))
        (λ r. (r ≡ Buffer) × (length buffer.old < ring.now.length) × (buffer.new ≡ buffer.old)) }
{
    if buffer.len() < ring.length {
        return Err(Refusal::Buffer);
    }
    buffer[..ring.length].copy_from_slice(&ring.members[..ring.length]);
    Ok(())
}

// Channel c grows by one, which is one more accepted call.
#[tactic(auto, using(crate::proofs::Steps::grows_low, crate::proofs::Steps::grown_stays))]
fn grow(sound: &mut SoundLane, c: usize)
    requires { Enlargeable sound.old.lane c }
    ensures { sound.new.lane ≡ grown c sound.old.lane }
{
    sound.lane.channels[c] = sound.lane.channels[c].enlarge();
    lane_parts::count(&mut sound.lane);
}

// The relief of a sound lane: the channel of the first ring that has a full wait below 256 grows by one, the ring's processes go into the front of the lent
// buffer, and one more accepted call is counted. Refused in the order 13 or 14, 15. Public for `schedule`, whose callers, the run, the driver and the bench,
// have tested once that the lane is sound.
#[tactic(auto, using(crate::proofs::Steps::grows))]
pub fn relieve_in(sound: &mut SoundLane, ring: &mut [u8]) -> Result<Enlargement, Refusal>
    ensures answered { relief (told result) sound.new.lane ring.new ≡ relieve_of sound.old.lane ring.old }
    ensures same_network { sound.new.lane.network ≡ sound.old.lane.network }
{
    let found = ring_in(sound)?;
    write(&found, ring)?;
    grow(sound, found.channel);
    Ok(Enlargement {
        length: found.length,
        channel: found.channel,
    })
}

// The relief of a lane. Refused in the order 16, 13 or 14, 15.
#[tactic(auto, using(crate::proofs::Steps::unsound_relief))]
pub fn relieve(lane: Lane, ring: &mut [u8]) -> Answered<Enlargement>
    ensures { relief (told result.answer) result.lane ring.new ≡ relieve_of lane ring.old }
{
    match lane_sound::tested(lane) {
        Ok(mut sound) => {
            let answer = relieve_in(&mut sound, ring);
            Answered {
                lane: sound.lane,
                answer,
            }
        }
        Err(refusal) => Answered {
            lane,
            answer: Err(refusal),
        },
    }
}
