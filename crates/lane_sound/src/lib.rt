// The lane at the start, and whether a lane is sound.
#![tactic(auto)]

ghost use Rattle.std.specs.Prelude.{◌≡◌, true, false, ◌&&◌, ◌≤◌, eqb, MatchResult};
ghost use Rattle.base.specs.Lists.{table};
ghost use Rattle.base.specs.declared.Refusal.TheVariants.{Unsound};
ghost use Rattle.lane.specs.State.{fresh_channel, fresh_of};
ghost use Rattle.lane.specs.Sound.{unused_standings, unused_registers, unused_channels, sound_of};

use base::Refusal;
use lane::{Lane, SoundLane, Standing};
use network::Network;
use process::{Channel, Condition};

// A channel at the start: open and empty, none held before, the oldest at place 0.
fn fresh_channel(capacity: u16) -> Channel
    ensures { result ≡ record { capacity = capacity; oldest = 0; held = 0; peak = 0; closed = false } }
{
    Channel {
        capacity,
        oldest: 0,
        held: 0,
        peak: 0,
        closed: false,
    }
}

// The channels at the start, with the file's capacities.
fn fresh_channels(network: &Network) -> [Channel; 32]
    ensures { result ≡ table 32 (fresh_channel network.now) }
{
    network.capacity.map(fresh_channel)
}

// The lane of a network at the start, of any network: of one that does not pass the file's rules it is not sound.
pub fn fresh(network: Network) -> Lane
    ensures { result ≡ fresh_of network }
{
    let channels = fresh_channels(&network);
    Lane {
        network,
        registers: [0; 128],
        processes: [Standing {
            position: 0,
            condition: Condition::Live,
            moves: 0,
        }; 16],
        channels,
        accepted: 0,
    }
}

// Entries beyond those in use are zero.
fn rest_zero(lane: &Lane) -> bool
    requires { lane.now.network.processes ≤ 16 }
    ensures { result ≡ (unused_standings lane.now && unused_registers lane.now && unused_channels lane.now) }
{
    sound_parts::unused_standings(lane).is_ok()
        && sound_parts::unused_registers(lane).is_ok()
        && sound_parts::unused_channels(lane).is_ok()
}

// All places are in use.
fn whole(network: &Network) -> bool
    ensures { result ≡ (eqb network.now.processes 16 && eqb network.now.channels 32) }
{
    network.processes == 16 && network.channels == 32
}

// Whether a lane, any value of the record, is sound. The network is tested first, so that each number read is in place. Where all places are in use none
// has to be zero.
#[tactic(auto, using(crate::proofs::Parts::few, crate::proofs::Parts::few_channels, crate::proofs::Parts::bad_network, crate::proofs::Parts::bad_positions, crate::proofs::Parts::bad_limits))]
pub fn sound(lane: &Lane) -> bool
    ensures { result ≡ sound_of lane.now }
{
    if !passing::passes(&lane.network) {
        return false;
    }
    if !sound_parts::positions(lane) {
        return false;
    }
    if !sound_parts::limits(lane) {
        return false;
    }
    if !sound_parts::ends(lane, &sound_parts::marks(lane)) {
        return false;
    }
    whole(&lane.network) || rest_zero(lane)
}

// A lane as a sound one, exactly where it is. The bench, whose lane is fresh, makes a sound one without the test.
#[tactic(auto, using(crate::proofs::Parts::sound_few, crate::proofs::Parts::sound_few_channels))]
pub fn tested(lane: Lane) -> Result<SoundLane, Refusal>
    ensures { MatchResult result (λ s. (s.lane ≡ lane) × (sound_of lane ≡ true)) (λ r. (r ≡ Unsound) × (sound_of lane ≡ false)) }
{
    if sound(&lane) {
        Ok(SoundLane { lane })
    } else {
        Err(Refusal::Unsound)
    }
}
