// A burst of values for one channel, from outside (document 02, request 1): single feeds one after the other, until one is refused, behind the tests of
// one.
#![tactic(auto)]

ghost use Rattle.std.specs.Prelude.{◌≡◌, List, ◌<◌, ℤ, length, IfOk, IfErr, Err};
ghost use Rattle.base.specs.Refusals.{number_of};
ghost use Rattle.network.specs.Rules.{sender_of, outside};
ghost use Rattle.lane.specs.State.{world};
ghost use Rattle.lane.specs.Calls.{feed_told, refused};
ghost use Rattle.bursts.specs.Bursts.{delivery, feeds_of, burst_of};

use base::Refusal;
use lane::{Lane, SoundLane};

// What a burst leaves: how many values went in; and the refusal of the first that did not, if it stopped early.
#[derive(Drop)]
pub struct Delivered {
    pub lane: Lane,
    pub fed: usize,
    pub answer: Result<(), Refusal>,
}

// The tests of a burst at channel c, from 16 on: the lane, sound, where the channel comes from outside, or how every burst there is refused.
#[tactic(auto, using(crate::proofs::Ways::burst_tested))]
fn opened(lane: Lane, c: usize) -> Result<SoundLane, Refusal>
    ensures open { IfOk result (λ s. (s.lane ≡ lane) × (c < lane.network.channels) × (sender_of lane.network c ≡ outside)) }
    ensures refused { IfErr result (λ r. (vs cells : List ℤ) → length cells ≡ 8192 → burst_of c vs (world lane cells) ≡ delivery 0 (refused (number_of r)) (world lane cells)) }
{
    let sound = lane_sound::tested(lane)?;
    call_parts::outer(&sound, &sound.lane.network.sender, c)?;
    Ok(sound)
}

// Values into channel c, which is there and comes from outside, until one is refused.
#[tactic(auto, using(crate::proofs::Pours::all_in, crate::proofs::Pours::one_in, crate::proofs::Pours::next_refused))]
fn pour(mut sound: SoundLane, cells: &mut [i32; 8192], c: usize, values: &[i32]) -> Delivered
    requires { (c < sound.lane.network.channels) × (sender_of sound.lane.network c ≡ outside) }
    ensures { delivery result.fed (feed_told result.answer) (world result.lane cells.new) ≡ feeds_of c values.now (world sound.lane cells.old) }
{
    let gone = lane_parts::ended_at(&sound.lane, sound.lane.network.receiver[c]);
    let mut fed = 0;
    for &v in values {
        if let Err(r) = lent_calls::feed_to(&mut sound, cells, c, gone, v) {
            return Delivered {
                lane: sound.lane,
                fed,
                answer: Err(r),
            };
        }
        fed += 1;
    }
    Delivered {
        lane: sound.lane,
        fed,
        answer: Ok(()),
    }
}

// A test refuses the burst: no value went in, and the lane is as it came.
fn none_fed(lane: Lane, r: Refusal) -> Delivered
    ensures { result ≡ record { lane = lane; fed = 0; answer = Err r } }
{
    Delivered {
        lane,
        fed: 0,
        answer: Err(r),
    }
}

// Values from outside into channel c, until one is refused.
#[tactic(auto, using(crate::proofs::Ways::burst_tested, crate::proofs::Ways::burst_open))]
pub fn burst(lane: Lane, cells: &mut [i32], c: usize, values: &[i32]) -> Delivered
    ensures { delivery result.fed (feed_told result.answer) (world result.lane cells.new) ≡ burst_of c values.now (world lane cells.old) }
{
    let Some(cells) = cells.as_mut_array::<8192>() else {
        return none_fed(lane, Refusal::Buffer);
    };
    match opened(lane, c) {
        Ok(sound) => pour(sound, cells, c, values),
        Err(r) => none_fed(lane, r),
    }
}
