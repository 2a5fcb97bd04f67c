// Feed, close and take at one channel of a lane. The crates above have made the tests before (15, 16, 8, 9); an accepted call is counted here. `feed_in`,
// `close_in` and `take_in` ask of the lane just what the channel's operations need, and leave it sound where it was. Those by which the calls and the bench go,
// `feed_at`, `feed_to`, `close_at` and `take_at`, are the same on a lane that is known to be sound.
#![tactic(auto)]

ghost use Rattle.std.specs.Prelude.{◌≡◌, ◌<◌, ◌≤◌, List, ℤ, true};
ghost use Rattle.lane.specs.State.{world, channel_of};
ghost use Rattle.lane.specs.Sound.{sound_of};
ghost use Rattle.lane.specs.Calls.{called, feed_told, take_told, receiver_ended, taken};
ghost use Rattle.lent_calls.specs.OneChannel.{fed_or_not, closed_or_not};

use base::Refusal;
use lane::{Lane, SoundLane};
use lane_parts::{count, ended_at, slot};

// ---- on any lane. Public for a caller that knows of the lane what is required and no more; those on a sound lane, below, are made of these.
// A message from outside into channel c; one whose receiver has ended is taken and not stored.
pub fn feed_in(lane: &mut Lane, cells: &mut [i32; 8192], c: usize, v: i32) -> Result<(), Refusal>
    requires low { c < 32 }
    requires within { (channel_of lane.old c).held ≤ (channel_of lane.old c).capacity }
    ensures told { called (feed_told result) (world lane.new cells.new) ≡ fed_or_not c v (world lane.old cells.old) }
    ensures still { (channel_of lane.new c).held ≤ (channel_of lane.new c).capacity }
    ensures network { lane.new.network ≡ lane.old.network }
    ensures sound { sound_of lane.old ≡ true → c < lane.old.network.channels → sound_of lane.new ≡ true }
{
    let gone = ended_at(lane, lane.network.receiver[c]);
    feed_known(lane, cells, c, gone, v)
}

// The same where it is known whether the receiver has ended (`gone`).
#[tactic(auto, using(crate::proofs::Stays::put_stays, crate::proofs::Stays::counted_stays))]
fn feed_known(
    lane: &mut Lane,
    cells: &mut [i32; 8192],
    c: usize,
    gone: bool,
    v: i32,
) -> Result<(), Refusal>
    requires low { c < 32 }
    requires within { (channel_of lane.old c).held ≤ (channel_of lane.old c).capacity }
    requires known { gone ≡ receiver_ended c (world lane.old cells.old) }
    ensures told { called (feed_told result) (world lane.new cells.new) ≡ fed_or_not c v (world lane.old cells.old) }
    ensures still { (channel_of lane.new c).held ≤ (channel_of lane.new c).capacity }
    ensures network { lane.new.network ≡ lane.old.network }
    ensures processes { lane.new.processes ≡ lane.old.processes }
    ensures sound { sound_of lane.old ≡ true → c < lane.old.network.channels → sound_of lane.new ≡ true }
{
    let channel = lane.channels[c];
    if channel.closed {
        return Err(Refusal::Closed);
    }
    if !gone {
        if channel.held == channel.capacity {
            return Err(Refusal::Full);
        }
        cells[slot(c, channel, channel.held)] = v;
        lane.channels[c] = channel.put();
    }
    count(lane);
    Ok(())
}

// Channel c closed from outside.
#[tactic(auto, using(crate::proofs::Stays::close_stays))]
pub fn close_in(lane: &mut Lane, c: usize) -> Result<(), Refusal>
    requires { c < 32 }
    ensures told { (cells : List ℤ) → called (feed_told result) (world lane.new cells) ≡ closed_or_not c (world lane.old cells) }
    ensures network { lane.new.network ≡ lane.old.network }
    ensures sound { sound_of lane.old ≡ true → c < lane.old.network.channels → sound_of lane.new ≡ true }
{
    let was = lane.channels[c];
    if was.closed {
        return Err(Refusal::Closed);
    }
    lane.channels[c] = was.close();
    count(lane);
    Ok(())
}

// The oldest message of channel c, or none, the end, to the outside.
#[tactic(auto, using(crate::proofs::Stays::get_stays, crate::proofs::Stays::counted_stays))]
pub fn take_in(lane: &mut Lane, cells: &[i32; 8192], c: usize) -> Result<Option<i32>, Refusal>
    requires low { c < 32 }
    requires place { (channel_of lane.old c).oldest < 256 }
    ensures told { called (take_told result) (world lane.new cells.now) ≡ taken c (world lane.old cells.now) }
    ensures network { lane.new.network ≡ lane.old.network }
    ensures sound { sound_of lane.old ≡ true → c < lane.old.network.channels → sound_of lane.new ≡ true }
{
    let channel = lane.channels[c];
    if channel.held == 0 {
        if !channel.closed {
            return Err(Refusal::Empty);
        }
        count(lane);
        return Ok(None);
    }
    lane.channels[c] = channel.get();
    count(lane);
    Ok(Some(cells[slot(c, channel, 0)]))
}

// ---- on a sound lane, where there is such a channel. Public for the calls and the bench, which know both.
#[tactic(auto, using(crate::proofs::Stays::within))]
pub fn feed_at(
    sound: &mut SoundLane,
    cells: &mut [i32; 8192],
    c: usize,
    v: i32,
) -> Result<(), Refusal>
    requires { c < sound.old.lane.network.channels }
    ensures { (called (feed_told result) (world sound.new.lane cells.new) ≡ fed_or_not c v (world sound.old.lane cells.old))
        × (sound.new.lane.network ≡ sound.old.lane.network) }
{
    feed_in(&mut sound.lane, cells, c, v)
}

// The same where it is known whether the receiver has ended (`gone`): a burst asks once for all its values, and a value then costs it less.
#[tactic(auto, using(crate::proofs::Stays::within))]
pub fn feed_to(
    sound: &mut SoundLane,
    cells: &mut [i32; 8192],
    c: usize,
    gone: bool,
    v: i32,
) -> Result<(), Refusal>
    requires { (c < sound.old.lane.network.channels) × (gone ≡ receiver_ended c (world sound.old.lane cells.old)) }
    ensures { (called (feed_told result) (world sound.new.lane cells.new) ≡ fed_or_not c v (world sound.old.lane cells.old))
        × (sound.new.lane.network ≡ sound.old.lane.network) × (sound.new.lane.processes ≡ sound.old.lane.processes) }
{
    feed_known(&mut sound.lane, cells, c, gone, v)
}

pub fn close_at(sound: &mut SoundLane, c: usize) -> Result<(), Refusal>
    requires { c < sound.old.lane.network.channels }
    ensures { ((cells : List ℤ) → called (feed_told result) (world sound.new.lane cells) ≡ closed_or_not c (world sound.old.lane cells))
        × (sound.new.lane.network ≡ sound.old.lane.network) }
{
    close_in(&mut sound.lane, c)
}

#[tactic(auto, using(crate::proofs::Stays::place))]
pub fn take_at(sound: &mut SoundLane, cells: &[i32; 8192], c: usize) -> Result<Option<i32>, Refusal>
    requires { c < sound.old.lane.network.channels }
    ensures { (called (take_told result) (world sound.new.lane cells.now) ≡ taken c (world sound.old.lane cells.now))
        × (sound.new.lane.network ≡ sound.old.lane.network) }
{
    take_in(&mut sound.lane, cells, c)
}
