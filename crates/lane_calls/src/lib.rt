// The calls on a lane by value: a pick of a process; feed, close and take at a channel, from outside. A call works on a copy that is known to be sound, and
// stores it once it is accepted: so a refused one hands the lane back as it was (`pick_refused`, `feed_refused`, `close_refused` and `take_refused` of crate
// `lane`).
#![tactic(auto)]

ghost use Rattle.std.specs.Prelude.{◌≡◌, List, ℤ};
ghost use Rattle.lane.specs.State.{world};
ghost use Rattle.lane.specs.Calls.{called, pick_of, pick_told, feed_of, close_of, feed_told, take_of, take_told};

use base::Refusal;
use lane::{Answered, Lane, PickAnswer};

// One instruction of process p.
pub fn pick(mut lane: Lane, cells: &mut [i32], p: usize) -> Answered<PickAnswer>
    ensures { called (pick_told result.answer) (world result.lane cells.new) ≡ pick_of p (world lane cells.old) }
{
    let answer = pick_in(&mut lane, cells, p);
    Answered { lane, answer }
}

// A message from outside into channel c.
pub fn feed(mut lane: Lane, cells: &mut [i32], c: usize, v: i32) -> Answered<()>
    ensures { called (feed_told result.answer) (world result.lane cells.new) ≡ feed_of c v (world lane cells.old) }
{
    let answer = feed_in(&mut lane, cells, c, v);
    Answered { lane, answer }
}

// Channel c closed from outside. No cells are lent, so that their number is not tested.
pub fn close(mut lane: Lane, c: usize) -> Answered<()>
    ensures { (cells : List ℤ) → called (feed_told result.answer) (world result.lane cells) ≡ close_of c (world lane cells) }
{
    let answer = close_in(&mut lane, c);
    Answered { lane, answer }
}

// The oldest message of channel c, or none, the end, to the outside.
pub fn take(mut lane: Lane, cells: &[i32], c: usize) -> Answered<Option<i32>>
    ensures { called (take_told result.answer) (world result.lane cells.now) ≡ take_of c (world lane cells.now) }
{
    let answer = take_in(&mut lane, cells, c);
    Answered { lane, answer }
}

// ---- how a pick is made: its tests, then the pick
#[tactic(auto, unfolding(lane::specs::Calls::pick_of))]
fn pick_in(lane: &mut Lane, cells: &mut [i32], p: usize) -> Result<PickAnswer, Refusal>
    ensures { called (pick_told result) (world lane.new cells.new) ≡ pick_of p (world lane.old cells.old) }
{
    match cells.as_mut_array::<8192>() {
        Some(cells) => pick_with(lane, cells, p),
        None => Err(Refusal::Buffer),
    }
}

// The same, with as many cells as a lane has.
#[tactic(auto, unfolding(lane::specs::Calls::pick_of))]
fn pick_with(lane: &mut Lane, cells: &mut [i32; 8192], p: usize) -> Result<PickAnswer, Refusal>
    ensures { called (pick_told result) (world lane.new cells.new) ≡ pick_of p (world lane.old cells.old) }
{
    let mut picked = lane_sound::tested(*lane)?;
    if picked.lane.network.processes <= p {
        return Err(Refusal::Absent);
    }
    let answer = lent_picks::pick_one(&mut picked, cells, p);
    *lane = picked.lane;
    Ok(answer)
}

// ---- how a feed and a closing are
#[tactic(auto, unfolding(lane::specs::Calls::feed_of))]
fn feed_in(lane: &mut Lane, cells: &mut [i32], c: usize, v: i32) -> Result<(), Refusal>
    ensures { called (feed_told result) (world lane.new cells.new) ≡ feed_of c v (world lane.old cells.old) }
{
    match cells.as_mut_array::<8192>() {
        Some(cells) => feed_into(lane, cells, c, v),
        None => Err(Refusal::Buffer),
    }
}

// The same, with as many cells as a lane has.
#[tactic(auto, unfolding(lane::specs::Calls::feed_of))]
fn feed_into(lane: &mut Lane, cells: &mut [i32; 8192], c: usize, v: i32) -> Result<(), Refusal>
    ensures { called (feed_told result) (world lane.new cells.new) ≡ feed_of c v (world lane.old cells.old) }
{
    let mut fed = lane_sound::tested(*lane)?;
    call_parts::outer(&fed, &lane.network.sender, c)?;
    lent_calls::feed_at(&mut fed, cells, c, v)?;
    *lane = fed.lane;
    Ok(())
}

#[tactic(auto, unfolding(lane::specs::Calls::close_of))]
fn close_in(lane: &mut Lane, c: usize) -> Result<(), Refusal>
    ensures { (cells : List ℤ) → called (feed_told result) (world lane.new cells) ≡ close_of c (world lane.old cells) }
{
    let mut closed = lane_sound::tested(*lane)?;
    call_parts::outer(&closed, &lane.network.sender, c)?;
    lent_calls::close_at(&mut closed, c)?;
    *lane = closed.lane;
    Ok(())
}

// ---- how a take is
#[tactic(auto, unfolding(lane::specs::Calls::take_of))]
fn take_in(lane: &mut Lane, cells: &[i32], c: usize) -> Result<Option<i32>, Refusal>
    ensures { called (take_told result) (world lane.new cells.now) ≡ take_of c (world lane.old cells.now) }
{
    match cells.as_array::<8192>() {
        Some(cells) => take_from(lane, cells, c),
        None => Err(Refusal::Buffer),
    }
}

// The same, with as many cells as a lane has.
#[tactic(auto, unfolding(lane::specs::Calls::take_of))]
fn take_from(lane: &mut Lane, cells: &[i32; 8192], c: usize) -> Result<Option<i32>, Refusal>
    ensures { called (take_told result) (world lane.new cells.now) ≡ take_of c (world lane.old cells.now) }
{
    let mut left = lane_sound::tested(*lane)?;
    call_parts::outer(&left, &lane.network.receiver, c)?;
    let taken = lent_calls::take_at(&mut left, cells, c)?;
    *lane = left.lane;
    Ok(taken)
}
