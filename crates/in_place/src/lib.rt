// Pick, feed and take on a lane that the host lends. Document 01: "pick, feed and take also work on a lane lent by the host and changed there".
// Each is one call by value: the lane is copied out of the reference, and the lane that comes back is stored there. So a refused call leaves it as it came
// (`pick_refused`, `feed_refused` and `take_refused` of crate `lane`).
#![tactic(auto)]

ghost use Rattle.std.specs.Prelude.{◌≡◌};
ghost use Rattle.lane.specs.State.{world};
ghost use Rattle.lane.specs.Calls.{called, pick_of, pick_told, feed_of, feed_told, take_of, take_told};

use base::Refusal;
use lane::{Lane, PickAnswer};

// One instruction of process p.
pub fn pick(lane: &mut Lane, cells: &mut [i32], p: usize) -> Result<PickAnswer, Refusal>
    ensures { called (pick_told result) (world lane.new cells.new) ≡ pick_of p (world lane.old cells.old) }
{
    let r = lane_calls::pick(*lane, cells, p);
    *lane = r.lane;
    r.answer
}

// A message from outside into channel c.
pub fn feed(lane: &mut Lane, cells: &mut [i32], c: usize, v: i32) -> Result<(), Refusal>
    ensures { called (feed_told result) (world lane.new cells.new) ≡ feed_of c v (world lane.old cells.old) }
{
    let r = lane_calls::feed(*lane, cells, c, v);
    *lane = r.lane;
    r.answer
}

// The oldest message of channel c, or none, the end, to the outside.
pub fn take(lane: &mut Lane, cells: &[i32], c: usize) -> Result<Option<i32>, Refusal>
    ensures { called (take_told result) (world lane.new cells.now) ≡ take_of c (world lane.old cells.now) }
{
    let r = lane_calls::take(*lane, cells, c);
    *lane = r.lane;
    r.answer
}
