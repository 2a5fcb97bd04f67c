// The outputs of a bench: emptied into lines of its listing.
#![tactic(auto)]

ghost use Rattle.std.specs.Prelude.{◌≡◌, false, not, suc, ◌&&◌, ◌||◌, ◌<◌, ltb, get_or};
ghost use Rattle.network.specs.Rules.{receiver_of, outside};
ghost use Rattle.outer_ends.specs.Outer.{Outer};
ghost use Rattle.lane.specs.State.{world, channel_of};
ghost use Rattle.bench_rules.specs.Emptying.{outputs, takes_at, empties};
ghost use Rattle.bench_rules.specs.Holding.{Room, Done};

use bench_rules::Ends;
use lane::{Lane, SoundLane};
use lent_calls::take_at;
use listing::Listing;

// Channel c, which goes outside: all that it holds, and one take more, which gives the end or is refused.
fn drain(
    sound: &mut SoundLane,
    cells: &[i32; 8192],
    given: &mut [bool; 32],
    c: usize,
    listing: &mut Listing,
)
    requires there { c < sound.old.lane.network.channels }
    requires outer { receiver_of sound.old.lane.network c ≡ outside }
    requires room { Room (takes_at c (suc (channel_of sound.old.lane c).held) (outputs (world sound.old.lane cells.now) given.old)) listing.old }
    ensures done { Done (takes_at c (suc (channel_of sound.old.lane c).held) (outputs (world sound.old.lane cells.now) given.old)) listing.old (outputs (world sound.new.lane cells.now) given.new) listing.new }
    ensures network { sound.new.lane.network ≡ sound.old.lane.network }
{
    // Until there is nothing more: how often is not known before.
    loop {
        match take_at(sound, cells, c) {
            Ok(Some(v)) => listing.output(c, v),
            Ok(None) => {
                given[c] = true;
                listing.end(c);
                return;
            }
            Err(_) => return,
        }
    }
}

// Channel c, which goes outside, has something to give: its end was not given, and it holds a message or is closed.
fn gives(lane: &Lane, given: &[bool; 32], c: usize) -> bool
    requires { c < 32 }
    ensures { result ≡ (not (get_or given.now c false) && (ltb 0 (channel_of lane.now c).held || (channel_of lane.now c).closed)) }
{
    let channel = lane.channels[c];
    !given[c] && (0 < channel.held || channel.closed)
}

// Each output in turn; the channels inside are passed over, since `outer` lists those to the outside, and one that is open and empty has nothing to give.
// Public for the bench, which knows the list, and has shown that there is room.
pub fn take_all(
    sound: &mut SoundLane,
    cells: &[i32; 8192],
    given: &mut [bool; 32],
    outer: &Ends,
    listing: &mut Listing,
)
    requires listed { Outer sound.old.lane.network.receiver sound.old.lane.network.channels outer.now.first outer.now.after }
    requires room { Room (empties (outputs (world sound.old.lane cells.now) given.old)) listing.old }
    ensures done { Done (empties (outputs (world sound.old.lane cells.now) given.old)) listing.old (outputs (world sound.new.lane cells.now) given.new) listing.new }
    ensures network { sound.new.lane.network ≡ sound.old.lane.network }
{
    let channels = sound.lane.network.channels;
    let mut c = outer.first;
    while c < channels {
        if gives(&sound.lane, given, c) {
            drain(sound, cells, given, c, listing);
        }
        c = usize::from(outer.after[c]);
    }
}
