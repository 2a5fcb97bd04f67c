// The inputs of a bench: fed until they are full or spent, the spent ones closed.
#![tactic(auto)]

ghost use Rattle.std.specs.Prelude.{◌≡◌, ℤ, List, ◌<◌, get_or};
ghost use Rattle.network.specs.Rules.{sender_of, outside};
ghost use Rattle.lane.specs.State.{world, channel_of};
ghost use Rattle.lane.specs.Calls.{receiver_ended};
ghost use Rattle.bench_rules.specs.Input.{records, channel_at, value_at, left_from, left_at};
ghost use Rattle.outer_ends.specs.Outer.{Outer};
ghost use Rattle.bench_rules.specs.Feeding.{feeding, fed, feeds, inputs};
ghost use Rattle.bench_feeds.specs.Idle.{idle_at};

use bench_rules::Ends;
use lane::{Lane, SoundLane};
use lane_parts::ended_at;
use lent_calls::{close_at, feed_at};

// The channel of record i. Public for the bench, which looks at the records before it plays.
pub fn channel_at(input: &[u8], i: usize) -> usize
    requires { i < records input.now }
    ensures { result ≡ channel_at input.now i }
{
    usize::from(input[5 * i])
}

// The value of record i.
fn value_at(input: &[u8], i: usize) -> i32
    requires { i < records input.now }
    ensures { result ≡ value_at input.now i }
{
    let k = 5 * i;
    i32::from_be_bytes([input[k + 1], input[k + 2], input[k + 3], input[k + 4]])
}

// Channel c, which comes from outside: feeds from record `from` on until one is refused; when all is fed, a closing. The next record.
fn fill_in(
    sound: &mut SoundLane,
    cells: &mut [i32; 8192],
    input: &[u8],
    c: usize,
    from: usize,
) -> usize
    requires { (c < sound.old.lane.network.channels) × (sender_of sound.old.lane.network c ≡ outside) }
    ensures { (feeding c (left_from input.now c from) (world sound.old.lane cells.old) ≡ fed (left_from input.now c result) (world sound.new.lane cells.new))
        × (sound.new.lane.network ≡ sound.old.lane.network) }
{
    let records = input.len() / 5;
    for i in from..records {
        if channel_at(input, i) == c && feed_at(sound, cells, c, value_at(input, i)).is_err() {
            return i;
        }
    }
    let _ = close_at(sound, c);
    records
}

// Nothing can be fed or closed at channel c now: it is closed, or full with a value left, which is that of the next record.
#[tactic(auto, unfolding(crate::specs::Idle::idle_at))]
fn idle(lane: &Lane, input: &[u8], c: usize, next: usize) -> bool
    requires { c < 32 }
    ensures { (cells : List ℤ) → result ≡ idle_at (channel_of lane.now c) (receiver_ended c (world lane.now cells)) input.now c next }
{
    let channel = lane.channels[c];
    channel.closed
        || !ended_at(lane, lane.network.receiver[c])
            && channel.held == channel.capacity
            && next < input.len() / 5
            && channel_at(input, next) == c
}

// Each input in turn; the channels inside are passed over: `outer` lists those from outside. The list spares them: a `for` over all channels was tried, and
// costs some 3 instructions for each. Public for the bench, which knows the list.
pub fn feed_all(
    sound: &mut SoundLane,
    cells: &mut [i32; 8192],
    input: &[u8],
    next: &mut [usize; 32],
    outer: &Ends,
)
    requires { Outer sound.old.lane.network.sender sound.old.lane.network.channels outer.now.first outer.now.after }
    ensures { (inputs (left_at input.now next.new) (world sound.new.lane cells.new) ≡ feeds (inputs (left_at input.now next.old) (world sound.old.lane cells.old)))
        × (sound.new.lane.network ≡ sound.old.lane.network) }
{
    let channels = sound.lane.network.channels;
    let mut c = outer.first;
    while c < channels {
        let from = next[c];
        if !idle(&sound.lane, input, c, from) {
            next[c] = fill_in(sound, cells, input, c, from);
        }
        c = usize::from(outer.after[c]);
    }
}
