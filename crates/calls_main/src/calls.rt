// The calls of a script, each with its answer printed.
use crate::answers::{print_driven, print_ran, print_relieved};
use base::Refusal;
use call_prints::shows::{print, print_bytes, print_fed, print_picked, print_taken};
use call_scripts::lines::Call;
use call_scripts::script::numbers_of;
use lane::{Answered, Lane};

// What a call by value hands back: its lane goes on in place of the one that it took.
fn kept<A>(answered: Answered<A>, lane: &mut Lane) -> Result<A, Refusal> {
    *lane = answered.lane;
    answered.answer
}

// ---- calls with a buffer, bytes or values
// Each byte of the buffer is 99 before.
fn relieve(rt: &impl Print, lane: &mut Lane, n: usize) {
    let mut buffer = [99u8; 32];
    let Some(ring) = buffer.get_mut(..n) else {
        return;
    };
    print_relieved(rt, kept(relief::relieve(*lane, ring), lane));
    print_bytes(rt, ring);
}

// The bytes stand in the line.
fn run(rt: &impl Print, lane: &mut Lane, cells: &mut [i32], line: &[u8]) {
    let mut buffer = [0u8; 256];
    let Some(bytes) = numbers_of(line, 1, &mut buffer) else {
        return;
    };
    print_ran(rt, kept(runs::run(*lane, cells, bytes), lane));
}

// The values stand in the line.
fn burst(rt: &impl Print, lane: &mut Lane, cells: &mut [i32], c: usize, line: &[u8]) {
    let mut buffer = [0i32; 512];
    let Some(values) = numbers_of(line, 2, &mut buffer) else {
        return;
    };
    let delivered = bursts::burst(*lane, cells, c, values);
    *lane = delivered.lane;
    print(rt, format_args!(" fed {}", delivered.fed));
    print_fed(rt, delivered.answer);
}

// ---- every call
pub fn called(rt: &impl Print, lane: &mut Lane, cells: &mut [i32], call: Call, line: &[u8]) {
    match call {
        Call::Pick(p) => print_picked(rt, kept(lane_calls::pick(*lane, cells, p), lane)),
        Call::Feed(c, v) => print_fed(rt, kept(lane_calls::feed(*lane, cells, c, v), lane)),
        Call::Burst(c) => burst(rt, lane, cells, c, line),
        Call::Close(c) => print_fed(rt, kept(lane_calls::close(*lane, c), lane)),
        Call::Take(c) => print_taken(rt, kept(lane_calls::take(*lane, cells, c), lane)),
        Call::LentPick(p) => print_picked(rt, in_place::pick(lane, cells, p)),
        Call::LentFeed(c, v) => print_fed(rt, in_place::feed(lane, cells, c, v)),
        Call::LentTake(c) => print_taken(rt, in_place::take(lane, cells, c)),
        Call::Relieve(n) => relieve(rt, lane, n),
        Call::Run => run(rt, lane, cells, line),
        Call::Drive(picks) => print_driven(rt, kept(drives::drive(*lane, cells, picks), lane)),
    }
}
