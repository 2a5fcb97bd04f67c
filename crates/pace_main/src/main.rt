// Some five million picks on three fixed lanes, a ring of two, a pipeline of sixteen, an arithmetic loop: in runs, and in drives; in runs a message
// between two processes, one that sends and one that receives, in turn; and in drives two that wait for each other beside a clock. An argument names one
// of the four, `run`, `drive`, `message` or `stuck`, by its first letter, for a count of the instructions that a pick takes, or a message; without one all
// are made. Prints how many picks moved.
#![tactic(auto)]

use lane::Lane;
use network::Network;
use std::env::Env;
use std::rt::Files;

const OUT: i32 = 1;

// Processes 0, 1, .. in turn.
fn round_robin(processes: usize) -> [u8; 4096] {
    let mut picks = [0; 4096];
    for (k, pick) in picks.iter_mut().enumerate() {
        *pick = u8::try_from(k % processes.max(1)).unwrap_or(0);
    }
    picks
}

// The picks as a drive, which picks in turn by itself.
fn drive(lane: Lane, cells: &mut [i32], _: &[u8]) -> Lane {
    drives::drive(lane, cells, 4096).lane
}

fn run(lane: Lane, cells: &mut [i32], picks: &[u8]) -> Lane {
    runs::run(lane, cells, picks).lane
}

// How many picks of a lane moved.
fn moves(lane: &Lane) -> u64 {
    let mut sum: u64 = 0;
    for p in 0..16 {
        sum = sum.wrapping_add(lane.processes[p].moves);
    }
    sum
}

fn report(name: &[u8], moved: u64) {
    io::write_all(OUT, name);
    io::write_all(OUT, b": ");
    io::print_decimal(OUT, moved);
    io::write_all(OUT, b" moves\n");
}

// 407 times 4,096 picks, as the lap makes them.
fn pace<F: Fn(Lane, &mut [i32], &[u8]) -> Lane>(name: &[u8], file: &[u8], lap: F)
    requires { F.IsAlwaysCallable lap }
{
    if let Ok(net) = lane_reader::read(file) {
        let mut cells = [0; 8192];
        let picks = round_robin(net.processes);
        let mut lane = lane_sound::fresh(net);
        for _ in 0..407 {
            lane = lap(lane, &mut cells, &picks);
        }
        report(name, moves(&lane));
    }
}

// The three lanes, one after the other.
fn paces<F: Fn(Lane, &mut [i32], &[u8]) -> Lane>(rt: &impl Files, lap: F)
    requires { F.IsAlwaysCallable lap }
{
    let mut file = [0; 1024];
    files::load(rt, b"ring.bin", &mut file);
    pace(b"ring", &file, &lap);
    files::load(rt, b"pipeline.bin", &mut file);
    pace(b"pipeline", &file, &lap);
    files::load(rt, b"arithmetic.bin", &mut file);
    pace(b"arithmetic", &file, &lap);
}

// 255 sends and a jump back in process 0, 255 receives and a jump back in process 1: a run of 4,096 picks passes on 8 times 255 messages.
fn messages(rt: &impl Files) {
    let mut file = [0; 3072];
    files::load(rt, b"message.bin", &mut file);
    pace(b"message", &file, run);
}

// 407 drives of 4,096 picks, each from the fresh lane.
fn fresh_laps(net: Network, cells: &mut [i32]) -> u64 {
    let mut sum: u64 = 0;
    for _ in 0..407 {
        let driven = drives::drive(lane_sound::fresh(net), cells, 4096);
        sum = sum.wrapping_add(moves(&driven.lane));
    }
    sum
}

// Process 0 is a clock, which jumps to itself for ever. 1 and 2 each send 100 messages to the other, then receive 100 and jump back, over channels of 1 at
// first: after each of rounds 1 to 197 of a drive they wait for each other in a ring, and one of the two channels grows, while the clock moves.
fn stuck(rt: &impl Files) {
    let mut file = [0; 2560];
    files::load(rt, b"stuck.bin", &mut file);
    if let Ok(net) = lane_reader::read(&file) {
        let mut cells = [0; 8192];
        report(b"stuck", fresh_laps(net, &mut cells));
    }
}

fn main(rt: HostRuntime) {
    let mut word = [0u8; 8];
    let _ = rt.arg(1, &mut word);
    let what = word[0];
    if what == 0 || what == b'r' {
        paces(&rt, run);
    }
    if what == 0 || what == b'd' {
        paces(&rt, drive);
    }
    if what == 0 || what == b'm' {
        messages(&rt);
    }
    if what == 0 || what == b's' {
        stuck(&rt);
    }
}
