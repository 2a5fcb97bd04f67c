// What is measured: the block check, reading a file and the soundness test on the largest lane, the test on that lane with all processes ended and on a
// little lane, bursts of 256 values and of none, and a bench of 3,000 pick bytes, each many times. An argument names one of them, `check`, `read`, `sound`,
// `ended`, `little`, `values`, `tests` or `bench`, by its first letter, for a count of its instructions; without one all are made. Prints what they answered.
#![tactic(auto)]

use lane::{Lane, Standing};
use process::{Channel, Condition};
use std::env::Env;
use std::rt::Files;

const OUT: i32 = 1;

fn check_of(bytes: &[u8; 4608]) -> u64 {
    u64::from(block_check::check(bytes))
}

// The check of some bytes, 100 times, each time with another first byte.
fn checks(file: [u8; 4608]) -> u64 {
    let mut bytes = file;
    let mut sum: u64 = 0;
    for k in 0..100 {
        bytes[0] = k;
        sum = sum.wrapping_add(check_of(&bytes));
    }
    sum
}

// How many of 100 readings are accepted.
fn readings(file: [u8; 4608]) -> u64 {
    let mut count: u64 = 0;
    for _ in 0..100 {
        count = count.wrapping_add(u64::from(lane_reader::read(&file).is_ok()));
    }
    count
}

// The fresh lane of a file.
fn lane_of(file: &[u8]) -> Lane {
    lane_sound::fresh(lane_reader::read(file).unwrap_or(lane_reader::no_network()))
}

// A lane of 16 processes and 32 channels with all processes ended, and so with all channels empty, and closed.
fn ended(lane: Lane) -> Lane {
    let mut l = lane;
    let processes = [Standing {
        position: 0,
        condition: Condition::Stopped,
        moves: 1,
    }; 16];
    let channels = [Channel {
        capacity: 1,
        oldest: 0,
        held: 0,
        peak: 0,
        closed: true,
    }; 32];
    l.processes = processes;
    l.channels = channels;
    l
}

// How many of 100 lanes are sound, which differ in the count of accepted calls.
fn sounds(lane: Lane) -> u64 {
    let mut l = lane;
    let mut count: u64 = 0;
    for k in 0..100 {
        l.accepted = k;
        count = count.wrapping_add(u64::from(lane_sound::sound(&l)));
    }
    count
}

// The largest lane with room for 256 messages in channel 0, which comes from outside; its first message goes to a place that the compiler does not know.
fn burst_lane(rt: &impl Files, oldest: u8) -> Lane {
    let mut file = [0u8; 4608];
    files::load(rt, b"burst.bin", &mut file);
    let mut lane = lane_of(&file);
    lane.channels[0] = Channel {
        capacity: 256,
        oldest: u16::from(oldest),
        held: 0,
        peak: 0,
        closed: false,
    };
    lane
}

// A value that is not zero.
fn value_of(byte: u8) -> i32 {
    if byte == 0 {
        return 1;
    }
    2
}

// Values that the compiler does not know: by the first bytes of a file.
fn values_of(file: [u8; 4608]) -> [i32; 256] {
    let mut values = [0i32; 256];
    for k in 0..256 {
        values[k] = value_of(file[k]);
    }
    values
}

// How many values went in, in 100 bursts of them into channel 0 of the same lane; and one more each time where the cell that is looked at is not zero, so
// that the cells are not stored to in vain.
fn deliveries(lane: Lane, values: &[i32]) -> u64 {
    let mut cells = [0i32; 8192];
    let mut sum: u64 = 0;
    for k in 0..100 {
        let delivered = bursts::burst(lane, &mut cells, 0, values);
        sum = sum
            .wrapping_add(delivered.fed as u64)
            .wrapping_add(u64::from(cells[k] != 0));
    }
    sum
}

// The lengths of 10 listings in all; a refusal has none.
fn benches(file: &[u8], input: &[u8], picks: &[u8], listing: &mut [u8]) -> u64 {
    let mut sum: u64 = 0;
    for _ in 0..10 {
        let length = bench::bench(file, input, picks, listing).unwrap_or(0);
        sum = sum.wrapping_add(length as u64);
    }
    sum
}

// The lane file of the bench.
fn bench_file(rt: &impl Files) -> [u8; 1024] {
    let mut file = [0u8; 1024];
    files::load(rt, b"net.bin", &mut file);
    file
}

// A bench on its three files.
fn play(rt: &impl Files) -> u64 {
    let file = bench_file(rt);
    let mut input = [0u8; 5000];
    files::load(rt, b"in.bin", &mut input);
    let mut picks = [0u8; 3000];
    files::load(rt, b"picks.bin", &mut picks);
    let mut listing = [0u8; 65536];
    benches(&file, &input, &picks, &mut listing)
}

fn print(name: &[u8], number: u64) {
    io::write_all(OUT, name);
    io::write_all(OUT, b" ");
    io::print_decimal(OUT, number);
    io::write_all(OUT, b"\n");
}

fn main(rt: HostRuntime) {
    let mut word = [0u8; 8];
    let _ = rt.arg(1, &mut word);
    let what = word[0];
    let mut file = [0u8; 4608];
    files::load(&rt, b"largest.bin", &mut file);
    let largest = lane_of(&file);
    let little = lane_of(&bench_file(&rt));
    let roomy = burst_lane(&rt, what);
    if what == 0 || what == 99 {
        print(b"check", checks(file));
    }
    if what == 0 || what == 114 {
        print(b"read", readings(file));
    }
    if what == 0 || what == 115 {
        print(b"sound", sounds(largest));
    }
    if what == 0 || what == 101 {
        print(b"ended", sounds(ended(largest)));
    }
    if what == 0 || what == 108 {
        print(b"little", sounds(little));
    }
    if what == 0 || what == 118 {
        let values = values_of(file);
        print(b"values", deliveries(roomy, &values));
    }
    if what == 0 || what == 116 {
        let values = [0i32; 0];
        print(b"tests", deliveries(roomy, &values));
    }
    if what == 0 || what == 98 {
        print(b"bench", play(&rt));
    }
}
