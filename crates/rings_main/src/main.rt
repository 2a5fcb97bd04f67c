// Lanes that are run until processes wait on one another, and then relieved: prints the ring and the channel that grows, or the refusal.
// `stdout` holds what document 01 says that they must answer.
//
// A record of data/rings.bin: a lane file of 1,024 bytes; a title, its length first, in 64; the number of picks in two, and the picks.
#![tactic(auto)]

use base::Refusal;
use lane::Lane;
use relief::Enlargement;

const OUT: i32 = 1;

fn print_number(n: usize) {
    io::print_decimal(OUT, n as u64);
}

fn print_refusal(refusal: Refusal) {
    io::write_all(OUT, b"refused ");
    print_number(usize::from(u8::from(refusal)));
}

fn print_ring(members: &[u8]) {
    io::write_all(OUT, b"ring");
    for &p in members {
        io::write_all(OUT, b" ");
        print_number(usize::from(p));
    }
}

// The capacity of channel c, 0 where there is none.
fn capacity(lane: &Lane, c: usize) -> usize {
    match lane.channels.get(c) {
        Some(channel) => usize::from(channel.capacity),
        None => 0,
    }
}

// A ring that was relieved: its processes, and the channel that grew.
fn print_enlarged(lane: &Lane, ring: &[u8; 16], enlargement: Enlargement) {
    print_ring(&ring[..enlargement.length.min(16)]);
    io::write_all(OUT, b", channel ");
    print_number(enlargement.channel);
    io::write_all(OUT, b" grows to ");
    print_number(capacity(lane, enlargement.channel));
}

// Relief with room for any ring.
fn print_relief(lane: Lane) {
    let mut ring = [255; 16];
    let relieved = relief::relieve(lane, &mut ring);
    match relieved.answer {
        Ok(enlargement) => print_enlarged(&relieved.lane, &ring, enlargement),
        Err(refusal) => print_refusal(refusal),
    }
}

// Relief with no room at all: 15 comes last.
fn print_no_room(lane: Lane) {
    io::write_all(OUT, b"; no room: ");
    match relief::relieve(lane, &mut []).answer {
        Ok(enlargement) => {
            print_number(enlargement.length);
            io::write_all(OUT, b" ");
            print_number(enlargement.channel);
        }
        Err(refusal) => print_refusal(refusal),
    }
    io::write_all(OUT, b"\n");
}

// The lane of a record after its picks.
fn picked(record: &[u8; 2048], lane: Lane) -> Lane {
    let start = 1090;
    let end = start + usize::from(u16::from_be_bytes([record[1088], record[1089]]));
    let mut cells = [0; 8192];
    if end <= 2048 {
        return runs::run(lane, &mut cells, &record[start..end]).lane;
    }
    lane
}

fn print_record(record: &[u8; 2048]) {
    let title = 1025;
    let end = title + usize::from(record[1024]);
    if end <= 2048 {
        io::write_all(OUT, &record[title..end]);
    }
    io::write_all(OUT, b": ");
    if let Ok(net) = lane_reader::read(&record[..1024]) {
        let lane = picked(record, lane_sound::fresh(net));
        print_relief(lane);
        print_no_room(lane);
    }
}

// The file has 16 records. What is missing of it is zero, and a record of zeros is no lane.
fn main(rt: HostRuntime) {
    let mut file = [0; 32768];
    files::load(&rt, b"rings.bin", &mut file);
    for k in 0..16 {
        let mut record = [0; 2048];
        record.copy_from_slice(&file[2048 * k..2048 * (k + 1)]);
        print_record(&record);
    }
}
