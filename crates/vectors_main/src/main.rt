// Runs the block check's published vectors, and the reader and writer over a lane file and its damaged copies, one for every clause of the
// refusals 1 to 7; prints what each one answers. `stdout` holds what document 01 says that they must answer.
#![tactic(auto)]

mod cases;

ghost use Rattle.std.specs.Prelude.{◌<◌};

use base::Refusal;
use cases::Case;
use lane_file::Refused;
use network::Network;

const OUT: i32 = 1;

fn line() {
    io::write_all(OUT, b"\n");
}

fn print_number(n: usize) {
    io::print_decimal(OUT, n as u64);
}

// ---- the cases
fn set(file: &mut [u8; 1536], at: usize, value: u8) {
    if let Some(byte) = file.get_mut(at) {
        *byte = value;
    }
}

// The check of block k, below 3, made right.
fn seal_block(file: &mut [u8; 1536], k: usize)
    requires { k < 3 }
{
    let at = 512 * k;
    let check = block_check::check(&file[at..at + 510]).to_be_bytes();
    file[at + 510] = check[0];
    file[at + 511] = check[1];
}

// The checks of the blocks in the mask made right.
fn seal(file: &mut [u8; 1536], mask: u8) {
    for k in 0..3 {
        if mask & (1 << k) != 0 {
            seal_block(file, k);
        }
    }
}

// How many bytes of the file stand at the front of a buffer, before the first that differs.
fn alike(a: &[u8; 5120], file: &[u8; 1536]) -> usize {
    for k in 0..1536 {
        if a[k] != file[k] {
            return k;
        }
    }
    1536
}

// How many of the last bytes are 9.
fn nines(a: &[u8; 5120]) -> usize {
    for k in 0..5120 {
        if a[5119 - k] != 9 {
            return k;
        }
    }
    5120
}

// ---- what is printed
// The check of a slice, in hexadecimal.
fn print_check(name: &[u8], bytes: &[u8]) {
    io::write_all(OUT, b"check of ");
    io::write_all(OUT, name);
    io::write_all(OUT, b": ");
    io::print_hex(OUT, block_check::check(bytes) as u64, 4);
    line();
}

fn print_refusal(r: Refusal) {
    io::write_all(OUT, b"refused ");
    io::print_decimal(OUT, u64::from(u8::from(r)));
}

fn print_reading(answer: Result<Network, Refused>) {
    match answer {
        Ok(_) => {
            io::write_all(OUT, b"accepted");
        }
        Err(refused) => {
            print_refusal(refused.refusal);
            io::write_all(OUT, b" place ");
            print_number(refused.place);
        }
    }
    line();
}

fn print_written(w: Result<usize, Refusal>) {
    match w {
        Ok(n) => {
            print_number(n);
            io::write_all(OUT, b" bytes");
        }
        Err(refusal) => {
            print_refusal(refusal);
        }
    }
    line();
}

// The bytes of the file with one or two of them changed, and the checks of the blocks in the mask made right.
fn print_case(mut file: [u8; 1536], case: Case) {
    let [(at, value), (at_too, value_too)] = case.changed;
    set(&mut file, at, value);
    set(&mut file, at_too, value_too);
    seal(&mut file, case.sealed);
    io::write_all(OUT, b"byte ");
    print_number(at);
    io::write_all(OUT, b" = ");
    print_number(usize::from(value));
    if at_too != 0 {
        io::write_all(OUT, b", byte ");
        print_number(at_too);
        io::write_all(OUT, b" = ");
        print_number(usize::from(value_too));
    }
    io::write_all(OUT, b": ");
    print_reading(lane_reader::read(&file));
}

// The first n bytes, where the file has so many.
fn print_length(file: &[u8; 5120], n: usize) {
    print_number(n);
    io::write_all(OUT, b" bytes: ");
    if let Some(bytes) = file.get(..n) {
        print_reading(lane_reader::read(bytes));
    }
}

// The network of the file is written: the answer, and whether the bytes are the file's and those past it are left.
fn print_writing(file: &[u8; 1536], room: usize) {
    let net = lane_reader::read(file).unwrap_or(lane_reader::no_network());
    let mut buffer = [9; 5120];
    io::write_all(OUT, b"written into ");
    print_number(room);
    io::write_all(OUT, b" bytes: ");
    if room <= 5120 {
        print_written(lane_writer::write(net, &mut buffer[..room]));
        io::write_all(OUT, b"bytes as in the file, and past them as they were: ");
        print_number(alike(&buffer, file));
        io::write_all(OUT, b", ");
        print_number(nines(&buffer));
        line();
    }
}

fn main(rt: HostRuntime) {
    print_check(b"no bytes", b"");
    print_check(b"A", b"A");
    print_check(b"123456789", b"123456789");
    let mut file = [0; 1536];
    files::load(&rt, b"lane.bin", &mut file);
    let cases = cases::CASES;
    for &case in &cases {
        print_case(file, case);
    }
    // the same file with zeros after it
    let mut long = [0; 5120];
    files::load(&rt, b"lane.bin", &mut long);
    let lengths = cases::LENGTHS;
    for &n in &lengths {
        print_length(&long, n);
    }
    print_writing(&file, 5120);
    print_writing(&file, 1536);
    print_writing(&file, 1535);
    // the network that stands for a refused file is all zero, and does not pass: 16 comes before 15
    let none = lane_reader::read(b"").unwrap_or(lane_reader::no_network());
    let mut small = [9; 16];
    io::write_all(OUT, b"no network written into 16 bytes: ");
    print_written(lane_writer::write(none, &mut small));
}
