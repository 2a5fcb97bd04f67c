// The bench program: net.bin, in.bin and picks.bin of the folder it is run in, to a listing on standard output, or `refused number`.
#![tactic(auto)]

use base::Refusal;

const OUT: i32 = 1;

// `refused number`.
fn print_refusal(refusal: Refusal) {
    io::write_all(OUT, b"refused ");
    io::print_decimal(OUT, u64::from(u8::from(refusal)));
    io::write_all(OUT, b"\n");
}

// The listing, or the refusal.
fn show(file: &[u8], input: &[u8], picks: &[u8]) {
    let mut listing = [0u8; 65536];
    match bench::bench(file, input, picks, &mut listing) {
        Ok(length) => {
            io::write_all(OUT, &listing[..length]);
        }
        Err(refusal) => print_refusal(refusal),
    }
}

// Each buffer has one byte more than the longest file that is taken, so that a longer one is seen.
fn main(rt: HostRuntime) {
    let mut file = [0u8; 4609];
    let file_length = files::load(&rt, b"net.bin", &mut file);
    let mut input = [0u8; 20481];
    let input_length = files::load(&rt, b"in.bin", &mut input);
    let mut picks = [0u8; 3001];
    let picks_length = files::load(&rt, b"picks.bin", &mut picks);
    show(
        &file[..file_length],
        &input[..input_length],
        &picks[..picks_length],
    );
}
