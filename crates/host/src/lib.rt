// The two functions that a host written in C calls, on byte slices: the block check, and the bench. include/lane.h declares them.
#![tactic(auto)]

ghost use Rattle.std.specs.Prelude.{◌≡◌, ◌≤◌, pos, neg_ℤ};
ghost use Rattle.block_check.specs.Crc.{crc};
ghost use Rattle.bench.specs.Bench.{bench_of};
ghost use Rattle.host.specs.Numbers.{number_told};

// The block check of all bytes, of any length.
#[unsafe(no_mangle)]
pub extern "C" fn lane_block_check(bytes: &[u8]) -> u16
    ensures { result ≡ crc bytes.now }
{
    block_check::check(bytes)
}

// A listing's length, which is small.
fn length_number(length: usize) -> i32
    requires { length ≤ 57784 }
    ensures { result ≡ pos length }
{
    length as i32
}

// A refusal as the negative number.
fn refusal_number(number: u8) -> i32
    ensures { result ≡ neg_ℤ (pos number) }
{
    0 - (number as i32)
}

// The bench: the listing's length, or a refusal as the negative number.
#[unsafe(no_mangle)]
pub extern "C" fn lane_bench(file: &[u8], input: &[u8], picks: &[u8], listing: &mut [u8]) -> i32
    ensures { (result ≡ number_told (bench_of file.now input.now picks.now listing.old).answer) × (listing.new ≡ (bench_of file.now input.now picks.now listing.old).listing) }
{
    match bench::bench(file, input, picks, listing) {
        Ok(length) => length_number(length),
        Err(refusal) => refusal_number(u8::from(refusal)),
    }
}
