// The bench on byte slices: a lane file, input records and pick bytes give a listing, or a refusal.
#![tactic(auto)]

mod playing;
mod tests;

ghost use Rattle.std.specs.Prelude.{◌≡◌, true, ◌≤◌, length};
ghost use Rattle.network.specs.Rules.{passes};
ghost use Rattle.bench.specs.Bench.{told, result as outcome, played, bench_of};

use base::Refusal;
use network::Network;

// An accepted file's network: 17, 8, else the listing.
fn play(network: &Network, input: &[u8], picks: &[u8], listing: &mut [u8]) -> Result<usize, Refusal>
    requires { (passes network.now ≡ true) × (65536 ≤ length listing.old) }
    ensures { outcome (told result) listing.new ≡ played network.now input.now picks.now listing.old }
{
    if tests::input_wrong(network, input, picks) {
        return Err(Refusal::Input);
    }
    if !runs::all_named(picks, network.processes as u8) {
        return Err(Refusal::Absent);
    }
    Ok(playing::list(network, input, picks, listing))
}

// The bench: the listing's length, or a refusal that leaves the buffer as it is. A listing always fits in 65,536 bytes.
pub fn bench(file: &[u8], input: &[u8], picks: &[u8], listing: &mut [u8]) -> Result<usize, Refusal>
    ensures { outcome (told result) listing.new ≡ bench_of file.now input.now picks.now listing.old }
{
    if listing.len() < 65536 {
        return Err(Refusal::Buffer);
    }
    // The refusal's place is dropped: `?` behind `map_err` would be no plainer.
    match lane_reader::read(file) {
        Ok(network) => play(&network, input, picks, listing),
        Err(refused) => Err(refused.refusal),
    }
}
