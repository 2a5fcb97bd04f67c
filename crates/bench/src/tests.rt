// The tests of a bench's input and pick bytes, public for `bench` alone.
ghost use Rattle.std.specs.Prelude.{◌≡◌, true};
ghost use Rattle.base.specs.Tests.{first_bad, is_good};
ghost use Rattle.network.specs.Rules.{passes};
ghost use Rattle.bench_rules.specs.Input.{records};
ghost use Rattle.bench.specs.Bench.{from_outside, input_wrong};

use network::Network;

// Each record's channel is fed from outside.
#[tactic(auto, using(base::proofs::Tests::in_order, crate::proofs::Kept::few_channels))]
fn all_from_outside(network: &Network, input: &[u8]) -> bool
    requires { passes network.now ≡ true }
    ensures { result ≡ is_good (first_bad (from_outside network.now input.now) 0 (records input.now)) }
{
    for i in 0..input.len() / 5 {
        let c = bench_feeds::channel_at(input, i);
        if network.channels <= c || network.sender[c] != 255 {
            return false;
        }
    }
    true
}

// Input that is not records of five bytes, too long, or for a channel not fed from outside; too many pick bytes.
#[tactic(auto, unfolding(crate::specs::Bench::input_wrong))]
pub fn input_wrong(network: &Network, input: &[u8], picks: &[u8]) -> bool
    requires { passes network.now ≡ true }
    ensures { result ≡ input_wrong network.now input.now picks.now }
{
    input.len() % 5 != 0
        || 20480 < input.len()
        || 3000 < picks.len()
        || !all_from_outside(network, input)
}
