// Reading a lane file: the tests 1 to 7 of document 01 in their order, and the network of a file that passes them.
#![tactic(auto)]

ghost use Rattle.std.specs.Prelude.{◌≡◌, ◌+◌, ◌-◌, ◌*◌, ◌≤◌, ◌<◌, length, get_or};
ghost use Rattle.base.specs.Tests.{in_turn};
ghost use Rattle.network.specs.Rules.{total, records, instructions};
ghost use Rattle.lane_file.specs.Read.{blocks, slots_in, unused_from, code_rest, rest_in, accepted, told, unless, no_network, read_of, result_of};

use base::Refusal;
use lane_file::Refused;
use network::Network;

// 4: the first wrong process slot, or 16 if K does not suit the total. Eight code blocks hold 1,016 instructions.
fn slots_in(s: &[u8], net: &Network) -> Result<(), usize>
    requires { (5 < length s.now) × (get_or s.now 5 0 ≤ 8) × (net.now.processes ≤ 16) }
    ensures { result ≡ slots_in s.now net.now }
{
    network::slots(net)?;
    let place = 16;
    let instructions = network::total(net);
    if 1016 < instructions || usize::from(s[5]) != (instructions + 126) / 127 {
        return Err(place);
    }
    Ok(())
}

// 6: where the unused instructions of code block k begin.
fn unused_from(instructions: usize, k: usize) -> usize
    requires { (1 ≤ k) × (k ≤ 8) × (instructions ≤ 1016) }
    ensures { result ≡ unused_from instructions k }
{
    512 * k + (4 * instructions).saturating_sub(508 * (k - 1)).min(508)
}

// The unused instructions of code block k, and its number.
#[tactic(auto, unfolding(lane_file::specs::Read::code_rest))]
fn code_rest(s: &[u8], instructions: usize, k: usize) -> Result<(), usize>
    requires { (1 ≤ k) × (k ≤ 8) × (instructions ≤ 1016) × (512 * k + 512 ≤ length s.now) }
    ensures { result ≡ code_rest s.now instructions k }
{
    let end = 512 * k + 508;
    let last = 512 * k + 509;
    base::zeros(s, unused_from(instructions, k), end)?;
    if usize::from(s[end]) != k / 256 {
        return Err(end);
    }
    if usize::from(s[last]) != k % 256 {
        return Err(last);
    }
    Ok(())
}

// The same of each code block in turn.
#[tactic(auto, using(base::proofs::Tests::in_order))]
fn code_rests(s: &[u8], instructions: usize) -> Result<(), usize>
    requires { (1024 ≤ length s.now) × (length s.now ≤ 4608) × (instructions ≤ 1016) }
    ensures { result ≡ in_turn (code_rest s.now instructions) 1 (blocks s.now - 1) }
{
    let blocks = s.len() / 512;
    for k in 1..blocks {
        code_rest(s, instructions, k)?;
    }
    Ok(())
}

// The first byte that must be zero and is not, or that is wrong in a block's number.
#[tactic(auto, unfolding(lane_file::specs::Read::rest_in))]
fn rest(s: &[u8], net: &Network) -> Result<(), usize>
    requires { (1024 ≤ length s.now) × (length s.now ≤ 4608) × (total net.now ≤ 1016) × (net.now.processes ≤ 16) × (net.now.channels ≤ 32) }
    ensures { result ≡ rest_in s.now net.now }
{
    base::zeros(s, 6, 8)?;
    base::zeros(s, 8 + 4 * net.processes, 72)?;
    base::zeros(s, 72 + 4 * net.channels, 510)?;
    code_rests(s, network::total(net))
}

// The network that stands for a file that is refused, all zero: for who goes on without one.
pub fn no_network() -> Network
    ensures { result ≡ no_network }
{
    Network {
        processes: 0,
        channels: 0,
        first: [0; 16],
        count: [0; 16],
        sender: [0; 32],
        receiver: [0; 32],
        capacity: [0; 32],
        code: [0; 4064],
    }
}

// The tests 4 to 7 of a network that was read from a file with a right header.
fn tested(s: &[u8], net: &Network) -> Result<(), Refused>
    requires { (1024 ≤ length s.now) × (length s.now ≤ 4608) × (get_or s.now 5 0 ≤ 8) × (net.now.processes ≤ 16) × (net.now.channels ≤ 32) }
    ensures { told result ≡ unless 4 (slots_in s.now net.now) (unless 5 (records net.now) (unless 6 (rest_in s.now net.now) (unless 7 (instructions net.now) accepted))) }
{
    slots_in(s, net).map_err(|place| Refused {
        refusal: Refusal::Slot,
        place,
    })?;
    network::records(net).map_err(|place| Refused {
        refusal: Refusal::Record,
        place,
    })?;
    rest(s, net).map_err(|place| Refused {
        refusal: Refusal::Zero,
        place,
    })?;
    network::instructions(net).map_err(|place| Refused {
        refusal: Refusal::Instruction,
        place,
    })
}

// What a file is: its network, or the first refusal and its place.
pub fn read(s: &[u8]) -> Result<Network, Refused>
    ensures { result_of result ≡ read_of s.now }
{
    file_blocks::opened(s)?;
    let net = file_blocks::network_of(s);
    tested(s, &net)?;
    Ok(net)
}
