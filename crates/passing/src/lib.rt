// Whether a network, any value of the record, passes the file's rules: one answer, quickly, for the soundness of a lane and for the writer. The reader,
// which names the place of what is wrong, has the tests in `network`.
#![tactic(auto)]

ghost use Rattle.std.specs.Prelude.{◌≡◌, ◌&&◌, ◌≤◌};
ghost use Rattle.base.specs.Tests.{is_good};
ghost use Rattle.network.specs.Rules.{processes_right, channels_right, total, unused_zero, instructions, passes};
ghost use Rattle.passing.specs.Placed.{Placed};

use instruction_sums::Sums;
use network::Network;
use slots_and_records::{all_zero, records_right, slots_right, unused_records, unused_slots};

// Whether all instructions are right, and each process's last one is a stop or a jump. The slots have been tested.
fn code_right(net: &Network) -> bool
    requires { (net.now.processes ≤ 16) × (net.now.channels ≤ 32) × Placed net.now.first net.now.count net.now.processes }
    ensures { result ≡ is_good (instructions net.now) }
{
    let mut ends = [0u64; 256];
    instruction_words::long_words(&mut ends);
    instruction_words::plain_words(&mut ends);
    instruction_words::channel_words(&mut ends, &net.receiver, &net.sender, net.channels);
    let mut opcodes = [0x4040404040404040u64; 256];
    instruction_words::opcode_words(&mut opcodes);
    let mut all: u64 = 0;
    let mut last: u8 = 0;
    let mut before: u64 = 256;
    for p in 0..net.processes {
        let start = usize::from(net.first[p]);
        let n = usize::from(net.count[p]);
        instruction_words::count_words(&mut opcodes, p, before, n as u64);
        let sums = Sums {
            code: &net.code,
            opcodes: &opcodes,
            channels: &ends,
        };
        all |= sums.run(start, n);
        let end = start + n;
        last |= net.code[4 * end - 4];
        instruction_words::next_words(&mut opcodes, p, n as u64);
        before = n as u64;
    }
    all & 0x482040410080F820 == 0 && last & 247 == 0
}

// The numbers of processes and channels are right.
fn sizes_right(net: &Network) -> bool
    ensures { result ≡ (processes_right net.now.processes && channels_right net.now.channels) }
{
    1 <= net.processes && net.processes <= 16 && 1 <= net.channels && net.channels <= 32
}

// Slots, records and code beyond those that are used are zero. The slots have been tested.
#[tactic(auto, unfolding(network::specs::Rules::unused_code))]
fn unused_right(net: &Network, used: usize) -> bool
    requires { (net.now.processes ≤ 16) × (net.now.channels ≤ 32) × (used ≡ total net.now) × (used ≤ 1016) }
    ensures { result ≡ unused_zero net.now }
{
    unused_slots(net).is_ok() && unused_records(net).is_ok() && all_zero(&net.code, 4 * used)
}

// Whether a network passes the file's rules. The numbers of processes and channels and the slots are tested first, so that each place read is there.
#[tactic(auto, using(base::proofs::Conjunction::in_all, crate::proofs::Lasts::blocks_fit), unfolding(network::specs::Rules::passes))]
pub fn passes(net: &Network) -> bool
    ensures { result ≡ passes net.now }
{
    if !sizes_right(net) {
        return false;
    }
    if !slots_right(net) {
        return false;
    }
    let total = network::total(net);
    if 1016 < total {
        return false;
    }
    if !records_right(net) {
        return false;
    }
    if !unused_right(net, total) {
        return false;
    }
    code_right(net)
}
