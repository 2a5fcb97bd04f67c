// The quick tests of a network's process slots and channel records, and of what must be zero beyond them and beyond the code. They are public for the test
// of a whole network, which knows that each place is there. The reader, which names the place of what is wrong, has its tests in `network`.
#![tactic(auto)]

ghost use Rattle.std.specs.Prelude.{◌≡◌, ◌-◌, ◌≤◌};
ghost use Rattle.base.specs.Tests.{first_bad, is_good, is_zero};
ghost use Rattle.network.specs.Rules.{slots, records, unused_slots, unused_records};

use network::Network;

// All process slots are right. Each is looked at, right or wrong, as the records below are.
#[tactic(auto, using(flags::proofs::Clean::in_all, network::proofs::Slot::due_next), unfolding(network::specs::Rules::slots))]
pub fn slots_right(net: &Network) -> bool
    requires { net.now.processes ≤ 16 }
    ensures { result ≡ is_good (slots net.now) }
{
    let mut wrong: u8 = 0;
    let mut due = 0;
    for p in 0..net.processes {
        let start = usize::from(net.first[p]);
        let n = usize::from(net.count[p]);
        wrong |= base::unless(network::slot_right(start, n, due));
        due = start + n;
    }
    wrong == 0
}

// All channel records are right. Each is looked at, right or wrong, so that the compiler can look at several at once.
#[tactic(auto, using(flags::proofs::Clean::in_all), unfolding(network::specs::Rules::records))]
pub fn records_right(net: &Network) -> bool
    requires { (net.now.processes ≤ 255) × (net.now.channels ≤ 32) }
    ensures { result ≡ is_good (records net.now) }
{
    let processes = net.processes as u8;
    let mut wrong: u8 = 0;
    for c in 0..net.channels {
        wrong |= base::unless(network::record_right(
            net.sender[c],
            net.receiver[c],
            net.capacity[c],
            processes,
        ));
    }
    wrong == 0
}

// Slots beyond the processes are zero.
#[tactic(auto, using(base::proofs::Tests::in_order), unfolding(network::specs::Rules::unused_slots))]
pub fn unused_slots(net: &Network) -> Result<(), usize>
    requires { net.now.processes ≤ 16 }
    ensures { result ≡ unused_slots net.now }
{
    for p in net.processes..16 {
        if net.first[p] != 0 || net.count[p] != 0 {
            return Err(p);
        }
    }
    Ok(())
}

// Records beyond the channels are zero.
#[tactic(auto, using(base::proofs::Tests::in_order), unfolding(network::specs::Rules::unused_records))]
pub fn unused_records(net: &Network) -> Result<(), usize>
    requires { net.now.channels ≤ 32 }
    ensures { result ≡ unused_records net.now }
{
    for c in net.channels..32 {
        if net.sender[c] != 0 || net.receiver[c] != 0 || net.capacity[c] != 0 {
            return Err(c);
        }
    }
    Ok(())
}

// All bytes of a code from a place on are zero. Each is looked at, as the records are.
#[tactic(auto, using(flags::proofs::Clean::in_all))]
pub fn all_zero(code: &[u8; 4064], a: usize) -> bool
    requires { a ≤ 4064 }
    ensures { result ≡ is_good (first_bad (is_zero code.now) a (4064 - a)) }
{
    let mut all: u8 = 0;
    for i in a..4064 {
        all |= code[i];
    }
    all == 0
}
