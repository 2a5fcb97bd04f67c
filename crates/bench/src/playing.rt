// The bench's play: the pick bytes from a fresh lane on, then the lines of the processes.
ghost use Rattle.std.specs.Prelude.{◌≡◌, true, false, ℕ, ◌≤◌, ◌<◌, length, get_or};
ghost use Rattle.network.specs.Rules.{passes};
ghost use Rattle.outer_ends.specs.Outer.{Outer};
ghost use Rattle.listing.specs.Text.{text};
ghost use Rattle.listing.specs.Written.{written};
ghost use Rattle.bench_rules.specs.Playing.{plays, start, lines_of};
ghost use Rattle.bench_rules.specs.Holding.{held_by, Room, Done};
ghost use Rattle.bench.specs.Bench.{input_wrong, picks_wrong};

use bench_rules::{Bench, Ends};
use bench_turns::{play_one, print_processes};
use lane::SoundLane;
use listing::Listing;
use network::Network;
use outer_ends::outer_after;

// The channels with this end at the outside.
fn ends_of(ends: &[u8; 32], channels: usize) -> Ends
    requires { channels ≤ 32 }
    ensures { Outer ends.now channels result.first result.after }
{
    let mut after = [0u8; 32];
    let first = outer_after(ends, channels, &mut after);
    Ends { first, after }
}

// The start: a fresh lane, cells of zero, all input left and no end given.
#[tactic(auto, using(lane::proofs::SoundLaws::fresh_sound))]
fn start<'a>(network: &Network, input: &'a [u8]) -> Bench<'a>
    requires { passes network.now ≡ true }
    ensures { held_by result ≡ start network.now input.now }
{
    let lane = lane_sound::fresh(*network);
    let cells = [0; 8192];
    Bench {
        sound: SoundLane { lane },
        cells,
        input,
        next: [0; 32],
        given: [false; 32],
        inputs: ends_of(&network.sender, network.channels),
        outputs: ends_of(&network.receiver, network.channels),
    }
}

// All pick bytes.
fn play_all(bench: &mut Bench, picks: &[u8], listing: &mut Listing)
    requires named { (k : ℕ) → k < length picks.now → (get_or picks.now k 0 ≡ 255 → ⊥) → get_or picks.now k 0 < bench.old.sound.lane.network.processes }
    requires room { Room (plays picks.now (held_by bench.old)) listing.old }
    ensures { Done (plays picks.now (held_by bench.old)) listing.old (held_by bench.new) listing.new }
{
    for &pick in picks {
        play_one(bench, pick, listing);
    }
}

// The whole listing, on cells of its own; its length. Public for `bench`, which has tested the input and the pick bytes.
pub fn list(network: &Network, input: &[u8], picks: &[u8], buffer: &mut [u8]) -> usize
    requires passed { passes network.now ≡ true }
    requires input { input_wrong network.now input.now picks.now ≡ false }
    requires picks { picks_wrong network.now picks.now ≡ false }
    requires room { 65536 ≤ length buffer.old }
    ensures { (result ≡ length (text (lines_of network.now input.now picks.now))) × (buffer.new ≡ written 0 (text (lines_of network.now input.now picks.now)) buffer.old) }
{
    let mut bench = start(network, input);
    let mut listing = Listing { buffer, at: 0 };
    play_all(&mut bench, picks, &mut listing);
    print_processes(&bench.sound, &mut listing);
    listing.at
}
