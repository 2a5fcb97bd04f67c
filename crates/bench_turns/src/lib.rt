// A turn of a bench, a pick byte with what comes before and after it, and at last the lines of the processes.
#![tactic(auto)]

ghost use Rattle.std.specs.Prelude.{◌≡◌, ◌<◌};
ghost use Rattle.listing.specs.Text.{text};
ghost use Rattle.listing.specs.Listing.{HasRoom, Wrote};
ghost use Rattle.bench_rules.specs.Playing.{plays_one, status_of, proc_lines};
ghost use Rattle.bench_rules.specs.Emptying.{empties};
ghost use Rattle.bench_rules.specs.Holding.{held_by, Kept, feeds_in, on_outputs, Room, Done};
ghost use Rattle.bench_turns.specs.Turns.{byte_in};

use bench_feeds::feed_all;
use bench_rules::Bench;
use bench_takes::take_all;
use lane::SoundLane;
use listing::{Listing, Status};
use process::Condition;
use waits::Wait;

// The inputs fed.
fn feed(bench: &mut Bench)
    ensures fed { held_by bench.new ≡ feeds_in (held_by bench.old) }
    ensures kept { Kept bench.old bench.new }
{
    feed_all(
        &mut bench.sound,
        &mut bench.cells,
        bench.input,
        &mut bench.next,
        &bench.inputs,
    );
}

// The outputs emptied.
fn take(bench: &mut Bench, listing: &mut Listing)
    requires { Room (on_outputs empties (held_by bench.old)) listing.old }
    ensures done { Done (on_outputs empties (held_by bench.old)) listing.old (held_by bench.new) listing.new }
    ensures kept { Kept bench.old bench.new }
{
    take_all(
        &mut bench.sound,
        &bench.cells,
        &mut bench.given,
        &bench.outputs,
        listing,
    );
}

// A pick byte alone: a pick of a process, or a relief.
fn pick_byte(bench: &mut Bench, pick: u8, listing: &mut Listing)
    requires named { (pick ≡ 255 → ⊥) → pick < bench.old.sound.lane.network.processes }
    requires room { Room (byte_in pick (held_by bench.old)) listing.old }
    ensures done { Done (byte_in pick (held_by bench.old)) listing.old (held_by bench.new) listing.new }
    ensures kept { Kept bench.old bench.new }
{
    if pick == 255 {
        if let Ok(enlarged) = schedule::relieve_in(&mut bench.sound) {
            let channel = enlarged.channel;
            listing.grow(channel, bench.sound.lane.channels[channel].capacity);
        }
        return;
    }
    lent_picks::pick_one(&mut bench.sound, &mut bench.cells, usize::from(pick));
}

// A pick byte with what comes before and after it. Public for the bench, which has shown that the byte names a process and that there is room.
pub fn play_one(bench: &mut Bench, pick: u8, listing: &mut Listing)
    requires named { (pick ≡ 255 → ⊥) → pick < bench.old.sound.lane.network.processes }
    requires room { Room (plays_one pick (held_by bench.old)) listing.old }
    ensures done { Done (plays_one pick (held_by bench.old)) listing.old (held_by bench.new) listing.new }
    ensures kept { Kept bench.old bench.new }
{
    feed(bench);
    pick_byte(bench, pick, listing);
    take(bench, listing);
}

// How process p stands.
fn status(sound: &SoundLane, p: usize) -> Status
    requires { p < sound.now.lane.network.processes }
    ensures { result ≡ status_of sound.now.lane p }
{
    match sound.lane.processes[p].condition {
        Condition::Live => match waits::wait_at(sound, p) {
            Wait::Free => Status::Run,
            Wait::Empty { .. } => Status::Empty,
            Wait::Full { .. } => Status::Full,
        },
        Condition::Stopped => Status::Stop,
        Condition::Faulted => Status::Fault,
    }
}

// The lines of the processes. Public for the bench, which has shown that there is room.
pub fn print_processes(sound: &SoundLane, listing: &mut Listing)
    requires { HasRoom (text (proc_lines sound.now.lane 0 sound.now.lane.network.processes)) listing.old }
    ensures { Wrote (text (proc_lines sound.now.lane 0 sound.now.lane.network.processes)) listing.old listing.new }
{
    for p in 0..sound.lane.network.processes {
        listing.proc(p, status(sound, p), sound.lane.processes[p].moves);
    }
}
