// Runs a script of calls on a lane, from standard input, and prints each of its lines, with the answer and all that the call changed
// (docs/SCRIPTS.md). `stdin` is a script for a person to read, and `stdout` holds what document 01 says that it must answer.
#![tactic(auto)]

mod answers;
mod calls;
mod edits;

ghost use Rattle.std.specs.Prelude.{◌≡◌, length};

use call_prints::changes::print_changes;
use call_prints::shows::{print, print_hex, print_reading, print_written};
use call_scripts::edits::Edit;
use call_scripts::lines::{Call, Line, line_of};
use call_scripts::script::rest;
use lane::Lane;
use std::rt::Files;

// A lane with its cells, the first `room` of which are lent to a call. Three stand for a whole script: the one of the script, the one before a call, and
// one for a copy that is changed by hand. A function pays for the size of its locals each time it is entered, so no other has one of its own.
#[derive(Clone, Copy)]
struct Desk {
    lane: Lane,
    cells: [i32; 8193],
    room: usize,
}

#[derive(Drop)]
struct Desks {
    here: Desk,
    before: Desk,
    by_hand: Desk,
}

// ---- files
// The fresh lane of the network of a file, or of no network where it is refused.
fn fresh(file: &[u8]) -> Lane {
    let network = lane_reader::read(file).unwrap_or(lane_reader::no_network());
    lane_sound::fresh(network)
}

// That lane, with cells of 99.
#[inline(never)]
fn renew(desk: &mut Desk, file: &[u8]) {
    desk.lane = fresh(file);
    desk.cells.fill(99);
    desk.room = 8192;
}

// The fresh lane of a file of this folder. The buffer has one byte more than the longest file that is taken, so that a longer one is seen.
#[inline(never)]
fn start(rt: &impl Files, desk: &mut Desk, name: &[u8]) {
    let mut file = [0u8; 4609];
    let n = files::load(rt, name, &mut file);
    renew(desk, &file[..n]);
}

#[inline(never)]
fn read(rt: &(impl Files + Print), name: &[u8]) {
    let mut file = [0u8; 4609];
    let n = files::load(rt, name, &mut file);
    print(rt, ":");
    print_reading(rt, lane_reader::read(&file[..n]));
}

// Each byte of the buffer is 99 before.
#[inline(never)]
fn write(rt: &impl Print, lane: &Lane, n: usize) {
    let mut buffer = [99u8; 4700];
    let Some(file) = buffer.get_mut(..n) else {
        return;
    };
    print(rt, ":");
    print_written(rt, lane_writer::write(lane.network, file));
    print_hex(rt, file);
}

// ---- calls
fn changes(rt: &impl Print, before: &Desk, after: &Desk) {
    print_changes(rt, &before.lane, &before.cells, &after.lane, &after.cells);
}

// A call, and what it changed.
#[inline(never)]
fn call(rt: &impl Print, desk: &mut Desk, before: &mut Desk, call: Call, line: &[u8]) {
    *before = *desk;
    print(rt, ":");
    if let Some(cells) = desk.cells.get_mut(..before.room) {
        calls::called(rt, &mut desk.lane, cells, call, line);
    }
    changes(rt, before, desk);
}

// A pick of process 0 on a copy that is changed by hand.
fn with(rt: &impl Print, desks: &mut Desks, edit: Edit) {
    let desk = &mut desks.by_hand;
    *desk = desks.here;
    edits::edit(&mut desk.lane, &mut desk.cells, edit);
    call(rt, desk, &mut desks.before, Call::Pick(0), b"");
}

// All that is not as in the fresh lane of no network with cells of 99.
fn show(rt: &impl Print, desks: &mut Desks) {
    renew(&mut desks.before, b"");
    changes(rt, &desks.before, &desks.here);
}

// ---- the script
fn step(rt: &(impl Files + Print), desks: &mut Desks, line: &[u8]) {
    let Some(asked) = line_of(line) else {
        return print(rt, ": bad line");
    };
    match asked {
        Line::Note => {}
        Line::Lane => start(rt, &mut desks.here, rest(line, 5)),
        Line::Read => read(rt, rest(line, 5)),
        Line::Write(n) => write(rt, &desks.here.lane, n),
        Line::Room(n) => desks.here.room = n,
        Line::Show => show(rt, desks),
        Line::Calls(asks) => call(rt, &mut desks.here, &mut desks.before, asks, line),
        Line::Make(edit) => edits::edit(&mut desks.here.lane, &mut desks.here.cells, edit),
        Line::With(edit) => with(rt, desks, edit),
    }
}

// Each line as it stands, with what is printed after it.
fn run(rt: &(impl Files + Print), text: &[u8]) {
    let desk = Desk {
        lane: fresh(b""),
        cells: [99; 8193],
        room: 8192,
    };
    let mut desks = Desks {
        here: desk,
        before: desk,
        by_hand: desk,
    };
    for piece in text.split_inclusive(|b| *b == b'\n') {
        let line = piece.strip_suffix(b"\n").unwrap_or(piece);
        let _ = rt.write_all(line);
        step(rt, &mut desks, line);
        print(rt, "\n");
    }
}

// Room for a script. Only its length is known of it, so that the check does not lay it out byte by byte.
fn space() -> [u8; 1048576]
    ensures { 1048576 ≡ length result }
{
    [0; 1048576]
}

// What standard output does not take is lost, and the script goes on.
fn main(rt: HostRuntime) {
    let mut text = space();
    let n = io::read_full(0, &mut text);
    run(&rt, &text[..n]);
}
