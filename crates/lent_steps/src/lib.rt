// One instruction of a process of a lent lane: those that touch a channel, and the match that picks by the opcode. Each stores what it changes, and
// answers what is left to do.
#![tactic(auto)]

ghost use Rattle.std.specs.Prelude.{◌≡◌, ◌≤◌, ◌<◌, ◌+◌, List, ℤ, set};
ghost use Rattle.lane.specs.State.{world, channel_of};
ghost use Rattle.lane.specs.Pick.{channel_in};
ghost use Rattle.lent_steps.specs.Steps.{Means, Ready};

use lane::Lane;
use lane_parts::{channel_of, ended_at, slot};
use network::Instruction;
use register_steps::{Did, assign, branch, operate, register, signed16};

// The oldest message; empty and closed is the end, empty and open waits.
#[inline(always)]
fn receive(lane: &mut Lane, cells: &[i32; 8192], p: usize, i: Instruction) -> Did
    requires { (p < 16) × (i.op ≡ 11) × (i.a < 8) × ((channel_of lane.old (channel_in i)).oldest < 256) }
    ensures { Means i result p (world lane.old cells.now) (world lane.new cells.now) }
{
    let c = channel_of(i);
    let from = lane.channels[c];
    if from.held == 0 {
        if from.closed {
            return Did::To(i.c);
        }
        return Did::WaitEmpty;
    }
    lane.channels[c] = from.get();
    assign(&mut lane.registers, 8 * p, i.a, cells[slot(c, from, 0)]);
    Did::On
}

// A closed channel faults, full or not; one whose receiver has ended takes the message and does not store it.
#[inline(always)]
fn send(lane: &mut Lane, cells: &mut [i32; 8192], p: usize, i: Instruction) -> Did
    requires { (p < 16) × (i.op ≡ 12) × (i.a < 8) × ((channel_of lane.old (channel_in i)).held ≤ (channel_of lane.old (channel_in i)).capacity) }
    ensures { Means i result p (world lane.old cells.old) (world lane.new cells.new) }
{
    let c = channel_of(i);
    let to = lane.channels[c];
    if to.closed {
        return Did::Fault;
    }
    if ended_at(lane, lane.network.receiver[c]) {
        return Did::On;
    }
    if to.held == to.capacity {
        return Did::WaitFull;
    }
    cells[slot(c, to, to.held)] = register(&lane.registers, 8 * p, i.a);
    lane.channels[c] = to.put();
    Did::On
}

// A channel already closed faults.
#[inline(always)]
fn close(lane: &mut Lane, p: usize, i: Instruction) -> Did
    requires { (p < 16) × (i.op ≡ 13) }
    ensures { (cells : List ℤ) → Means i result p (world lane.old cells) (world lane.new cells) }
{
    let c = channel_of(i);
    let channel = lane.channels[c];
    if channel.closed {
        return Did::Fault;
    }
    lane.channels[c] = channel.close();
    Did::On
}

// Register a becomes v.
fn load(i: Instruction, file: &mut [i32; 128], base: usize, v: i32) -> Did
    requires { (base ≤ 120) × (i.a < 8) }
    ensures { (result ≡ Did.On) × (file.new ≡ set file.old (base + i.a) v) }
{
    assign(file, base, i.a, v);
    Did::On
}

// The instruction of a live process, by its opcode; one above 13 faults. Public for `lent_picks`, which has shown what it requires: the
// instruction passes the file's rules, and its channel is that of a sound lane. That the process is live and stands at it is not asked for.
#[inline(always)]
pub fn step(lane: &mut Lane, cells: &mut [i32; 8192], p: usize, i: Instruction) -> Did
    requires { (p < 16) × Ready i lane.old }
    ensures { Means i result p (world lane.old cells.old) (world lane.new cells.new) }
{
    let base = 8 * p;
    let file = &mut lane.registers;
    let op = i.op;
    match op {
        0 => Did::Stop,
        1 => load(i, file, base, signed16(i.b, i.c)),
        2 => load(i, file, base, register(file, base, i.b)),
        3 => operate(i, file, base, |x, y| Some(arithmetic::sum(x, y))),
        4 => operate(i, file, base, |x, y| Some(arithmetic::difference(x, y))),
        5 => operate(i, file, base, |x, y| Some(arithmetic::product(x, y))),
        6 => operate(i, file, base, arithmetic::quotient),
        7 => operate(i, file, base, arithmetic::remainder),
        8 => Did::To(i.c),
        9 => branch(register(file, base, i.a) == 0, i.c),
        10 => branch(register(file, base, i.a) < 0, i.c),
        11 => receive(lane, cells, p, i),
        12 => send(lane, cells, p, i),
        13 => close(lane, p, i),
        _ => Did::Fault,
    }
}
