// What a line of a script asks for (docs/SCRIPTS.md): each number of it is within its limit. A line that the page does not have is None.
use crate::edits::{Edit, edit_of};
use crate::script::{fits, has_numbers, next, nth_number, number_at, rest, up_to, value_at, word};

// A call, with its process or channel and its value, the size of its buffer, or its number of picks. The bytes of a run and the values of a burst stay in
// the line.
#[derive(Clone, Copy)]
pub enum Call {
    Pick(usize),
    Feed(usize, i32),
    Burst(usize),
    Close(usize),
    Take(usize),
    LentPick(usize),
    LentFeed(usize, i32),
    LentTake(usize),
    Relieve(usize),
    Run,
    Drive(u64),
}

// A line by what it asks for. The name of a file stays in it.
#[derive(Clone, Copy)]
pub enum Line {
    Note,
    Lane,
    Read,
    Write(usize),
    Room(usize),
    Show,
    Calls(Call),
    Make(Edit),
    With(Edit),
}

fn run_of(line: &[u8]) -> Option<Call> {
    if has_numbers(line, 1, 256, None, 255) {
        Some(Call::Run)
    } else {
        None
    }
}

fn burst_of(line: &[u8]) -> Option<Call> {
    let c = nth_number(line, 1)?;
    if has_numbers(line, 2, 512, Some(2147483648), 2147483647) {
        Some(Call::Burst(c))
    } else {
        None
    }
}

fn call_of(line: &[u8]) -> Option<Call> {
    if fits(line, b"pick N") {
        Some(Call::Pick(nth_number(line, 1)?))
    } else if fits(line, b"feed N V") {
        Some(Call::Feed(nth_number(line, 1)?, value_at(line, 2)))
    } else if fits(line, b"close N") {
        Some(Call::Close(nth_number(line, 1)?))
    } else if fits(line, b"take N") {
        Some(Call::Take(nth_number(line, 1)?))
    } else if fits(line, b"lent-pick N") {
        Some(Call::LentPick(nth_number(line, 1)?))
    } else if fits(line, b"lent-feed N V") {
        Some(Call::LentFeed(nth_number(line, 1)?, value_at(line, 2)))
    } else if fits(line, b"lent-take N") {
        Some(Call::LentTake(nth_number(line, 1)?))
    } else if fits(line, b"relieve N") {
        Some(Call::Relieve(up_to(line, 1, 32)?))
    } else if fits(line, b"drive N") {
        Some(Call::Drive(number_at(line, 1)))
    } else if word(line, 0) == b"run".as_slice() {
        run_of(line)
    } else if word(line, 0) == b"burst".as_slice() {
        burst_of(line)
    } else {
        None
    }
}

// This is the first word of the line, and something stands after it and a space.
fn begins(line: &[u8], name: &[u8]) -> bool {
    let end = next(line, 0, b' ');
    &line[..end] == name && name.len() + 1 < line.len()
}

// A line that is no note.
fn step_of(line: &[u8]) -> Option<Line> {
    if begins(line, b"lane") {
        Some(Line::Lane)
    } else if begins(line, b"read") {
        Some(Line::Read)
    } else if begins(line, b"make") {
        Some(Line::Make(edit_of(rest(line, 5))?))
    } else if begins(line, b"with") {
        Some(Line::With(edit_of(rest(line, 5))?))
    } else if fits(line, b"show") {
        Some(Line::Show)
    } else if fits(line, b"room N") {
        Some(Line::Room(up_to(line, 1, 8193)?))
    } else if fits(line, b"write N") {
        Some(Line::Write(up_to(line, 1, 4700)?))
    } else {
        Some(Line::Calls(call_of(line)?))
    }
}

pub fn line_of(line: &[u8]) -> Option<Line> {
    if line.is_empty() || line.starts_with(b"#") {
        Some(Line::Note)
    } else {
        step_of(line)
    }
}
