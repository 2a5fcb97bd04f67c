// Answers of the calls on a lane, of reading and writing its file, and parts of it, in words.
use crate::pieces::Pieces;
use base::Refusal;
use lane::{PickAnswer, Standing};
use lane_file::Refused;
use network::Network;
use process::{Channel, Condition};
use std::fmt::{Display, Write};

// A text or a format, each of its texts and values as a piece by itself: one that standard output does not take is lost, and what comes after it is
// printed.
pub fn print<D: Display + Drop>(rt: &impl Print, shown: D) {
    let mut pieces = Pieces { rt };
    let _ = pieces.write(shown);
}

// A number with its sign as a piece by itself.
pub fn print_signed(rt: &impl Print, word: &str, v: i32) {
    let sign = if v < 0 { "-" } else { "" };
    print(rt, format_args!("{word}{sign}{}", v.unsigned_abs()));
}

// ---- answers
pub fn print_refusal(rt: &impl Print, r: Refusal) {
    print(rt, format_args!(" refused {}", u8::from(r)));
}

pub fn print_picked(rt: &impl Print, answer: Result<PickAnswer, Refusal>) {
    match answer {
        Ok(PickAnswer::Moved) => print(rt, " moved"),
        Ok(PickAnswer::WaitingEmpty(c)) => print(rt, format_args!(" waiting-empty {c}")),
        Ok(PickAnswer::WaitingFull(c)) => print(rt, format_args!(" waiting-full {c}")),
        Ok(PickAnswer::Ended) => print(rt, " ended"),
        Err(r) => print_refusal(rt, r),
    }
}

pub fn print_fed(rt: &impl Print, answer: Result<(), Refusal>) {
    match answer {
        Ok(()) => print(rt, " accepted"),
        Err(r) => print_refusal(rt, r),
    }
}

pub fn print_taken(rt: &impl Print, answer: Result<Option<i32>, Refusal>) {
    match answer {
        Ok(Some(v)) => print_signed(rt, " value ", v),
        Ok(None) => print(rt, " end"),
        Err(r) => print_refusal(rt, r),
    }
}

pub fn print_reading(rt: &impl Print, answer: Result<Network, Refused>) {
    match answer {
        Ok(_) => print(rt, " accepted"),
        Err(refused) => {
            print_refusal(rt, refused.refusal);
            print(rt, format_args!(" place {}", refused.place));
        }
    }
}

pub fn print_written(rt: &impl Print, answer: Result<usize, Refusal>) {
    match answer {
        Ok(n) => print(rt, format_args!(" written {n}")),
        Err(r) => print_refusal(rt, r),
    }
}

// ---- buffers
pub fn print_bytes(rt: &impl Print, bytes: &[u8]) {
    print(rt, "; buffer");
    for byte in bytes {
        print(rt, format_args!(" {byte}"));
    }
}

fn hex_digit(n: u8) -> u8 {
    if n < 10 { b'0' + n } else { b'a' + n % 16 - 10 }
}

// Every byte as two digits, of a buffer of at most 4,700, in one piece.
pub fn print_hex(rt: &impl Print, bytes: &[u8]) {
    print(rt, "; buffer");
    print(rt, " ");
    let mut text = [[0u8; 2]; 4700];
    let Some(digits) = text.get_mut(..bytes.len()) else {
        return;
    };
    for (two, byte) in digits.iter_mut().zip(bytes) {
        *two = [hex_digit(*byte / 16), hex_digit(*byte % 16)];
    }
    let _ = rt.write_all(digits.as_flattened());
}

// ---- parts of a lane
fn word_of(condition: Condition) -> &'static str {
    match condition {
        Condition::Live => " live",
        Condition::Stopped => " stopped",
        Condition::Faulted => " faulted",
    }
}

pub fn print_standing(rt: &impl Print, standing: Standing) {
    let condition = word_of(standing.condition);
    print(
        rt,
        format_args!(
            " position {}{condition} moves {}",
            standing.position, standing.moves
        ),
    );
}

pub fn print_channel(rt: &impl Print, h: Channel) {
    let state = if h.closed { " closed" } else { " open" };
    print(
        rt,
        format_args!(
            " capacity {} oldest {} held {} peak {}{state}",
            h.capacity, h.oldest, h.held, h.peak
        ),
    );
}
