// Changes of a lane by hand, as a script has them: to any values, since the calls must answer on every lane (docs/SCRIPTS.md).
use crate::script::{fits, nth_number, number_at, up_to, value_at};
use lane::Standing;
use process::{Channel, Condition};

// What is changed, by its number k, and to what. Each number is within its limit.
#[derive(Clone, Copy)]
pub enum Edit {
    Network {
        processes: usize,
        channels: usize,
    },
    Slot {
        k: usize,
        first: u16,
        count: u16,
    },
    Record {
        k: usize,
        sender: u8,
        receiver: u8,
        capacity: u16,
    },
    Byte(usize, u8),
    Process(usize, Standing),
    Register(usize, i32),
    Channel(usize, Channel),
    Cell(usize, i32),
    Accepted(u64),
}

fn network_of(words: &[u8]) -> Option<Edit> {
    Some(Edit::Network {
        processes: nth_number(words, 1)?,
        channels: nth_number(words, 2)?,
    })
}

fn slot_of(words: &[u8]) -> Option<Edit> {
    Some(Edit::Slot {
        k: up_to(words, 1, 15)?,
        first: nth_number(words, 3)?,
        count: nth_number(words, 5)?,
    })
}

fn record_of(words: &[u8]) -> Option<Edit> {
    Some(Edit::Record {
        k: up_to(words, 1, 31)?,
        sender: nth_number(words, 3)?,
        receiver: nth_number(words, 5)?,
        capacity: nth_number(words, 7)?,
    })
}

fn byte_of(words: &[u8]) -> Option<Edit> {
    Some(Edit::Byte(up_to(words, 1, 4063)?, nth_number(words, 2)?))
}

fn process_of(words: &[u8], condition: Condition) -> Option<Edit> {
    let standing = Standing {
        position: nth_number(words, 3)?,
        condition,
        moves: number_at(words, 6),
    };
    Some(Edit::Process(up_to(words, 1, 15)?, standing))
}

fn register_of(words: &[u8]) -> Option<Edit> {
    Some(Edit::Register(up_to(words, 1, 127)?, value_at(words, 2)))
}

fn channel_of(words: &[u8], closed: bool) -> Option<Edit> {
    let channel = Channel {
        capacity: nth_number(words, 3)?,
        oldest: nth_number(words, 5)?,
        held: nth_number(words, 7)?,
        peak: nth_number(words, 9)?,
        closed,
    };
    Some(Edit::Channel(up_to(words, 1, 31)?, channel))
}

fn cell_of(words: &[u8]) -> Option<Edit> {
    Some(Edit::Cell(up_to(words, 1, 8192)?, value_at(words, 2)))
}

// An edit of the lane's state.
fn state_of(words: &[u8]) -> Option<Edit> {
    if fits(words, b"process N position N live moves N") {
        process_of(words, Condition::Live)
    } else if fits(words, b"process N position N stopped moves N") {
        process_of(words, Condition::Stopped)
    } else if fits(words, b"process N position N faulted moves N") {
        process_of(words, Condition::Faulted)
    } else if fits(words, b"register N V") {
        register_of(words)
    } else if fits(words, b"channel N capacity N oldest N held N peak N open") {
        channel_of(words, false)
    } else if fits(words, b"channel N capacity N oldest N held N peak N closed") {
        channel_of(words, true)
    } else if fits(words, b"cell N V") {
        cell_of(words)
    } else if fits(words, b"accepted N") {
        Some(Edit::Accepted(number_at(words, 1)))
    } else {
        None
    }
}

// An edit in words; None where it has no form of the page, or a number past its limit.
pub fn edit_of(words: &[u8]) -> Option<Edit> {
    if fits(words, b"network N N") {
        network_of(words)
    } else if fits(words, b"slot N first N count N") {
        slot_of(words)
    } else if fits(words, b"record N sender N receiver N capacity N") {
        record_of(words)
    } else if fits(words, b"byte N N") {
        byte_of(words)
    } else {
        state_of(words)
    }
}
