// The text of a script: lines of words, with one space between two of them.
ghost use Rattle.std.specs.Prelude.{◌≡◌, ◌≤◌, ◌==◌, length, drop, IfSome};
ghost use Rattle.std.specs.List.{slice_split};

use std::num::ParseIntError;
use std::str;
use std::str::FromStr;

// The place of the next such byte from a place on, or the end of the text.
pub fn next(text: &[u8], at: usize, byte: u8) -> usize
    requires { at ≤ length text.now }
    ensures { (at ≤ result) × (result ≤ length text.now) }
{
    text[at..]
        .iter()
        .position(|b| *b == byte)
        .map_or(text.len(), |k| at + k)
}

// The line from a place on.
pub fn rest(line: &[u8], at: usize) -> &[u8] {
    line.get(at..).unwrap_or(line)
}

// The n-th word; an empty one where there are fewer.
pub fn word(line: &[u8], n: usize) -> &[u8] {
    line.split(|b| *b == b' ').nth(n).unwrap_or(b"")
}

// A word as a number of a type, so within the type's limits: digits, with a minus before them where the type has a sign, but with no plus, which `parse`
// would take.
pub fn number<T: FromStr<Err = ParseIntError>>(word: &[u8]) -> Option<T> {
    if word.starts_with(b"+") {
        return None;
    }
    str::from_utf8(word).ok()?.parse().ok()
}

// The n-th word as a number of a type.
pub(crate) fn nth_number<T: FromStr<Err = ParseIntError>>(line: &[u8], n: usize) -> Option<T> {
    number(word(line, n))
}

// The n-th word as a number, for a line that has one there.
pub fn number_at(line: &[u8], n: usize) -> u64 {
    nth_number(line, n).unwrap_or(0)
}

pub fn value_at(line: &[u8], n: usize) -> i32 {
    nth_number(line, n).unwrap_or(0)
}

// The n-th word as a number up to a limit.
pub(crate) fn up_to(line: &[u8], n: usize, most: usize) -> Option<usize> {
    nth_number(line, n).filter(|k| *k <= most)
}

// A word has a form: N is a number below 2^64, V a value, and each other word stands for itself.
fn word_fits(word: &[u8], form: &[u8]) -> bool {
    if form == b"N".as_slice() {
        number::<u64>(word).is_some()
    } else if form == b"V".as_slice() {
        number::<i32>(word).is_some()
    } else {
        word == form
    }
}

// A line has a form, word by word. A `match` on a slice of words with byte strings was tried: the check did not end in ten minutes.
pub fn fits(line: &[u8], form: &[u8]) -> bool {
    let mut forms = form.split(|b| *b == b' ');
    for word in line.split(|b| *b == b' ') {
        let Some(form) = forms.next() else {
            return false;
        };
        if !word_fits(word, form) {
            return false;
        }
    }
    forms.next().is_none()
}

// How many words a line has after its first ones.
fn words_after(line: &[u8], skipped: usize) -> usize
    ensures { result ≡ length (drop skipped (slice_split (λ b. b == 32) line.now)) }
{
    line.split(|b| *b == b' ').skip(skipped).count()
}

// The numbers of a line after its first words, put at the front of a buffer; None where one is no number of the type, or where there are too many.
pub fn numbers_of<'a, T: FromStr<Err = ParseIntError> + Copy>(
    line: &[u8],
    skipped: usize,
    numbers: &'a mut [T],
) -> Option<&'a [T]>
    ensures words { IfSome result (λ r. length r.now ≡ length (drop skipped (slice_split (λ b. b == 32) line.now))) }
    ensures room { IfSome result (λ r. length r.now ≤ length numbers.old) }
{
    let front = numbers.get_mut(..words_after(line, skipped))?;
    for (place, word) in front
        .iter_mut()
        .zip(line.split(|b| *b == b' ').skip(skipped))
    {
        *place = number(word)?;
    }
    Some(front)
}

// One or more digits, as a number below 2^64. A line of many numbers is looked at before it is read, and this costs less than half of `parse`.
fn digits(word: &[u8]) -> Option<u64> {
    if word.is_empty() {
        return None;
    }
    let mut n: u64 = 0;
    for byte in word {
        let digit = byte.wrapping_sub(b'0');
        if 9 < digit {
            return None;
        }
        n = n.checked_mul(10)?.checked_add(u64::from(digit))?;
    }
    Some(n)
}

// A word is a number up to `most`, or with a minus one down to that far below zero; without `below` it has no minus.
fn lies_within(word: &[u8], below: Option<u64>, most: u64) -> bool {
    match (word.strip_prefix(b"-"), below) {
        (None, _) => digits(word).is_some_and(|n| n <= most),
        (Some(size), Some(below)) => digits(size).is_some_and(|n| n <= below),
        (Some(_), None) => false,
    }
}

// Whether so many words stand there at most, and each is a number within limits.
pub(crate) fn has_numbers(
    line: &[u8],
    skipped: usize,
    count: usize,
    below: Option<u64>,
    most: u64,
) -> bool {
    line.split(|b| *b == b' ')
        .skip(skipped)
        .enumerate()
        .all(|(n, word)| n < count && lies_within(word, below, most))
}
