// The blocks of a lane file: the tests 1 to 3 of document 01 in their order, and the network that the blocks of a file hold.
#![tactic(auto)]

ghost use Rattle.std.specs.Prelude.{◌≡◌, ◌+◌, ◌*◌, ◌%◌, ◌≤◌, ◌<◌, length, get_or};
ghost use Rattle.base.specs.Tests.{need};
ghost use Rattle.base.specs.Lists.{table, word_at};
ghost use Rattle.lane_file.specs.Read.{code_place, network_of, length_right, check_right, checks, header, accepted, told, unless};

use base::Refusal;
use lane_file::Refused;
use network::Network;

// 1: the length of a file.
fn length_right(n: usize) -> bool
    ensures { result ≡ length_right n }
{
    let blocks = n / 512;
    n % 512 == 0 && 2 <= blocks && blocks <= 9
}

// A number of two bytes.
fn word(s: &[u8], k: usize) -> u16
    requires { k + 1 < length s.now }
    ensures { result ≡ word_at s.now k }
{
    256 * u16::from(s[k]) + u16::from(s[k + 1])
}

// 2: the check of block k.
fn check_right(s: &[u8], k: usize) -> bool
    requires { 512 * k + 512 ≤ length s.now }
    ensures { result ≡ check_right s.now k }
{
    let at = 512 * k;
    let end = at + 510;
    let check = block_check::check(&s[at..end]);
    word(s, at + 510) == check
}

// The first block whose check is wrong.
#[tactic(auto, using(base::proofs::Tests::in_order), unfolding(lane_file::specs::Read::checks))]
fn checks(s: &[u8]) -> Result<(), usize>
    ensures { result ≡ checks s.now }
{
    let blocks = s.len() / 512;
    for k in 0..blocks {
        if !check_right(s, k) {
            return Err(k);
        }
    }
    Ok(())
}

// A test that has one place.
fn need(right: bool, place: usize) -> Result<(), usize>
    ensures { result ≡ need right place }
{
    if right { Ok(()) } else { Err(place) }
}

// 3: the first of the bytes 0 to 5 that is wrong.
#[tactic(auto, unfolding(lane_file::specs::Read::header))]
fn header(s: &[u8]) -> Result<(), usize>
    requires { 1024 ≤ length s.now }
    ensures { result ≡ header s.now }
{
    need(s[0] == 0x4C, 0)?;
    need(s[1] == 0x4E, 1)?;
    need(s[2] == 1, 2)?;
    need(1 <= s[3] && s[3] <= 16, 3)?;
    need(1 <= s[4] && s[4] <= 32, 4)?;
    need(usize::from(s[5]) == s.len() / 512 - 1, 5)
}

// The tests 1 to 3, before a network is read.
pub fn opened(s: &[u8]) -> Result<(), Refused>
    ensures { told result ≡ unless 1 (need (length_right (length s.now)) 0) (unless 2 (checks s.now) (unless 3 (header s.now) accepted)) }
{
    if !length_right(s.len()) {
        return Err(Refused {
            refusal: Refusal::Length,
            place: 0,
        });
    }
    checks(s).map_err(|place| Refused {
        refusal: Refusal::Check,
        place,
    })?;
    header(s).map_err(|place| Refused {
        refusal: Refusal::Header,
        place,
    })
}

// A word of each of so many slots or records, from a place on.
fn words<const N: usize>(s: &[u8], at: usize) -> [u16; N]
    requires { at + 4 * N ≤ length s.now + 2 }
    ensures { result ≡ table N (λ k. word_at s.now (at + 4 * k)) }
{
    let mut a = [0u16; N];
    for k in 0..N {
        a[k] = word(s, at + 4 * k);
    }
    a
}

// A byte of each channel record, from a place on.
fn record_bytes(s: &[u8], at: usize) -> [u8; 32]
    requires { at + 125 ≤ length s.now }
    ensures { result ≡ table 32 (λ c. get_or s.now (at + 4 * c) 0) }
{
    let mut a = [0u8; 32];
    for c in 0..32 {
        a[c] = s[at + 4 * c];
    }
    a
}

// The code, 508 bytes of it from each code block.
fn code(s: &[u8]) -> [u8; 4064]
    requires { (length s.now % 512 ≡ 0) × (1024 ≤ length s.now) × (length s.now ≤ 4608) }
    ensures { result ≡ table 4064 (λ j. get_or s.now (code_place j) 0) }
{
    let blocks = s.len() / 512;
    let mut code = [0u8; 4064];
    for k in 1..blocks {
        let to = 508 * (k - 1);
        let from = 512 * k;
        code[to..to + 508].copy_from_slice(&s[from..from + 508]);
    }
    code
}

// The network of a file. Public for `lane_reader::read`, which reads it only where the tests 1 to 3 have passed: the length is right there.
pub fn network_of(s: &[u8]) -> Network
    requires { (length s.now % 512 ≡ 0) × (1024 ≤ length s.now) × (length s.now ≤ 4608) }
    ensures { result ≡ network_of s.now }
{
    Network {
        processes: usize::from(s[3]),
        channels: usize::from(s[4]),
        first: words(s, 8),
        count: words(s, 10),
        sender: record_bytes(s, 72),
        receiver: record_bytes(s, 73),
        capacity: words(s, 74),
        code: code(s),
    }
}
