// The search for the ring to relieve, on the waits of all processes: it looks only at those that stripping leaves.
#![tactic(auto)]

mod answers;
mod strip;

ghost use Rattle.std.specs.Prelude.{◌≡◌, not, ◌&&◌, ◌≤◌, ◌<◌, eqb, ltb, length, get_or, take, replicate, IsTrue, ◌↔◌};
ghost use Rattle.base.specs.Lists.{table};
ghost use Rattle.rings.specs.Rings.{OnRing, ring_of, least, lesser, search};
ghost use Rattle.rings.specs.Left.{left_of};
ghost use Rattle.rings.specs.Arrays.{points_in, number_in, found_of, refusal_of};

pub use answers::{Ring, Unrelieved};
use base::Refusal;

impl From<Unrelieved> for Refusal {
    ghost from_gives = { λ u r. r ≡ refusal_of u };

    fn from(u: Unrelieved) -> Refusal
        ensures { result ≡ refusal_of u }
    {
        match u {
            Unrelieved::NoRing => Refusal::NoRing,
            Unrelieved::Ceiling => Refusal::Ceiling,
        }
    }
}

// Of two full waits the first is the one to relieve: the smaller capacity, the lower number on a tie. A capacity of 0 stands for none.
fn lesser(capacity: u16, channel: u8, other: u16, rival: u8) -> bool
    ensures { result ≡ lesser capacity channel other rival }
{
    // One test after the other, each with its own way out: joined by && and || they cost the walk nine instructions a step more.
    if capacity == 0 {
        return false;
    }
    if other == 0 {
        return true;
    }
    if capacity == other {
        return channel < rival;
    }
    capacity < other
}

// A full wait on a channel below a limit.
fn below(capacity: u16, limit: u16) -> bool
    ensures { result ≡ (not (eqb capacity 0) && ltb capacity limit) }
{
    capacity != 0 && capacity < limit
}

// The ring to relieve: from each process that is left, in turn, a walk along the pointings, which leads back to it, until one is on a ring with a
// full wait below 256. A ring whose full waits are all at 256, the largest capacity, is passed over and remembered.
fn first_ring(
    points: &[u8; 16],
    full: &[u16; 16],
    channel: &[u8; 16],
    left: &[bool; 16],
    count: usize,
) -> Result<Ring, Unrelieved>
    requires { (count ≤ 16) × (left.now ≡ table 16 (left_of (points_in points.now count) count)) }
    ensures { found_of result ≡ search (points_in points.now count) (number_in full.now) (number_in channel.now) count }
{
    let mut ceiling = false;
    'search: {
        for start in 0..count {
            if !left[start] {
                continue;
            }
            let mut members = [0u8; 16];
            let mut length: usize = 0;
            let mut at = start;
            let mut least = full[start];
            let mut grown = channel[start];
            // It follows pointings: there is no range to go over.
            loop {
                members[length] = at as u8;
                length += 1;
                at = usize::from(points[at]);
                if at == start {
                    if below(least, 256) {
                        let channel = usize::from(grown);
                        break 'search Ok(Ring {
                            members,
                            length,
                            channel,
                        });
                    }
                    break;
                }
                if lesser(full[at], channel[at], least, grown) {
                    least = full[at];
                    grown = channel[at];
                }
            }
            ceiling |= below(least, 257);
        }
        Err(if ceiling {
            Unrelieved::Ceiling
        } else {
            Unrelieved::NoRing
        })
    }
}

// No process has a full wait.
fn none_full(full: &[u16; 16]) -> bool
    ensures { IsTrue result ↔ (full.now ≡ replicate 16 0) }
{
    *full == [0; 16]
}

// The search: where no process has a full wait nothing is searched for. Three arrays, with 255 for nobody (the file's number for the outside) and 0 for no full
// wait: the definitions `search` and `pointers` have them so. Public for relief, which has at most 16 processes.
pub fn search(
    points: &[u8; 16],
    full: &[u16; 16],
    channel: &[u8; 16],
    count: usize,
) -> Result<Ring, Unrelieved>
    requires { count ≤ 16 }
    ensures { found_of result ≡ search (points_in points.now count) (number_in full.now) (number_in channel.now) count }
{
    if none_full(full) {
        return Err(Unrelieved::NoRing);
    }
    let left = strip::left_of(points, count);
    first_ring(points, full, channel, &left, count)
}
