// The channels of a network with an end at the outside, listed so that a loop goes from one to the next.
#![tactic(auto)]

ghost use Rattle.std.specs.Prelude.{ℕ, ◌≤◌, ◌≡◌, length, get_or};
ghost use Rattle.outer_ends.specs.Outer.{Outer};

// The first channel with this end at the outside, and into the array for each channel the first after it; the number of channels where there is
// none. What stands beyond the channels stays. Public for the bench, whose loops pass over the channels inside.
pub fn outer_after(ends: &[u8; 32], channels: usize, after: &mut [u8; 32]) -> usize
    requires { (channels ≤ 32) × (length after.old ≡ 32) }
    ensures { Outer ends.now channels result after.new × (length after.new ≡ 32) × ((d : ℕ) → channels ≤ d → get_or after.new d 0 ≡ get_or after.old d 0) }
{
    let mut next = channels;
    for c in (0..channels).rev() {
        after[c] = next as u8;
        if ends[c] == 255 {
            next = c;
        }
    }
    next
}
