// Stripping: which processes are left once every process that nobody left points to is taken away, again and again. They are the processes on
// rings.
ghost use Rattle.std.specs.Prelude.{◌≡◌, ◌≤◌, ◌<◌, ◌↔◌, IsTrue, ℕ, get_or, replicate};
ghost use Rattle.base.specs.Lists.{table};
ghost use Rattle.rings.specs.Left.{pointers, left_after, left_of};
ghost use Rattle.rings.specs.Arrays.{points_in};

// How many processes point to each number that a byte can be, 255 for nobody among them: so no pointing has to be tested. The numbers are lent: handed back,
// they would be copied.
fn count_pointers(points: &[u8; 16], count: usize, pointing: &mut [u8; 256])
    requires { (count ≤ 16) × (pointing.old ≡ replicate 256 0) }
    ensures { pointing.new ≡ table 256 (pointers (points_in points.now count) count (left_after (points_in points.now count) count 0)) }
{
    for p in 0..count {
        pointing[usize::from(points[p])] += 1;
    }
}

// Takes away every process that nobody left points to, again and again: from how many processes point to each to how many of those left do. A process
// goes at its turn, where nobody left points to it; after it the one that it pointed to, where nobody else left points to that one and its turn is past.
fn strip(points: &[u8; 16], count: usize, pointing: &mut [u8; 256])
    requires { (count ≤ 16) × (pointing.old ≡ table 256 (pointers (points_in points.now count) count (left_after (points_in points.now count) count 0))) }
    ensures { pointing.new ≡ table 256 (pointers (points_in points.now count) count (left_of (points_in points.now count) count)) }
{
    for start in 0..count {
        if pointing[start] == 0 {
            let mut at = start;
            // It follows pointings: there is no range to go over.
            loop {
                at = usize::from(points[at]);
                pointing[at] -= 1;
                if start < at || pointing[at] != 0 {
                    break;
                }
            }
        }
    }
}

// Each of sixteen is pointed to. All are looked at, and what that leaves is compared at once.
fn all_pointed(pointing: &[u8; 256]) -> bool
    ensures { IsTrue result ↔ ((p : ℕ) → p < 16 → 1 ≤ get_or pointing.now p 0) }
{
    let mut alone = [false; 16];
    for p in 0..16 {
        alone[p] = pointing[p] == 0;
    }
    alone == [false; 16]
}

// Which processes are left: those that one left points to. Where each of sixteen is pointed to, nothing is stripped.
pub fn left_of(points: &[u8; 16], count: usize) -> [bool; 16]
    requires { count ≤ 16 }
    ensures { result ≡ table 16 (left_of (points_in points.now count) count) }
{
    let mut pointing = [0; 256];
    count_pointers(points, count, &mut pointing);
    if all_pointed(&pointing) {
        return [true; 16];
    }
    strip(points, count, &mut pointing);
    let mut left = [false; 16];
    for p in 0..16 {
        left[p] = pointing[p] != 0;
    }
    left
}
