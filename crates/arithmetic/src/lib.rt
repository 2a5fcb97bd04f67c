// Arithmetic on signed 32-bit numbers: sum, difference and product wrap; quotient and remainder.
#![tactic(auto)]

ghost use Rattle.std.specs.Prelude.{◌≡◌, pos, negsuc};
ghost use Rattle.std.specs.Option.{option_map};
ghost use Rattle.arithmetic.specs.Wrap.{sum_of, difference_of, product_of};
ghost use Rattle.arithmetic.specs.Quotient.{told, quotient_of, remainder_of, Division};

pub fn sum(x: i32, y: i32) -> i32
    ensures { result ≡ sum_of x y }
{
    x.wrapping_add(y)
}

pub fn difference(x: i32, y: i32) -> i32
    ensures { result ≡ difference_of x y }
{
    x.wrapping_sub(y)
}

pub fn product(x: i32, y: i32) -> i32
    ensures { result ≡ product_of x y }
{
    x.wrapping_mul(y)
}

// The quotient rounded down, and the remainder that matches it, where the quotient is a number of 32 bits. The machine cuts toward zero: that is up, and
// one too many, where something is left over that lacks the divisor's sign. Its product with the divisor is then below zero, and one multiplication is
// cheaper than tests of both signs. (`div_euclid` rounds otherwise where the divisor is negative.)
fn round_down(x: i32, y: i32) -> (i32, i32)
    requires { (y ≡ pos 0 → ⊥) × (x ≡ negsuc 2147483647 → y ≡ negsuc 0 → ⊥) }
    ensures { Division x y result.0 result.1 }
{
    let quotient = x / y;
    let remainder = x % y;
    let opposed = (remainder as i64) * (y as i64) < 0;
    if opposed {
        let below = quotient - 1;
        let rest = remainder + y;
        (below, rest)
    } else {
        (quotient, remainder)
    }
}

// Quotient and remainder; None: the divisor is zero. By −1 the one quotient that is no number of 32 bits wraps.
fn divide(x: i32, y: i32) -> Option<(i32, i32)>
    ensures quotient { told (option_map (λ d. d.0) result) ≡ quotient_of x y }
    ensures remainder { told (option_map (λ d. d.1) result) ≡ remainder_of x y }
{
    match y {
        0 => None,
        -1 => Some((x.wrapping_neg(), 0)),
        _ => Some(round_down(x, y)),
    }
}

// None: the divisor is zero.
pub fn quotient(x: i32, y: i32) -> Option<i32>
    ensures { told result ≡ quotient_of x y }
{
    Some(divide(x, y)?.0)
}

// None: the divisor is zero.
pub fn remainder(x: i32, y: i32) -> Option<i32>
    ensures { told result ≡ remainder_of x y }
{
    Some(divide(x, y)?.1)
}
