// What the crates above share: the refusals of document 01 with their numbers, and tests made in order,
// whose answer is the first place that fails.
#![tactic(auto)]

ghost use Rattle.std.specs.Prelude.{◌≡◌, cond, ◌-◌, ◌≤◌, length};
ghost use Rattle.base.specs.Refusals.{number_of};
ghost use Rattle.base.specs.Tests.{first_bad, is_zero};

// The refusals of the table in document 01, in its order: 1 to 17.
#[derive(Clone, Copy, PartialEq, Eq)]
pub enum Refusal {
    Length,
    Check,
    Header,
    Slot,
    Record,
    Zero,
    Instruction,
    Absent,
    Inside,
    Full,
    Closed,
    Empty,
    NoRing,
    Ceiling,
    Buffer,
    Unsound,
    Input,
}

// The number of a refusal.
impl From<Refusal> for u8 {
    ghost from_gives = { λ r n. n ≡ number_of r };

    fn from(r: Refusal) -> u8
        ensures { result ≡ number_of r }
    {
        match r {
            Refusal::Length => 1,
            Refusal::Check => 2,
            Refusal::Header => 3,
            Refusal::Slot => 4,
            Refusal::Record => 5,
            Refusal::Zero => 6,
            Refusal::Instruction => 7,
            Refusal::Absent => 8,
            Refusal::Inside => 9,
            Refusal::Full => 10,
            Refusal::Closed => 11,
            Refusal::Empty => 12,
            Refusal::NoRing => 13,
            Refusal::Ceiling => 14,
            Refusal::Buffer => 15,
            Refusal::Unsound => 16,
            Refusal::Input => 17,
        }
    }
}

// 1 unless it is so. Tests that are all made, right or wrong, lay these over one another: the compiler can then make several at once.
pub fn unless(right: bool) -> u8
    ensures { result ≡ cond right 0 1 }
{
    u8::from(!right)
}

// The first byte from a on and before e that is not zero. Public for the crates above, which look only inside their slices.
#[tactic(auto, using(crate::proofs::Tests::in_order))]
pub fn zeros(s: &[u8], a: usize, e: usize) -> Result<(), usize>
    requires { e ≤ length s.now }
    ensures { result ≡ first_bad (is_zero s.now) a (e - a) }
{
    for i in a..e {
        if s[i] != 0 {
            return Err(i);
        }
    }
    Ok(())
}
