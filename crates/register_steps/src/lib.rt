// The instructions that touch registers alone, on the lent register file: what is stored, and what is left to do.
// They are public for `lent_steps`, which has shown what they require: the registers lie in the file.
#![tactic(auto)]

ghost use Rattle.std.specs.Prelude.{◌≡◌, Option, cond, ◌+◌, ◌≤◌, ◌<◌, ℤ, pos, get_or, set};
ghost use Rattle.arithmetic.specs.Quotient.{told};
ghost use Rattle.process.specs.Want.{signed16};
ghost use Rattle.register_steps.specs.Divides.{did_by, file_by};

use network::Instruction;

// What an instruction did, and so what is left to do: on to the next one; to a target; nothing, it waits, for a message or for room; an end, stopped or
// faulted.
#[derive(Clone, Copy, PartialEq, Eq)]
pub enum Did {
    On,
    To(u8),
    WaitEmpty,
    WaitFull,
    Stop,
    Fault,
}

// Register r of the process whose registers lie from a base on.
pub fn register(file: &[i32; 128], base: usize, r: u8) -> i32
    requires { (base ≤ 120) × (r < 8) }
    ensures { result ≡ get_or file.now (base + r) (pos 0) }
{
    file[base + r as usize]
}

// Register r becomes v.
pub fn assign(file: &mut [i32; 128], base: usize, r: u8, v: i32)
    requires { (base ≤ 120) × (r < 8) }
    ensures { file.new ≡ set file.old (base + r) v }
{
    file[base + r as usize] = v;
}

// The signed 16-bit number in b, c.
pub fn signed16(b: u8, c: u8) -> i32
    ensures { result ≡ signed16 b c }
{
    i32::from(i16::from_be_bytes([b, c]))
}

// Register a becomes what the operation makes of registers b and c. Where it makes nothing, the instruction faults and the registers stay.
pub fn operate<F: Fn(i32, i32) -> Option<i32>>(
    i: Instruction,
    file: &mut [i32; 128],
    base: usize,
    operation: F,
) -> Did
    requires in_file { (base ≤ 120) × (i.a < 8) × (i.b < 8) × (i.c < 8) }
    requires callable { F.IsAlwaysCallable operation }
    ensures { (made : Option ℤ) × F.post operation (get_or file.old (base + i.b) (pos 0)) (get_or file.old (base + i.c) (pos 0)) made × (result ≡ did_by (told made)) × (file.new ≡ file_by (told made) (base + i.a) file.old) }
{
    match operation(register(file, base, i.b), register(file, base, i.c)) {
        Some(v) => {
            assign(file, base, i.a, v);
            Did::On
        }
        None => Did::Fault,
    }
}

// To the target if the branch is taken, else on.
pub fn branch(taken: bool, target: u8) -> Did
    ensures { result ≡ cond taken (Did.To target) Did.On }
{
    if taken { Did::To(target) } else { Did::On }
}

#[cfg(test)]
mod tests {
    use super::*;
    use std::test::Fail;

    // Register 2 of the process at 8 by registers 0 and 1 of it.
    #[test]
    fn operates(rt: HostRuntime) -> Result<(), Fail> {
        let i = Instruction {
            op: 6,
            a: 2,
            b: 0,
            c: 1,
        };
        let mut file = [0; 128];
        assign(&mut file, 8, 0, -7);
        assert!(rt; operate(i, &mut file, 8, arithmetic::quotient) == Did::Fault);
        assert_eq!(rt; register(&file, 8, 2), 0);
        assign(&mut file, 8, 1, 2);
        assert!(rt; operate(i, &mut file, 8, arithmetic::quotient) == Did::On);
        assert_eq!(rt; register(&file, 8, 2), -4);
        assert!(rt; operate(i, &mut file, 8, |x, y| Some(arithmetic::product(x, y))) == Did::On);
        assert_eq!(rt; register(&file, 8, 2), -14);
        assert_eq!(rt; file[2], 0);
        Ok(())
    }
}
