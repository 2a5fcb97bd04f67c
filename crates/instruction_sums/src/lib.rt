// The sums of a code: each instruction weighed as one number, with what two tables add to it, one by its opcode and one by its field b (specs/Sums.antt).
// The sums of many instructions are laid over one another; a flag in any of them is a flag in all. No instruction is jumped on, which is what makes this
// quick, and none is named: `network::instructions` names the first wrong one.
#![tactic(auto)]

ghost use Rattle.std.specs.Prelude.{◌≡◌, ◌+◌, ◌*◌, ◌≤◌, ◌<◌};
ghost use Rattle.base.specs.Tests.{first_bad, is_good};
ghost use Rattle.network.specs.Code.{instruction_at};
ghost use Rattle.flags.specs.Clean.{clean};
ghost use Rattle.instruction_sums.specs.Sums.{weighed, sum_at, flags, clean_at, Small};

// A code, and the two tables of words that are added to its instructions, by the opcode and by the field b. The words leave room for the sums.
#[derive(Clone, Copy)]
pub struct Sums<'a> {
    pub code: &'a [u8; 4064],
    pub opcodes: &'a [u64; 256],
    pub channels: &'a [u64; 256],
    ghost room_by_opcode: { Small opcodes.now },
    ghost room_by_channel: { Small channels.now },
}

impl<'a> Sums<'a> {
    // Instruction i as one number.
    fn weigh(self, i: usize) -> u64
        requires { i < 1016 }
        ensures { (result ≡ weighed (instruction_at self.entry.code.now i)) × (result < 0x100000000) }
    {
        let at = 4 * i;
        let low = u64::from(self.code[at]) + 256 * u64::from(self.code[at + 1]);
        low + 0x10000 * u64::from(self.code[at + 2]) + 0x1000000 * u64::from(self.code[at + 3])
    }

    // Instruction i with what the tables add. That its opcode and its field b are read before it is weighed spares two instructions each time, and that the
    // words are added to its weight, and not it to them, one (docs/PERFORMANCE.md).
    fn sum(self, i: usize) -> u64
        requires { i < 1016 }
        ensures { result ≡ sum_at self.entry.code.now self.entry.opcodes.now self.entry.channels.now i }
    {
        let at = 4 * i;
        let op = usize::from(self.code[at]);
        let b = usize::from(self.code[at + 2]);
        self.weigh(i) + self.opcodes[op] + self.channels[b]
    }

    // The sums of two, of four, of eight instructions, laid over one another. Written out and no loop, for speed: sixteen instructions are one lap
    // (docs/PERFORMANCE.md).
    fn two(self, i: usize) -> u64
        requires { i + 2 ≤ 1016 }
        ensures { clean flags result ≡ is_good (first_bad (clean_at self.entry.code.now self.entry.opcodes.now self.entry.channels.now) i 2) }
    {
        self.sum(i) | self.sum(i + 1)
    }

    fn four(self, i: usize) -> u64
        requires { i + 4 ≤ 1016 }
        ensures { clean flags result ≡ is_good (first_bad (clean_at self.entry.code.now self.entry.opcodes.now self.entry.channels.now) i 4) }
    {
        self.two(i) | self.two(i + 2)
    }

    fn eight(self, i: usize) -> u64
        requires { i + 8 ≤ 1016 }
        ensures { clean flags result ≡ is_good (first_bad (clean_at self.entry.code.now self.entry.opcodes.now self.entry.channels.now) i 8) }
    {
        self.four(i) | self.four(i + 4)
    }

    // Of n times sixteen instructions from a start on.
    fn sixteens(self, start: usize, n: usize) -> u64
        requires { start + 16 * n ≤ 1016 }
        ensures { clean flags result ≡ is_good (first_bad (clean_at self.entry.code.now self.entry.opcodes.now self.entry.channels.now) start (16 * n)) }
    {
        let mut all: u64 = 0;
        for k in 0..n {
            let i = start + 16 * k;
            all = all | self.eight(i) | self.eight(i + 8);
        }
        all
    }

    // Of fewer than sixteen.
    fn few(self, start: usize, n: usize) -> u64
        requires { (n < 16) × (start + n ≤ 1016) }
        ensures { clean flags result ≡ is_good (first_bad (clean_at self.entry.code.now self.entry.opcodes.now self.entry.channels.now) start n) }
    {
        let mut all: u64 = 0;
        let mut i = start;
        if 8 <= n {
            all = self.eight(i);
            i += 8;
        }
        if 4 <= n % 8 {
            all = all | self.four(i);
            i += 4;
        }
        if 2 <= n % 4 {
            all = all | self.two(i);
            i += 2;
        }
        if n % 2 == 1 {
            all = all | self.sum(i);
        }
        all
    }

    // Of any number. Public for the test of a code.
    pub fn run(self, start: usize, n: usize) -> u64
        requires { start + n ≤ 1016 }
        ensures { clean flags result ≡ is_good (first_bad (clean_at self.entry.code.now self.entry.opcodes.now self.entry.channels.now) start n) }
    {
        let times = n / 16;
        let most = start + 16 * times;
        self.sixteens(start, times) | self.few(most, n % 16)
    }
}
