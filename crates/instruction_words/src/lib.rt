// The two tables of words that are added to an instruction, by its opcode and by its field b (specs/Words.antt). They are made in place, which spares
// a copy of each. Public for the test of a code.
#![tactic(auto)]

ghost use Rattle.std.specs.Prelude.{◌≡◌, ◌+◌, ◌-◌, ◌≤◌, ◌<◌, replicate};
ghost use Rattle.base.specs.Lists.{table};
ghost use Rattle.instruction_words.specs.Words.{room, no_opcode, opcode_word, long_word, plain_word, channel_word};

// How far a process number is from 30, which stands for the outside.
fn below(e: u8) -> u64
    ensures { result ≡ 30 - e }
{
    u64::from(30u8.saturating_sub(e))
}

// What is added where b is not short, in a table of zeros.
pub fn long_words(words: &mut [u64; 256])
    requires { words.old ≡ replicate 256 0 }
    ensures { words.new ≡ table 256 long_word }
{
    words[128..].fill(0x1FF800000);
}

// What is added for each value of b where there are no channels; those that are not short come before.
pub fn plain_words(words: &mut [u64; 256])
    requires { words.old ≡ table 256 long_word }
    ensures { words.new ≡ table 256 plain_word }
{
    let mut word: u64 = 0x2041003C0000001E;
    for b in 0..32 {
        words[b] = word;
        word += 0xFFFFFF0000;
    }
}

// What is added for each value of b; the channels come after the rest. The ends are lent as arrays and no network is: this crate stands on `base` alone, and
// its tables know no network.
pub fn channel_words<'a>(
    words: &mut [u64; 256],
    receiver: &'a [u8; 32],
    sender: &'a [u8; 32],
    channels: usize,
)
    requires { (channels ≤ 32) × (words.old ≡ table 256 plain_word) }
    ensures { words.new ≡ table 256 (channel_word receiver.now sender.now channels) }
{
    for b in 0..channels {
        let into = 0xFFFFFFFFFFFF * below(receiver[b]);
        let out = 0x3FFFFE00000000 * below(sender[b]);
        words[b] = words[b] + into + out;
    }
}

// What is added to the fields a, b and c.
fn room(a: u64, b: u64, c: u64) -> u64
    requires { (a < 65536) × (b ≤ 256) × (c ≤ 256) }
    ensures { result ≡ room a b c }
{
    256 * a + 0x1000000 * c + 0x10000000000 * b
}

// What is added for each opcode in process 0, if that has 256 instructions, in a table of words of no opcode.
pub fn opcode_words(words: &mut [u64; 256])
    requires { words.old ≡ replicate 256 no_opcode }
    ensures { words.new ≡ table 256 (opcode_word 256 0) }
{
    words[0] = 0x6000000000000000 + room(0x7F07, 63, 255);
    words[1] = 0;
    words[2] = 0x5FFFFFFFFFFFFFFE + room(0, 56, 255);
    words[3] = 0x5FFFFFFFFFFFFFFD + room(0, 56, 248);
    words[4] = 0x5FFFFFFFFFFFFFFC + room(0, 56, 248);
    words[5] = 0x5FFFFFFFFFFFFFFB + room(0, 56, 248);
    words[6] = 0x5FFFFFFFFFFFFFFA + room(0, 56, 248);
    words[7] = 0x5FFFFFFFFFFFFFF9 + room(0, 56, 248);
    words[8] = 0x5FFFFFFFFFFFFFF8 + room(0x7F07, 63, 0);
    words[9] = 0x5FFFFFFFFFFFFFF7 + room(0, 63, 0);
    words[10] = 0x5FFFFFFFFFFFFFF6 + room(0, 63, 0);
    words[11] = 0x6000000000000014;
    words[12] = 0x6000003DFFFFFFF4 + room(0, 0, 255);
    words[13] = 0x6000003DFFFFFFF3 + room(0x7F07, 0, 255);
}

// From a process's words to those of one with the same number and another count. The number is named for the contract.
pub fn count_words(words: &mut [u64; 256], p: usize, before: u64, count: u64)
    requires { (p < 16) × (before ≤ 256) × (count ≤ 256) × (words.old ≡ table 256 (opcode_word before p)) }
    ensures { words.new ≡ table 256 (opcode_word count p) }
{
    let more = 0x1000000 * before;
    let less = 0x1000000 * count;
    let jump = words[9] + more - less;
    words[8] = jump + 0x7F0701;
    words[9] = jump;
    words[10] = jump - 1;
    words[11] = words[11] + more - less;
}

// From a process's words to those of the next process, if that has the same count. Number and count are named for the contract.
pub fn next_words(words: &mut [u64; 256], p: usize, count: u64)
    requires { (p < 16) × (count ≤ 256) × (words.old ≡ table 256 (opcode_word count p)) }
    ensures { words.new ≡ table 256 (opcode_word count (p + 1)) }
{
    words[11] = words[11] + 0xFFFFFFFFFFFF;
    words[12] = words[12] + 0x3FFFFE00000000;
    words[13] = words[13] + 0x3FFFFE00000000;
}
