// The lines of a bench listing, written into a lent buffer.
#![tactic(auto)]

ghost use Rattle.std.specs.Prelude.{◌+◌, ◌≤◌, ◌<◌, length};
ghost use Rattle.listing.specs.Listing.{HasRoom, Wrote};
ghost use Rattle.listing.specs.Number.{number};
ghost use Rattle.listing.specs.Text.{integer, word, line_text, out, end, grow, proc};

// How a process stands at the end: it stopped or faulted, would wait at an empty or a full channel, or would move.
#[derive(Clone, Copy, PartialEq, Eq)]
pub enum Status {
    Stop,
    Fault,
    Empty,
    Full,
    Run,
}

// The buffer that a listing is written into, and the place after what is written. The fields are public: the bench begins a listing, and reads how long it
// has become.
#[derive(Drop)]
pub struct Listing<'a> {
    pub buffer: &'a mut [u8],
    pub at: usize,
}

impl Listing<'_> {
    // A text as it is.
    fn put(&mut self, text: &[u8])
        requires { HasRoom text.now self.old }
        ensures { Wrote text.now self.old self.new }
    {
        let end = self.at + text.len();
        self.buffer[self.at..end].copy_from_slice(text);
        self.at = end;
    }

    // A number in decimal.
    fn put_decimal(&mut self, n: u64)
        requires { HasRoom (number n) self.old }
        ensures { Wrote (number n) self.old self.new }
    {
        let mut digits = [0u8; 20];
        let k = io::decimal(n, &mut digits);
        self.put(&digits[..k]);
    }

    // A signed number, with a minus where it is negative.
    fn put_integer(&mut self, v: i32)
        requires { HasRoom (integer v) self.old }
        ensures { Wrote (integer v) self.old self.new }
    {
        let size = u64::from(v.unsigned_abs());
        if v < 0 {
            self.put(b"-");
        }
        self.put_decimal(size);
    }

    // The word for how a process stands.
    fn put_word(&mut self, status: Status)
        requires { HasRoom (word status) self.old }
        ensures { Wrote (word status) self.old self.new }
    {
        match status {
            Status::Stop => self.put(b"stop"),
            Status::Fault => self.put(b"fault"),
            Status::Empty => self.put(b"empty"),
            Status::Full => self.put(b"full"),
            Status::Run => self.put(b"run"),
        }
    }

    // `out channel value`.
    #[tactic(auto, using(crate::proofs::Lines::out_length))]
    pub fn output(&mut self, c: usize, v: i32)
        requires channel { c < 32 }
        requires room { HasRoom (line_text (out c v)) self.old }
        ensures { Wrote (line_text (out c v)) self.old self.new }
    {
        self.put(b"out ");
        self.put_decimal(c as u64);
        self.put(b" ");
        self.put_integer(v);
        self.put(b"\n");
    }

    // `end channel`.
    #[tactic(auto, using(crate::proofs::Lines::end_length))]
    pub fn end(&mut self, c: usize)
        requires channel { c < 32 }
        requires room { HasRoom (line_text (end c)) self.old }
        ensures { Wrote (line_text (end c)) self.old self.new }
    {
        self.put(b"end ");
        self.put_decimal(c as u64);
        self.put(b"\n");
    }

    // `grow channel capacity`.
    #[tactic(auto, using(crate::proofs::Lines::grow_length))]
    pub fn grow(&mut self, c: usize, capacity: u16)
        requires channel { c < 32 }
        requires capacity { capacity ≤ 256 }
        requires room { HasRoom (line_text (grow c capacity)) self.old }
        ensures { Wrote (line_text (grow c capacity)) self.old self.new }
    {
        self.put(b"grow ");
        self.put_decimal(c as u64);
        self.put(b" ");
        self.put_decimal(u64::from(capacity));
        self.put(b"\n");
    }

    // `proc number condition moves`.
    #[tactic(auto, using(crate::proofs::Lines::proc_length))]
    pub fn proc(&mut self, p: usize, status: Status, moves: u64)
        requires process { p < 16 }
        requires room { HasRoom (line_text (proc p status moves)) self.old }
        ensures { Wrote (line_text (proc p status moves)) self.old self.new }
    {
        self.put(b"proc ");
        self.put_decimal(p as u64);
        self.put(b" ");
        self.put_word(status);
        self.put(b" ");
        self.put_decimal(moves);
        self.put(b"\n");
    }
}
