// A channel of a lane and its operations, the condition of a process, and what an instruction did.
#![tactic(auto)]

ghost use Rattle.std.specs.Prelude.{◌≡◌, ◌<◌};
ghost use Rattle.process.specs.Channels.{put_one, get_one, close_one, empty_one, enlarge_one};
ghost use Rattle.process.specs.Want.{counted};

#[derive(Clone, Copy, PartialEq, Eq)]
pub enum Condition {
    Live,
    Stopped,
    Faulted,
}

// A channel: its capacity, the place of the oldest message (0 to 255), the number held, the most held since the start (its high-water mark), closed or
// open.
#[derive(Clone, Copy, PartialEq, Eq)]
pub struct Channel {
    pub capacity: u16,
    pub oldest: u16,
    pub held: u16,
    pub peak: u16,
    pub closed: bool,
}

// What an instruction did, for the definitions: the code of a pick makes none of these. The process moved; moved and a message is to be stored; moved
// and ended; waits at its channel, which is empty or full; had ended before.
#[derive(Drop)]
pub enum Outcome {
    Moved,
    Sent(i32),
    Halted,
    WaitEmpty,
    WaitFull,
    Ended,
}

impl Channel {
    // One message more; only here can more be held than ever before. Public for the crates above, which know that there is room.
    pub fn put(mut self) -> Channel
        requires { self.held < self.capacity }
        ensures { result ≡ put_one self }
    {
        self.held = self.held + 1;
        if self.peak < self.held {
            self.peak = self.held;
        }
        self
    }

    // The oldest message is gone. Public for the crates above, which know that one is held.
    pub fn get(mut self) -> Channel
        requires { (0 < self.held) × (self.oldest < 256) }
        ensures { result ≡ get_one self }
    {
        self.oldest = (self.oldest + 1) % 256;
        self.held = self.held - 1;
        self
    }

    pub fn close(mut self) -> Channel
        ensures { result ≡ close_one self }
    {
        self.closed = true;
        self
    }

    // No message is held; the place stays.
    pub fn empty(mut self) -> Channel
        ensures { result ≡ empty_one self }
    {
        self.held = 0;
        self
    }

    // Room for one message more. Public for the crates above, which know that the capacity is below 256.
    pub fn enlarge(mut self) -> Channel
        requires { self.capacity < 256 }
        ensures { result ≡ enlarge_one self }
    {
        self.capacity = self.capacity + 1;
        self
    }
}

// One more, which stays at the largest.
pub fn counted(n: u64) -> u64
    ensures { result ≡ counted n }
{
    if n < 18446744073709551615 { n + 1 } else { n }
}
