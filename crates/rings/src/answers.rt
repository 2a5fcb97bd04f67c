// What the search answers.
ghost use Rattle.std.specs.Prelude.{◌≤◌};

// A ring, from its lowest process on, which stand in the first places, and the channel of its full waits that grows.
#[derive(Clone, Copy, PartialEq, Eq)]
pub struct Ring {
    pub members: [u8; 16],
    pub length: usize,
    pub channel: usize,
    ghost short: { length ≤ 16 },
}

// Why nothing is relieved: no ring has a full wait, or the full waits of all rings are at 256, the largest capacity.
#[derive(Clone, Copy, PartialEq, Eq)]
pub enum Unrelieved {
    NoRing,
    Ceiling,
}
