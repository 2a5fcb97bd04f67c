// What a bench plays: the definitions of its rule, the law that its listing fits, and what a bench holds. The functions that play stand in the crates
// above.
#![tactic(auto)]

ghost use Rattle.outer_ends.specs.Outer.{Outer};

use lane::SoundLane;

// The channels with an end at the outside, as `outer_ends::outer_after` lists them: the first, and for each channel the first after it.
#[derive(Clone, Copy)]
pub struct Ends {
    pub first: usize,
    pub after: [u8; 32],
}

// What a bench holds between two pick bytes: the lane and its cells; the input, with the next record of each channel; for each channel whether its end
// was given. The channels from and to the outside are listed once.
#[derive(Drop)]
pub struct Bench<'a> {
    pub sound: SoundLane,
    pub cells: [i32; 8192],
    pub input: &'a [u8],
    pub next: [usize; 32],
    pub given: [bool; 32],
    pub inputs: Ends,
    pub outputs: Ends,
    ghost from_outside: { Outer sound.lane.network.sender sound.lane.network.channels inputs.first inputs.after },
    ghost to_outside: { Outer sound.lane.network.receiver sound.lane.network.channels outputs.first outputs.after },
}
