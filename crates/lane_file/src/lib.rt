// Lane files: reading one into a network, and writing a network's one file.
#![tactic(auto)]

use base::Refusal;

// Why a file is no network's, and the place of what is wrong: a block, a byte, a slot, a record or an instruction, as the refusal has it.
#[derive(Clone, Copy, PartialEq, Eq)]
pub struct Refused {
    pub refusal: Refusal,
    pub place: usize,
}
