// Prints the answers of the calls on a lane, and what a call changed (docs/SCRIPTS.md): for programs. Of its functions nothing is promised but that they
// are safe and end, and that a piece which standard output does not take stops nothing; what they print is tested.
#![tactic(auto)]

pub mod changes;
pub(crate) mod pieces;
pub mod shows;
