// The lines of a script of calls, read (docs/SCRIPTS.md): for programs. Of most functions nothing is promised but that they are safe and end; what a
// program prints for a line is tested.
#![tactic(auto)]

pub mod edits;
pub mod lines;
pub mod script;
