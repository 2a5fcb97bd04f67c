// Definitions and proofs alone: how many picks a lane can need.
#![tactic(auto)]
