// A run and a drive are lists of steps; how a drive ends, read off its course of states; demand 3 through both. Definitions and proofs alone.
#![tactic(auto)]
