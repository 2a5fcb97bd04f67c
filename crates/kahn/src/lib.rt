// What a lane sends does not hang on the order of the calls: the plain order, lists of calls and of steps, and the theorem. Definitions and proofs alone.
#![tactic(auto)]
