// The highest filling of a channel (document 02, request 6): after any list of calls from the start it is the most that the channel held in any state on the
// way. Definitions and proofs alone.
#![tactic(auto)]
