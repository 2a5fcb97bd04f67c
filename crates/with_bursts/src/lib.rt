// Lists of calls with bursts among them: each burst is the list of its single feeds, so demand 3 holds with bursts. Definitions and proofs alone.
#![tactic(auto)]
