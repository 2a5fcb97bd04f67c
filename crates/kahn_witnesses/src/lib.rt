// Boards, files and lists of calls that meet what the theorem asks for, computed; and a board on the quotient from before, which does not fit. Proofs alone.
#![tactic(auto)]
