// What flags tell, binary digits that are zero where all is right: of numbers laid over one another, and of digits side by side in one number.
// Definitions and proofs alone.
#![tactic(auto)]
