// Document 01's proved examples: a table and its theorem. Definitions and proofs alone.
#![tactic(auto)]
