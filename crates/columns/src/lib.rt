// What the cells of a table ask of its columns and rows, and what an offer gives them: definitions and proofs only.
#![tactic(auto)]
