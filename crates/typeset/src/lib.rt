// What texts and blocks are set to, and that nothing of them is lost: definitions and proofs only.
#![tactic(auto)]
