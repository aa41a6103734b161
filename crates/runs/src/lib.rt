// The calls of a sheet, runs of calls, and the laws that hold after every run: definitions and proofs only.
#![tactic(auto)]
