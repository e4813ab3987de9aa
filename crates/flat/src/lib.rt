// Demand 2: the answers are those of a flat row of tags. Definitions (specs/) and the proof (proofs/): no code.
#![tactic(auto)]
