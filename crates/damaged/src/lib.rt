// What a salvage takes of a damaged image and what it lists, 02 E8, as definitions (specs/) with their theorems (proofs/): no code.
#![tactic(auto)]
