// The rules of 01 "The cache", "One step of a tracker" and "What is refused", as definitions (specs/) with their laws (proofs/): no code.
#![tactic(auto)]
