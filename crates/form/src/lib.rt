// The form of an image, 01 "Archive image" and 02 E2, and what writing, restoring and a reader make of one, as definitions (specs/) with their laws (proofs/): no code.
#![tactic(auto)]
