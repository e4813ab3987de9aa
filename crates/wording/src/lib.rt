// The words and the text of an answer, 01 "The replay program" and 02 E4, as definitions (specs/) with their laws (proofs/): no code.
#![tactic(auto)]
