// The demands of the person who asked, each in its own words and about the code's own calls: definitions (specs/) and their proofs (proofs/), no code.
#![tactic(auto)]
