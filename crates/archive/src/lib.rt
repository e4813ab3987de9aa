// The theorems of the archive image; they stand in proofs/. 01 "Archive image".
#![tactic(auto)]
