// 01 "Cases at the edges", proved together as one table (specs/Edges.antt states it, proofs/Edges.antt proves it): no code.
#![tactic(auto)]
