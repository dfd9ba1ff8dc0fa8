// Demand 3, as a theorem: this crate has no code. The claim is specs/Demand3.antt, over the trees of specs/Tree.antt and the ways of
// specs/Way.antt.
#![tactic(auto)]
