// A journal that is replayed is a tree of demand 3, with its refusals, power cuts and round trip, as theorems: this crate has no code. The claims
// are in specs/.
#![tactic(auto)]
