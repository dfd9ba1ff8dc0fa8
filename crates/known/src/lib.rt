#![tactic(auto)]
// The known values of document 01 that are marked P, as theorems: this crate has no code. The table is specs/Known.antt.
