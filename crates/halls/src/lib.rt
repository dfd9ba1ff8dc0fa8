// A hall that is read is a tree of demand 3, as a theorem: this crate has no code. The plan's requests are specs/Requests.antt, the claims
// specs/Halls.antt and specs/Reading.antt.
#![tactic(auto)]
