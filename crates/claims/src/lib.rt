#![tactic(auto)]
// The front page: every final claim, a line each, at the functions' own definitions. This crate holds theorems alone; read specs/ from Lib.antt on.
