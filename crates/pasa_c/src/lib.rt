// The C exports of the archive libpasa_c.a: each has the name that include/pasa.h declares, calls the function of that name in the crate pasa, and
// promises what that promises, clause for clause. A slice is a pointer and a length for C, and a struct goes by value.
// They stand twice, since `no_mangle` exports nothing from a library, and no crate, the front page among them, can stand on a static library.
#![tactic(auto)]

mod addresses;
mod bytes;
mod children;
mod fields;
mod forwarding;
mod journals;
mod paths;
mod plans;
