// The functions of the crates below as C exports, over structs of plain numbers by value. include/pasa.h declares them for C. The crate pasa_c, a
// static library over this one, has them in its archive: `no_mangle` exports nothing from a library.
//
// Each promise cites the definition of the function below it (`child_of`, `set_limit`, `next_hop`, `packet_hop`, `writing`, `reading`, `listing`,
// `planning`, `recovering`), through the definitions of specs/ that turn a record or an answer into the struct exported. An address is a plain
// 64-bit number here, and zero in its place is refused as the crates below refuse it. An answer is turned into its struct by `From`; several structs have one shape, and a
// number for the refusal: each is C's, by include/pasa.h.
#![tactic(auto)]

ghost use Rattle.std.specs.Prelude.{◌≡◌};
ghost use Rattle.refusal.specs.Outcome.{outcome_number};

use refusal::Refusal;

pub mod addresses;
pub mod bytes;
pub mod children;
pub mod fields;
pub mod forwarding;
pub mod journals;
pub mod paths;
pub mod plans;

// The refusal's number of an answer, 0 where it is done.
fn number<T>(answer: &Result<T, Refusal>) -> u8
    ensures { result ≡ outcome_number answer.now }
{
    match answer {
        Ok(_) => 0,
        Err(refusal) => refusal.number(),
    }
}
