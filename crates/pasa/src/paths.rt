// The path between two addresses.
ghost use Rattle.std.specs.Prelude.{◌≡◌};
ghost use Rattle.route.specs.Path.{listed_answer, listing};
ghost use Rattle.pasa.specs.Paths.{pasa_listed};

use super::number;
use address::Address;
use refusal::Refusal;

// What the path call answers: the hops, one fewer than the addresses listed, 0 in a refusal, and the refusal's number, 0 where the path is
// listed.
#[repr(C)]
#[derive(Clone, Copy, Debug, PartialEq, Eq)]
pub struct PasaListed {
    pub hops: u32,
    pub refusal: u8,
}

impl From<Result<u32, Refusal>> for PasaListed {
    ghost from_gives = { λ hops result. result ≡ pasa_listed (listed_answer hops) };

    #[tactic(auto, unfolding(crate::specs::Paths::pasa_listed))]
    fn from(hops: Result<u32, Refusal>) -> PasaListed {
        PasaListed {
            hops: hops.unwrap_or(0),
            refusal: number(&hops),
        }
    }
}

// Lists the path from the first address to the second at the front of the lent words.
#[unsafe(no_mangle)]
pub extern "C" fn pasa_path(first: u64, second: u64, words: &mut [u64]) -> PasaListed
    ensures { (result ≡ pasa_listed (listing first second words.old).answer) × (words.new ≡ (listing first second words.old).words) }
{
    PasaListed::from(route::path(Address::of(first), Address::of(second), words))
}
