// The path between two addresses.
ghost use Rattle.std.specs.Prelude.{◌≡◌};
ghost use Rattle.route.specs.Path.{listing};
ghost use Rattle.pasa.specs.Paths.{pasa_listed};

use pasa::paths::PasaListed;

// Lists the path from the first address to the second at the front of the lent words.
#[unsafe(no_mangle)]
pub extern "C" fn pasa_path(first: u64, second: u64, words: &mut [u64]) -> PasaListed
    ensures { (result ≡ pasa_listed (listing first second words.old).answer) × (words.new ≡ (listing first second words.old).words) }
{
    pasa::paths::pasa_path(first, second, words)
}
