// The older fields of NSA, both ways.
ghost use Rattle.std.specs.Prelude.{◌≡◌, ◌^◌, ◌<◌};
ghost use Rattle.octets.specs.Octets.{AreOctets};
ghost use Rattle.nsa.specs.Fields.{writing, reading};
ghost use Rattle.pasa.specs.Bytes.{pasa_written};
ghost use Rattle.pasa.specs.Fields.{pasa_nsa};

use pasa::bytes::PasaWritten;
use pasa::fields::PasaNsa;

// Writes a payload length, a source and a destination to the front of the lent buffer; that the addresses have at most 64 bits is promised beside the
// answer.
#[unsafe(no_mangle)]
pub extern "C" fn pasa_nsa_write(
    length: u64,
    source: u64,
    destination: u64,
    out: &mut [u8],
) -> PasaWritten
    ensures { (result ≡ pasa_written (writing length source destination out.old).answer) × (out.new ≡ (writing length source destination out.old).buffer) × (source < 2 ^ 64) × (destination < 2 ^ 64) }
{
    pasa::fields::pasa_nsa_write(length, source, destination, out)
}

// Reads a payload length, a source and a destination at the front of some octets; that they are octets is promised beside the answer.
#[unsafe(no_mangle)]
pub extern "C" fn pasa_nsa_read(fields: &[u8]) -> PasaNsa
    ensures { (result ≡ pasa_nsa (reading fields.now)) × AreOctets fields.now }
{
    pasa::fields::pasa_nsa_read(fields)
}
