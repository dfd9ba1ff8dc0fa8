// The older fields of NSA, both ways.
ghost use Rattle.std.specs.Prelude.{◌≡◌, ◌^◌, ◌<◌};
ghost use Rattle.octets.specs.Octets.{AreOctets};
ghost use Rattle.nsa.specs.Fields.{fields_answer, writing, reading};
ghost use Rattle.pasa.specs.Bytes.{pasa_written};
ghost use Rattle.pasa.specs.Fields.{pasa_nsa};

use super::bytes::PasaWritten;
use address::Address;
use nsa::Row;
use refusal::Refusal;

// What reading the older fields answers: the payload length, the source, the destination and the place after them, all 0 in a refusal, and the
// refusal's number.
#[repr(C)]
#[derive(Clone, Copy, Debug, Default, PartialEq, Eq)]
pub struct PasaNsa {
    pub length: u64,
    pub source: u64,
    pub destination: u64,
    pub place: usize,
    pub refusal: u8,
}

impl From<Result<Row, Refusal>> for PasaNsa {
    ghost from_gives = { λ row result. result ≡ pasa_nsa (fields_answer row) };

    #[tactic(auto, unfolding(crate::specs::Fields::pasa_nsa))]
    fn from(row: Result<Row, Refusal>) -> PasaNsa {
        match row {
            Ok(row) => PasaNsa {
                length: row.fields.length,
                source: row.fields.source.number,
                destination: row.fields.destination.number,
                place: row.place,
                refusal: 0,
            },
            Err(refusal) => PasaNsa {
                refusal: refusal.number(),
                ..PasaNsa::default()
            },
        }
    }
}

// Writes a payload length, a source and a destination to the front of the lent buffer; that the addresses have at most 64 bits is promised beside the
// answer.
#[unsafe(no_mangle)]
pub extern "C" fn pasa_nsa_write(
    length: u64,
    source: u64,
    destination: u64,
    out: &mut [u8],
) -> PasaWritten
    ensures { (result ≡ pasa_written (writing length source destination out.old).answer) × (out.new ≡ (writing length source destination out.old).buffer) × (source < 2 ^ 64) × (destination < 2 ^ 64) }
{
    PasaWritten::from(nsa::write(length, Address::of(source), Address::of(destination), out))
}

// Reads a payload length, a source and a destination at the front of some octets; that they are octets is promised beside the answer.
#[unsafe(no_mangle)]
pub extern "C" fn pasa_nsa_read(fields: &[u8]) -> PasaNsa
    ensures { (result ≡ pasa_nsa (reading fields.now)) × AreOctets fields.now }
{
    PasaNsa::from(nsa::read(fields))
}
