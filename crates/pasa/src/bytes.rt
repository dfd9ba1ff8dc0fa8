// The packet header and the IPv6 form, both ways.
ghost use Rattle.std.specs.Prelude.{◌≡◌};
ghost use Rattle.address.specs.Address.{made_answer};
ghost use Rattle.octets.specs.Octets.{written_answer};
ghost use Rattle.header.specs.Header.{header_answer, writing, reading};
ghost use Rattle.ipv6.specs.Form.{form_writing, form_reading};
ghost use Rattle.pasa.specs.Bytes.{pasa_written, pasa_read, pasa_address};

use super::number;
use address::Address;
use header::Header;
use refusal::Refusal;

// What writing into a lent buffer answers: how many octets were written, 0 in a refusal, and the refusal's number, 0 where it is done.
#[repr(C)]
#[derive(Clone, Copy, Debug, PartialEq, Eq)]
pub struct PasaWritten {
    pub count: usize,
    pub refusal: u8,
}

// What reading a header answers: the address, the place where the payload begins, both 0 in a refusal, and the refusal's number.
#[repr(C)]
#[derive(Clone, Copy, Debug, Default, PartialEq, Eq)]
pub struct PasaRead {
    pub address: u64,
    pub place: usize,
    pub refusal: u8,
}

// What reading an IPv6 form answers: the address, 0 in a refusal, and the refusal's number.
#[repr(C)]
#[derive(Clone, Copy, Debug, PartialEq, Eq)]
pub struct PasaAddress {
    pub address: u64,
    pub refusal: u8,
}

// The struct of a refusal's number and a count, whatever they are.
#[tactic(auto, unfolding(crate::specs::Bytes::pasa_written))]
pub fn pasa_written(refusal: u8, count: usize) -> PasaWritten
    ensures { result ≡ pasa_written (record { refusal = refusal; count = count }) }
{
    PasaWritten { count, refusal }
}

impl From<Result<usize, Refusal>> for PasaWritten {
    ghost from_gives = { λ written result. result ≡ pasa_written (written_answer written) };

    fn from(written: Result<usize, Refusal>) -> PasaWritten {
        pasa_written(number(&written), written.unwrap_or(0))
    }
}

impl From<Result<Header, Refusal>> for PasaRead {
    ghost from_gives = { λ header result. result ≡ pasa_read (header_answer header) };

    #[tactic(auto, unfolding(crate::specs::Bytes::pasa_read))]
    fn from(header: Result<Header, Refusal>) -> PasaRead {
        match header {
            Ok(header) => PasaRead {
                address: header.address.number,
                place: header.place,
                refusal: 0,
            },
            Err(refusal) => PasaRead {
                refusal: refusal.number(),
                ..PasaRead::default()
            },
        }
    }
}

impl From<Result<Address, Refusal>> for PasaAddress {
    ghost from_gives = { λ address result. result ≡ pasa_address (made_answer address) };

    #[tactic(auto, unfolding(crate::specs::Bytes::pasa_address))]
    fn from(address: Result<Address, Refusal>) -> PasaAddress {
        PasaAddress {
            address: address.map_or(0, |address| address.number),
            refusal: number(&address),
        }
    }
}

// Writes the address's header to the front of the lent buffer.
#[unsafe(no_mangle)]
pub extern "C" fn pasa_header_write(address: u64, out: &mut [u8]) -> PasaWritten
    ensures { (result ≡ pasa_written (writing address out.old).answer) × (out.new ≡ (writing address out.old).buffer) }
{
    PasaWritten::from(header::write(Address::of(address), out))
}

// Reads the header at the front of a packet.
#[unsafe(no_mangle)]
pub extern "C" fn pasa_header_read(packet: &[u8]) -> PasaRead
    ensures { result ≡ pasa_read (reading packet.now) }
{
    PasaRead::from(header::read(packet))
}

// Writes the prefix and the address behind it to the front of the lent buffer.
#[unsafe(no_mangle)]
pub extern "C" fn pasa_ipv6_write(prefix: &[u8], address: u64, out: &mut [u8]) -> PasaWritten
    ensures { (result ≡ pasa_written (form_writing prefix.now address out.old).answer) × (out.new ≡ (form_writing prefix.now address out.old).buffer) }
{
    PasaWritten::from(ipv6::write(prefix, Address::of(address), out))
}

// Reads an IPv6 address that begins with the prefix.
#[unsafe(no_mangle)]
pub extern "C" fn pasa_ipv6_read(prefix: &[u8], ipv6: &[u8]) -> PasaAddress
    ensures { result ≡ pasa_address (form_reading prefix.now ipv6.now) }
{
    PasaAddress::from(ipv6::read(prefix, ipv6))
}
