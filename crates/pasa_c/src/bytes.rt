// The packet header and the IPv6 form, both ways.
ghost use Rattle.std.specs.Prelude.{◌≡◌};
ghost use Rattle.header.specs.Header.{writing, reading};
ghost use Rattle.ipv6.specs.Form.{form_writing, form_reading};
ghost use Rattle.pasa.specs.Bytes.{pasa_written, pasa_read, pasa_address};

use pasa::bytes::{PasaAddress, PasaRead, PasaWritten};

// Writes the address's header to the front of the lent buffer.
#[unsafe(no_mangle)]
pub extern "C" fn pasa_header_write(address: u64, out: &mut [u8]) -> PasaWritten
    ensures { (result ≡ pasa_written (writing address out.old).answer) × (out.new ≡ (writing address out.old).buffer) }
{
    pasa::bytes::pasa_header_write(address, out)
}

// Reads the header at the front of a packet.
#[unsafe(no_mangle)]
pub extern "C" fn pasa_header_read(packet: &[u8]) -> PasaRead
    ensures { result ≡ pasa_read (reading packet.now) }
{
    pasa::bytes::pasa_header_read(packet)
}

// Writes the prefix and the address behind it to the front of the lent buffer.
#[unsafe(no_mangle)]
pub extern "C" fn pasa_ipv6_write(prefix: &[u8], address: u64, out: &mut [u8]) -> PasaWritten
    ensures { (result ≡ pasa_written (form_writing prefix.now address out.old).answer) × (out.new ≡ (form_writing prefix.now address out.old).buffer) }
{
    pasa::bytes::pasa_ipv6_write(prefix, address, out)
}

// Reads an IPv6 address that begins with the prefix.
#[unsafe(no_mangle)]
pub extern "C" fn pasa_ipv6_read(prefix: &[u8], ipv6: &[u8]) -> PasaAddress
    ensures { result ≡ pasa_address (form_reading prefix.now ipv6.now) }
{
    pasa::bytes::pasa_ipv6_read(prefix, ipv6)
}
