// The IPv6 form of an address, both ways: specs/Form.antt says what it is, in which order the checks go and what each refusal is numbered.
#![tactic(auto)]

ghost use Rattle.std.specs.Prelude.{◌≡◌};
ghost use Rattle.octets.specs.Octets.{written_answer};
ghost use Rattle.address.specs.Address.{made_answer};
ghost use Rattle.ipv6.specs.Form.{form_writing, form_reading};

use address::Address;
use refusal::Refusal;

// The octets of a prefix, and of a prefix with the address behind it.
const HALF: usize = 8;

const WHOLE: usize = 16;

// Writes the prefix and the address behind it to the front of the lent buffer.
#[tactic(auto, unfolding(crate::specs::Form::form_writing, octets::specs::Octets::refuse_writing))]
pub fn write(prefix: &[u8], address: Address, out: &mut [u8]) -> Result<usize, Refusal>
    ensures answer { written_answer result ≡ (form_writing prefix.now address.number out.old).answer }
    ensures buffer { out.new ≡ (form_writing prefix.now address.number out.old).buffer }
{
    if prefix.len() != HALF {
        return Err(Refusal::WrongLength);
    }
    if address.number == 0 {
        return Err(Refusal::ZeroAddress);
    }
    if out.len() < WHOLE {
        return Err(Refusal::NoRoom);
    }
    out[..HALF].copy_from_slice(prefix);
    octets::put(address.number, &mut out[HALF..WHOLE]);
    Ok(WHOLE)
}

// Reads an IPv6 address that begins with the prefix.
#[tactic(auto, using(crate::proofs::FormLaws::reading_cases))]
pub fn read(prefix: &[u8], ipv6: &[u8]) -> Result<Address, Refusal>
    ensures { made_answer result ≡ form_reading prefix.now ipv6.now }
{
    if prefix.len() != HALF || ipv6.len() != WHOLE {
        return Err(Refusal::WrongLength);
    }
    let Some(number) = ipv6.strip_prefix(prefix) else {
        return Err(Refusal::OtherPrefix);
    };
    Address::new(octets::get(number))
}
