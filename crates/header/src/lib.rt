// The packet header: what the octets are, in which order they are checked and what each fault is numbered, stands in specs/Header.antt.
#![tactic(auto)]

ghost use Rattle.std.specs.Prelude.{◌≡◌, ◌≤◌, ◌<◌, IfOk, IfErr, length, slice_index};
ghost use Rattle.refusal.specs.declared.Refusal.TheVariants.{EndsEarly};
ghost use Rattle.refusal.specs.Outcome.{outcome_number};
ghost use Rattle.octets.specs.Octets.{written_answer};
ghost use Rattle.header.specs.Header.{size, writing, header_answer, reading, start_fault, zero_fault, address_fault};

use address::Address;
use refusal::Refusal;

const PAGE_OCTET: u8 = 0xF1;

const CRITICAL_PATTERN: u8 = 4;

const ROUTING_TYPE: u8 = 15;

const FIXED_OCTETS: usize = 3;

const MOST_OCTETS: usize = 8;

const LEAST_PAYLOAD: usize = 1;

// What a header says: the address, and the place where the payload begins.
#[derive(Clone, Copy, Debug, PartialEq, Eq)]
pub struct Header {
    pub address: Address,
    pub place: usize,
}

// How many octets the address takes.
#[tactic(auto, unfolding(crate::specs::Header::size))]
fn size_of(address: Address) -> usize
    ensures { result ≡ size address.number }
{
    address.bit_length().div_ceil(8) as usize
}

// Writes the address's header to the front of the lent buffer.
#[tactic(auto, using(crate::proofs::Writing::write_cases), unfolding(crate::specs::Header::writing, crate::specs::Header::place, octets::specs::Octets::refuse_writing))]
pub fn write(address: Address, out: &mut [u8]) -> Result<usize, Refusal>
    ensures answer { written_answer result ≡ (writing address.number out.old).answer }
    ensures buffer { out.new ≡ (writing address.number out.old).buffer }
{
    if address.number == 0 {
        return Err(Refusal::ZeroAddress);
    }
    let size = size_of(address);
    let end = FIXED_OCTETS + size;
    if out.len() < end {
        return Err(Refusal::NoRoom);
    }
    out[0] = PAGE_OCTET;
    out[1] = CRITICAL_PATTERN * 32 + (size - 1) as u8;
    out[2] = ROUTING_TYPE;
    octets::put(address.number, &mut out[FIXED_OCTETS..end]);
    Ok(end)
}

// The octet at a place: a packet that ends before it ends too early.
fn octet_at(packet: &[u8], place: usize) -> Result<u8, Refusal>
    ensures there { IfOk result (λ octet. (place < length packet.now) × (octet ≡ slice_index packet.now place)) }
    ensures absent { IfErr result (λ refusal. (length packet.now ≤ place) × (refusal ≡ EndsEarly)) }
{
    packet.get(place).copied().ok_or(Refusal::EndsEarly)
}

// Checks the first three octets, one after the other.
#[tactic(auto, using(crate::proofs::Start::start_cases))]
fn check_start(packet: &[u8]) -> Result<(), Refusal>
    ensures { outcome_number result ≡ start_fault packet.now }
{
    if octet_at(packet, 0)? != PAGE_OCTET {
        return Err(Refusal::WrongStart);
    }
    if octet_at(packet, 1)? / 32 != CRITICAL_PATTERN {
        return Err(Refusal::WrongStart);
    }
    if octet_at(packet, 2)? != ROUTING_TYPE {
        return Err(Refusal::WrongStart);
    }
    Ok(())
}

// Checks an address in so many octets by the first of them: where that is zero the address is, or fewer octets hold it.
#[tactic(auto, using(crate::proofs::Parts::fault_cases))]
fn check_first(size: usize, first: u8) -> Result<(), Refusal>
    ensures { outcome_number result ≡ zero_fault size first }
{
    match (first, size) {
        (0, 1) => Err(Refusal::ZeroAddress),
        (0, _) => Err(Refusal::WrongSize),
        _ => Ok(()),
    }
}

// Checks what follows the first three octets, where the second tells this size.
#[tactic(auto, using(crate::proofs::Parts::fault_cases))]
fn check_address(packet: &[u8], size: usize) -> Result<(), Refusal>
    requires { 1 ≤ size }
    ensures { outcome_number result ≡ address_fault size packet.now }
{
    if MOST_OCTETS < size {
        return Err(Refusal::WrongSize);
    }
    if packet.len() < FIXED_OCTETS + size {
        return Err(Refusal::EndsEarly);
    }
    check_first(size, packet[FIXED_OCTETS])
}

// Reads the header at the front of a packet; an empty payload behind it is a fault, looked for after every other.
#[tactic(auto, using(crate::proofs::Payload::read_cases), unfolding(crate::specs::Header::size_told))]
pub fn read(packet: &[u8]) -> Result<Header, Refusal>
    ensures { header_answer result ≡ reading packet.now }
{
    check_start(packet)?;
    let size = packet[1] as usize % 32 + 1;
    check_address(packet, size)?;
    let end = FIXED_OCTETS + size;
    if packet.len() < end + LEAST_PAYLOAD {
        return Err(Refusal::EmptyPayload);
    }
    let number = octets::get(&packet[FIXED_OCTETS..end]);
    Ok(Header {
        address: Address::of(number),
        place: end,
    })
}
