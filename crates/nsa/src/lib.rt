// The older fields of NSA: payload length, source and destination in a row. What the octets are, in which order they are checked and what each
// fault is numbered, stands in specs/Fields.antt.
#![tactic(auto)]

ghost use Rattle.std.specs.Prelude.{◌≡◌, ◌∷◌, ◌+◌, ◌-◌, ◌^◌, ◌≤◌, ◌<◌, length};
ghost use Rattle.octets.specs.Octets.{octets, AreOctets, written_answer};
ghost use Rattle.nsa.specs.Fields.{length_field, long_octets, address_field, writing, number_reading, length_reading, counted_reading, address_reading, field_answer, fields_answer, reading};
ghost use Rattle.nsa.specs.Layout.{laid};

use address::Address;
use refusal::Refusal;

const LONGEST_PAYLOAD: u64 = 65_787;

// A first octet below these is the number itself; each of these tells what follows it; as a payload length the third is refused.
const FIRST_MARK: u8 = 253;

const SECOND_MARK: u8 = 254;

const THIRD_MARK: u8 = 255;

// What the octets after a mark leave out of a payload length.
const LEFT_OUT: u64 = 252;

// The three numbers.
#[derive(Clone, Copy, Debug, PartialEq, Eq)]
pub struct Fields {
    pub length: u64,
    pub source: Address,
    pub destination: Address,
}

// The three in a row: their numbers, and the place behind them.
#[derive(Clone, Copy, Debug, PartialEq, Eq)]
pub struct Row {
    pub fields: Fields,
    pub place: usize,
}

// ---- writing: `payload` is the payload length here, since `length` is a list's in the contracts

// How a field lies in octets.
#[derive(Clone, Copy)]
enum Layout {
    // The number alone.
    Alone(u8),
    // A mark, and the number in so many octets.
    Marked(u8, u8, u64),
    // The third mark, a number of octets, and in as many the number.
    Counted(u8, u64),
}

impl Layout {
    // How many octets it takes.
    #[tactic(auto, using(crate::proofs::Layouts::size_cases))]
    fn size(self) -> usize
        ensures { result ≡ length (laid self) }
    {
        match self {
            Layout::Alone(_) => 1,
            Layout::Marked(_, count, _) => 1 + count as usize,
            Layout::Counted(count, _) => 2 + count as usize,
        }
    }

    // Fills the slice with it.
    fn put(self, out: &mut [u8])
        requires { length out.old ≡ length (laid self) }
        ensures { out.new ≡ laid self }
    {
        match self {
            Layout::Alone(octet) => out[0] = octet,
            Layout::Marked(mark, _, number) => put_behind(mark, number, out),
            Layout::Counted(count, number) => {
                out[0] = THIRD_MARK;
                put_behind(count, number, &mut out[1..]);
            }
        }
    }
}

// Fills the slice with an octet and a number behind it.
fn put_behind(first: u8, number: u64, out: &mut [u8])
    requires { 1 ≤ length out.old }
    ensures { out.new ≡ first ∷ octets (length out.old - 1) number }
{
    out[0] = first;
    octets::put(number, &mut out[1..]);
}

// The shortest layout of a payload length.
#[tactic(auto, using(crate::proofs::Layouts::length_cases))]
fn length_layout(payload: u64) -> Layout
    ensures { laid result ≡ length_field payload }
{
    match payload {
        0..253 => Layout::Alone(payload as u8),
        253..508 => Layout::Marked(FIRST_MARK, 1, payload - LEFT_OUT),
        _ => Layout::Marked(SECOND_MARK, 2, payload - LEFT_OUT),
    }
}

// The shortest layout of an address. It has no arm but the first in common with `length_layout`.
#[tactic(auto, using(crate::proofs::Layouts::address_cases))]
fn address_layout(address: u64) -> Layout
    ensures { laid result ≡ address_field address }
{
    match address {
        0..253 => Layout::Alone(address as u8),
        253..0x1_0000 => Layout::Marked(FIRST_MARK, 2, address),
        0x1_0000..0x1_0000_0000 => Layout::Marked(SECOND_MARK, 4, address),
        _ => Layout::Counted(long_octets(address), address),
    }
}

// How many octets an address takes that four do not hold: by the cases of source document 004, from 5 on, and not the header's rounding.
#[tactic(auto, using(crate::proofs::Layouts::long_cases))]
fn long_octets(address: u64) -> u8
    ensures { result ≡ long_octets address }
{
    match address {
        0..0x100_0000_0000 => 5,
        0x100_0000_0000..0x1_0000_0000_0000 => 6,
        0x1_0000_0000_0000..0x100_0000_0000_0000 => 7,
        _ => 8,
    }
}

// Writes the three fields to the front of the lent buffer. That the addresses have at most 64 bits, which demand 2 asks, is promised beside the
// answer.
#[tactic(auto, unfolding(crate::specs::Fields::writing, octets::specs::Octets::refuse_writing))]
pub fn write(
    payload: u64,
    source: Address,
    destination: Address,
    out: &mut [u8],
) -> Result<usize, Refusal>
    ensures answer { written_answer result ≡ (writing payload source.number destination.number out.old).answer }
    ensures buffer { out.new ≡ (writing payload source.number destination.number out.old).buffer }
    ensures source_fits { source.number < 2 ^ 64 }
    ensures destination_fits { destination.number < 2 ^ 64 }
{
    if LONGEST_PAYLOAD < payload {
        return Err(Refusal::TooMany);
    }
    if source.number == 0 || destination.number == 0 {
        return Err(Refusal::ZeroAddress);
    }
    // Each layout is chosen once for its size and once more to be put: three kept in variables take a tenth longer.
    let source_at = length_layout(payload).size();
    let destination_at = source_at + address_layout(source.number).size();
    let end = destination_at + address_layout(destination.number).size();
    if out.len() < end {
        return Err(Refusal::NoRoom);
    }
    length_layout(payload).put(&mut out[..source_at]);
    address_layout(source.number).put(&mut out[source_at..destination_at]);
    address_layout(destination.number).put(&mut out[destination_at..end]);
    Ok(end)
}

// ---- reading

// What is read of a field: its number, and how many octets it takes.
#[derive(Clone, Copy)]
struct Part {
    number: u64,
    size: usize,
}

// The number in some octets of a field, behind the first of it: below the least there is a shorter form. The five travel into this one place.
#[tactic(auto, using(crate::proofs::Cases::number_cases))]
fn read_number(
    field: &[u8],
    before: usize,
    count: usize,
    least: u64,
    added: u64,
) -> Result<Part, Refusal>
    requires early { before ≤ 2 }
    requires few { count ≤ 8 }
    requires fits { 256 ^ count + added ≤ 2 ^ 64 }
    ensures { field_answer result ≡ number_reading before count least added field.now }
{
    let end = before + count;
    if field.len() < end {
        return Err(Refusal::EndsEarly);
    }
    let number = octets::get(&field[before..end]);
    if number < least {
        return Err(Refusal::WrongSize);
    }
    Ok(Part {
        number: number + added,
        size: end,
    })
}

// Reads the payload length at the front of some octets. It and `read_address` differ in each arm: in the octets behind a mark, the least number in
// them and what is added.
#[tactic(auto, using(crate::proofs::Cases::length_cases))]
fn read_length(field: &[u8]) -> Result<Part, Refusal>
    ensures { field_answer result ≡ length_reading field.now }
{
    if field.is_empty() {
        return Err(Refusal::EndsEarly);
    }
    match field[0] {
        first @ 0..FIRST_MARK => Ok(Part {
            number: first as u64,
            size: 1,
        }),
        FIRST_MARK => read_number(field, 1, 1, 1, LEFT_OUT),
        SECOND_MARK => read_number(field, 1, 2, 256, LEFT_OUT),
        THIRD_MARK => Err(Refusal::WrongSize),
    }
}

// Reads an address that has its length in its second octet.
#[tactic(auto, using(crate::proofs::Cases::counted_cases))]
fn read_counted(field: &[u8]) -> Result<Part, Refusal>
    ensures { field_answer result ≡ counted_reading field.now }
{
    if field.len() < 2 {
        return Err(Refusal::EndsEarly);
    }
    let count = field[1] as usize;
    match count {
        5..=8 => read_number(field, 2, count, 1u64 << (8 * (count - 1)), 0),
        _ => Err(Refusal::WrongSize),
    }
}

// Reads the address at the front of some octets.
#[tactic(auto, using(crate::proofs::Cases::address_cases))]
fn read_address(field: &[u8]) -> Result<Part, Refusal>
    ensures { field_answer result ≡ address_reading field.now }
{
    if field.is_empty() {
        return Err(Refusal::EndsEarly);
    }
    match field[0] {
        0 => Err(Refusal::ZeroAddress),
        first @ 1..FIRST_MARK => Ok(Part {
            number: first as u64,
            size: 1,
        }),
        FIRST_MARK => read_number(field, 1, 2, 253, 0),
        SECOND_MARK => read_number(field, 1, 4, 0x1_0000, 0),
        THIRD_MARK => read_counted(field),
    }
}

// Reads the three fields at the front of some octets. That they are octets, which demand 1 and demand 2 ask, is promised beside the answer.
#[tactic(auto, using(crate::proofs::InRow::read_cases))]
pub fn read(fields: &[u8]) -> Result<Row, Refusal>
    ensures answer { fields_answer result ≡ reading fields.now }
    ensures lent { AreOctets fields.now }
{
    let length = read_length(fields)?;
    let source_at = length.size;
    let source = read_address(&fields[source_at..])?;
    let destination_at = source_at + source.size;
    let destination = read_address(&fields[destination_at..])?;
    Ok(Row {
        fields: Fields {
            length: length.number,
            source: Address::of(source.number),
            destination: Address::of(destination.number),
        },
        place: destination_at + destination.size,
    })
}
