// The check of a block: specs/Crc.antt has it bit by bit, and here it takes half an octet at a time.
#![tactic(auto)]

ghost use Rattle.std.specs.Prelude.{◌≡◌, ◌<◌};
ghost use Rattle.crc.specs.Crc.{shift_bits, shift_octet, crc};
ghost use Rattle.crc.specs.Checks.{remainder};

// "the check uses a table of sixteen entries, one for each half octet": what is left of a half octet that stood at the top of the register, once
// four zero bits have gone in behind it.
const REMAINDERS: [u16; 16] = [
    0x0000, 0x1021, 0x2042, 0x3063, 0x4084, 0x50A5, 0x60C6, 0x70E7, 0x8108, 0x9129, 0xA14A, 0xB16B,
    0xC18C, 0xD1AD, 0xE1CE, 0xF1EF,
];

// "start 0xFFFF"
const START: u16 = 0xFFFF;

// The entry of a half octet.
#[tactic(auto, using(crate::proofs::Table::table_rule))]
fn remainder(half: u16) -> u16
    requires { half < 16 }
    ensures { result ≡ remainder half }
{
    REMAINDERS[half as usize]
}

// Half an octet goes in: it meets the four bits that leave at the top, and what is left of both is taken off the bits that move up.
#[tactic(auto, using(crate::proofs::Table::place_in_table, crate::proofs::Table::by_table_lem))]
fn shift_half(register: u16, half: u8) -> u16
    requires { half < 16 }
    ensures { result ≡ shift_bits 4 register half }
{
    (register << 4) ^ remainder((register >> 12) ^ half as u16)
}

// An octet goes in, its high half first.
#[tactic(auto, using(crate::proofs::ShiftLaws::halves))]
fn shift_octet(register: u16, octet: u8) -> u16
    ensures { result ≡ shift_octet register octet }
{
    let middle = shift_half(register, octet >> 4);
    shift_half(middle, octet % 16)
}

// The check of some octets.
#[tactic(auto, using(crate::proofs::ShiftLaws::crc_by_fold))]
pub fn crc(octets: &[u8]) -> u16
    ensures { result ≡ crc octets.now }
{
    octets
        .iter()
        .fold(START, |register, octet| shift_octet(register, *octet))
}
