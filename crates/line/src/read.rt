// Reading the line: the digits in front of a text, the address that they are, and the two addresses of the whole input.
ghost use Rattle.std.specs.Prelude.{◌≡◌, ◌+◌, ◌*◌, ◌%◌, ◌^◌, true, false, MatchOption};
ghost use Rattle.std.specs.List.{fold, prefix_len};
ghost use Rattle.address.specs.Bits.{number as value_of};
ghost use Rattle.line.specs.Line.{is_digit, digits_of, after_digits, are_address, parsed, between, unreadable};

use address::Address;

// The most digits that an address has.
const LONGEST: usize = Address::LONGEST as usize;

// The number of binary digits in front.
fn count_digits(text: &[u8]) -> usize
    ensures { result ≡ prefix_len is_digit text.now }
{
    text.iter()
        .take_while(|octet| matches!(**octet, b'0' | b'1'))
        .count()
}

// The last 64 bits of the number that digits give.
fn number_of(digits: &[u8]) -> u64
    ensures { result ≡ fold (λ n o. n * 2 % 2 ^ 64 + o % 2) 0 digits.now }
{
    digits.iter().fold(0, |number: u64, digit| (number << 1) + (*digit % 2) as u64)
}

// The address that the digits in front are, and what stands behind them.
#[tactic(auto, using(crate::proofs::Parsed::found_other))]
fn address_in(text: &[u8]) -> Option<(Address, &[u8])>
    ensures { MatchOption result (are_address (digits_of text.now) ≡ false) (λ found. (are_address (digits_of text.now) ≡ true) × (found.0.number ≡ value_of (digits_of text.now)) × (found.1.now ≡ after_digits text.now)) }
{
    let count = count_digits(text);
    if count == 0 || LONGEST < count {
        return None;
    }
    if text[0] != b'1' {
        return None;
    }
    Some((Address::of(number_of(&text[..count])), &text[count..]))
}

// The two addresses that the input asks for.
pub(crate) fn read_line(input: &[u8]) -> Option<(Address, Address)>
    ensures { MatchOption result (parsed input.now ≡ unreadable) (λ ends. parsed input.now ≡ between ends.0.number ends.1.number) }
{
    let (first, rest) = address_in(input)?;
    let (second, rest) = address_in(rest.strip_prefix(b" ")?)?;
    if rest != b"\n".as_slice() {
        return None;
    }
    Some((first, second))
}
