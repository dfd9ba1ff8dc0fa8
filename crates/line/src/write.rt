// Writing the answer: how long each text is, and the text into lent octets that it just fills.
ghost use Rattle.std.specs.Prelude.{◌≡◌, ◌+◌, ◌^◌, ◌++◌, ◌∷◌, [], ◌<◌, ◌≤◌, length};
ghost use Rattle.std.specs.List.{sum_by};
ghost use Rattle.line.specs.Line.{newline, address_text, decimal, digits_in, lines, hops_text};

use address::Address;

// The last digits of a number in a base, as many as there is room for, the last one first. By index, since no proof knows what is written
// through a reversed `iter_mut`.
fn put_digits(number: u64, base: u64, out: &mut [u8])
    requires { (2 ≤ base) × (base ≤ 10) }
    ensures { out.new ≡ digits_in base (length out.old) number }
{
    let mut rest = number;
    for i in (0..out.len()).rev() {
        out[i] = b'0' + (rest % base) as u8;
        rest /= base;
    }
}

// How long a number below 1000 is in decimal digits.
fn decimal_size(n: u32) -> usize
    ensures { result ≡ length (decimal n) }
{
    match n {
        0..=9 => 1,
        10..=99 => 2,
        _ => 3,
    }
}

// How long the line of the hops is: six octets and the digits.
pub(crate) fn hops_size(hops: u32) -> usize
    ensures { result ≡ length (hops_text ++ decimal hops ++ (newline ∷ [])) }
{
    6 + decimal_size(hops)
}

// The line of the hops.
pub(crate) fn put_hops(hops: u32, out: &mut [u8])
    requires below { hops < 1000 }
    requires room { length out.old ≡ length (hops_text ++ decimal hops ++ (newline ∷ [])) }
    ensures { out.new ≡ hops_text ++ decimal hops ++ (newline ∷ []) }
{
    let end = out.len() - 1;
    out[..5].copy_from_slice(b"hops ");
    put_digits(hops as u64, 10, &mut out[5..end]);
    out[end] = b'\n';
}

// How long an address is in binary digits.
fn address_size(address: u64) -> usize
    ensures size { result ≡ length (address_text address) }
    ensures most { result ≤ 64 }
{
    Address::of(address).bit_length() as usize
}

// How long the lines of some addresses are.
pub(crate) fn lines_size(addresses: &[u64]) -> usize
    requires { sum_by (λ a. length (address_text a) + 1) addresses.now < 2 ^ 64 }
    ensures { result ≡ sum_by (λ a. length (address_text a) + 1) addresses.now }
{
    addresses
        .iter()
        .map(|address| address_size(*address) + 1)
        .sum()
}

// A line for each address.
pub(crate) fn put_lines(addresses: &[u64], out: &mut [u8])
    requires { length out.old ≡ length (lines addresses.now) }
    ensures { out.new ≡ lines addresses.now }
{
    let mut at = 0;
    for address in addresses {
        let end = at + address_size(*address);
        put_digits(*address, 2, &mut out[at..end]);
        out[end] = b'\n';
        at = end + 1;
    }
}
