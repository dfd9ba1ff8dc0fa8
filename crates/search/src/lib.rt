// The search for the next child on the way to an address, and the prefix that names it.
#![tactic(auto)]

ghost use Rattle.std.specs.Prelude.{◌≡◌};
ghost use Rattle.address.specs.Bits.{bits};
ghost use Rattle.search.specs.Search.{child_end, first_bits};

use address::Address;

// Where the bits of the next child on the way to an address end, in bits from the front: the first `from` are the node's, and the child's go
// on behind them up to the first 0, that one with them, or up to the last bit. Where no bit is behind them, it is `from`.
// The ones before the child's last bit are counted in one operation.
pub fn child_end(address: Address, from: u32) -> u32
    ensures { result ≡ child_end from (bits address.number) }
{
    let length = address.bit_length();
    if length <= from {
        return from;
    }
    // The last bit ends the search as a 0 does: with a 0 there, an address has a 0 wherever the search stops.
    let even = address.number / 2 * 2;
    // The bits behind the first `from`, at the word's high end: one at least, so the shift is less than the width.
    let behind = even << (Address::LONGEST - (length - from));
    let ones = behind.leading_ones();
    from + ones + 1
}

// The same by a loop over the bits that yields the position by `break`, the form that document 01 names for this place: "look at D's bits
// after C one at a time and stop at the first 0 or at D's last bit".
pub fn child_end_by_bits(address: Address, from: u32) -> u32
    ensures { result ≡ child_end from (bits address.number) }
{
    let length = address.bit_length();
    let mut at = from;
    let end = loop {
        if length <= at {
            break at;
        }
        let bit = (address.number >> (length - 1 - at)) % 2;
        at += 1;
        if bit == 0 {
            break at;
        }
    };
    end
}

// The address of the first `count` bits: all of it where it has no more, and zero where `count` is zero.
pub fn first_bits(address: Address, count: u32) -> Address
    ensures { result.number ≡ first_bits count address.number }
{
    let length = address.bit_length();
    if length <= count {
        return address;
    }
    // One bit less, and then that one: where `count` is zero, all 64 may have to go, and no shift takes so many.
    Address::of((address.number >> (length - count - 1)) / 2)
}
