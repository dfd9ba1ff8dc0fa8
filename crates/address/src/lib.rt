// Addresses: the path from the root as a string of at most 64 bits, held right-justified in a 64-bit number.
//
// What an address is stands in specs/Bits.antt (numbers and bit strings) and specs/Steps.antt (bit strings and steps). Zero is no address:
// what comes from outside can hold it, and each function says what it answers for it.
#![tactic(auto)]

ghost use Rattle.std.specs.Prelude.{◌≡◌};
ghost use Rattle.address.specs.Bits.{longest, root};
ghost use Rattle.address.specs.Address.{made_answer, made, bit_length, is_host, depth, parent};

use refusal::Refusal;

// What a step leads to, and what a child is.
#[derive(Clone, Copy, Debug, PartialEq, Eq)]
pub enum Kind {
    Router,
    Host,
}

#[derive(Clone, Copy, Debug, PartialEq, Eq)]
pub struct Address {
    pub number: u64,
}

impl Address {
    // The longest length of an address in bits.
    pub const LONGEST: u32 = 64;

    pub const ROOT: Address = Address { number: 1 };

    // The number as it stands: zero, which is no address, stays zero, for the entries that refuse it and for what C is answered beside a refusal.
    pub fn of(number: u64) -> Address
        ensures { result.number ≡ number }
    {
        Address { number }
    }

    // The address that a number holds. Zero is refused.
    #[tactic(auto, unfolding(crate::specs::Address::made))]
    pub fn new(number: u64) -> Result<Address, Refusal>
        ensures { made_answer result ≡ made number }
    {
        if number == 0 {
            return Err(Refusal::ZeroAddress);
        }
        Ok(Address::of(number))
    }

    // These two tie the constants, which have no name in the definitions, to the specification's.
    fn longest() -> u32
        ensures { result ≡ longest }
    {
        Address::LONGEST
    }

    fn root() -> Address
        ensures { result.number ≡ root }
    {
        Address::ROOT
    }

    // The length in bits, 0 for zero.
    pub fn bit_length(self) -> u32
        ensures { result ≡ bit_length self.number }
    {
        Address::LONGEST - u64::leading_zeros(self.number)
    }

    // Whether this is a host's address: neither the root's nor zero is.
    pub fn is_host(self) -> bool
        ensures { result ≡ is_host self.number }
    {
        if self.number <= 1 {
            return false;
        }
        self.number % 2 == 1
    }

    // The number of steps from the root: one for each 0, and one more for the ones at a host's end. 0 for zero.
    pub fn depth(self) -> u32
        ensures { result ≡ depth self.number }
    {
        let zeros = self.bit_length() - u64::count_ones(self.number);
        if self.is_host() {
            return zeros + 1;
        }
        zeros
    }

    // The address less its last step, that is less its last bit and all the ones before it, but for the first bit of all. The root and zero
    // have no parent: the answer is 0.
    pub fn parent(self) -> Address
        ensures { result.number ≡ parent self.number }
    {
        if self.number <= 1 {
            return Address::of(0);
        }
        let rest = self.number / 2;
        let ones = u64::trailing_zeros(rest + 1);
        let kept = rest >> ones;
        if kept == 0 {
            return Address::ROOT;
        }
        Address::of(kept)
    }
}
