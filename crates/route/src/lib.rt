// The path between two addresses, into lent words: specs/Path.antt says what it is.
#![tactic(auto)]

ghost use Rattle.std.specs.Prelude.{◌≡◌, reverse, ◌+◌, ◌*◌, ◌<◌, length, MatchResult};
ghost use Rattle.refusal.specs.declared.Refusal.TheVariants.{ZeroAddress};
ghost use Rattle.address.specs.Bits.{bits, number};
ghost use Rattle.address.specs.Steps.{steps};
ghost use Rattle.address.specs.Address.{depth};
ghost use Rattle.route.specs.Path.{turn, path, hops, listed_answer, listing};
ghost use Rattle.route.specs.Counting.{upwards, steps_behind, marks};

use address::Address;
use refusal::Refusal;

// The hops of a path: up to its turning point, and down from there.
#[derive(Clone, Copy)]
struct Ways {
    up: u32,
    down: u32,
}

// An address, not zero, and its word: the zeros behind its first bit as ones, from the word's first place on. Behind its last bit are zeros,
// so that what is padded reads as ones, which are no steps.
#[derive(Clone, Copy)]
struct Marked {
    address: Address,
    word: u64,
    ghost some: { 0 < address.number },
    ghost marked: { word ≡ number (marks (bits address.number)) * 2 },
}

impl Marked {
    // Zero, which is no address, is refused.
    fn new(address: Address) -> Result<Marked, Refusal>
        ensures { MatchResult result (λ m. m.address.number ≡ address.number) (λ refusal. (address.number ≡ 0) × (refusal ≡ ZeroAddress)) }
    {
        if address.number == 0 {
            return Err(Refusal::ZeroAddress);
        }
        let word = !address.number << address.number.leading_zeros() << 1;
        Ok(Marked { address, word })
    }

    // The steps of the address behind its first bit and `common` more.
    fn steps_behind(self, common: u32) -> u32
        requires { common < 64 }
        ensures { result ≡ steps_behind common self.address.number }
    {
        let zeros = (self.word << common).count_ones();
        if self.address.is_host() {
            return zeros + 1;
        }
        zeros
    }

    // The hops up and down. The turning point of two addresses that differ has a step for each 0 of the bits that both begin with, so the
    // steps that either has behind these are its way. Ones of the longer address may be taken for common bits where the shorter one has
    // ended: they are no steps. The last place of both words is empty, so the 1 set there hides no difference, and it keeps the count below
    // 64.
    fn count_ways(self, second: Marked) -> Ways
        ensures up { length (turn (steps self.address.number) (steps second.address.number)) + result.up ≡ depth self.address.number }
        ensures down { length (turn (steps self.address.number) (steps second.address.number)) + result.down ≡ depth second.address.number }
    {
        if self.address == second.address {
            return Ways { up: 0, down: 0 };
        }
        let common = ((self.word ^ second.word) | 1).leading_zeros();
        let up = self.steps_behind(common);
        let down = second.steps_behind(common);
        Ways { up, down }
    }
}

// The hops of the path from the first address to the second. Zero, which is no address, has no steps, so the path is the other's way.
pub fn hops(first: Address, second: Address) -> u8
    ensures { result ≡ hops (path first.number second.number) }
{
    let (Ok(from), Ok(to)) = (Marked::new(first), Marked::new(second)) else {
        return (first.depth() + second.depth()) as u8;
    };
    let ways = from.count_ways(to);
    (ways.up + ways.down) as u8
}

// Lists an address and its ancestors, upwards, as many as there are words.
fn list_up(first: Address, words: &mut [u64])
    ensures { words.new ≡ upwards (length words.old) first.number }
{
    let mut a = first;
    for word in words.iter_mut() {
        *word = a.number;
        a = a.parent();
    }
}

// Lists an address and its ancestors, downwards: the address is the last, and the parents fill the words from there to the first. They go in
// by index, since no proof knows what is written through a reversed `iter_mut`; listed upwards and then reversed, they would be gone over
// twice.
fn list_down(second: Address, words: &mut [u64])
    ensures { words.new ≡ reverse (upwards (length words.old) second.number) }
{
    let mut a = second;
    for i in (0..words.len()).rev() {
        words[i] = a.number;
        a = a.parent();
    }
}

// Lists the path from the first address to the second, and answers its hops, one fewer than the addresses listed.
pub fn path(first: Address, second: Address, words: &mut [u64]) -> Result<u32, Refusal>
    ensures answer { listed_answer result ≡ (listing first.number second.number words.old).answer }
    ensures words { words.new ≡ (listing first.number second.number words.old).words }
{
    let from = Marked::new(first)?;
    let to = Marked::new(second)?;
    let ways = from.count_ways(to);
    let up = ways.up;
    let hops = up + ways.down;
    let at = up as usize;
    let last = hops as usize;
    if words.len() <= last {
        return Err(Refusal::NoRoom);
    }
    let end = last + 1;
    list_up(first, &mut words[..at]);
    list_down(second, &mut words[at..end]);
    Ok(hops)
}
