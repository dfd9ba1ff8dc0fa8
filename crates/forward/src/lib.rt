// The next hop from an address: specs/Forward.antt has the rules, their order and the refusals.
#![tactic(auto)]

ghost use Rattle.std.specs.Prelude.{◌≡◌, true, false, ◌%◌, eqb, drop, if◌then◌else◌};
ghost use Rattle.address.specs.Bits.{bits};
ghost use Rattle.address.specs.Address.{bit_length, is_host};
ghost use Rattle.address.specs.Numbers.{IsAddress};
ghost use Rattle.search.specs.Search.{looked_at, is_prefix};
ghost use Rattle.address.specs.declared.Kind.TheVariants.{Router, Host};
ghost use Rattle.forward.specs.Forward.{hop_answer, toward, next_hop};

use address::{Address, Kind};
use node::Node;
use refusal::Refusal;

// What becomes of a packet: deliver it here, at the address named; or pass it to the parent or to the child named.
#[derive(Clone, Copy, Debug, PartialEq, Eq)]
pub enum Hop {
    Deliver(Address),
    Parent(Address),
    Child(Address),
}

// The kind of a child by its last bit. It is no `From<Address>`: the root has no kind.
fn kind_of(child: Address) -> Kind
    ensures { result ≡ (if eqb (child.number % 2) 0 then Router else Host) }
{
    if child.number % 2 == 0 {
        return Kind::Router;
    }
    Kind::Host
}

// Rule 4: the next child on the way to an address of which the node's is a proper prefix.
fn toward(node: Node, destination: Address) -> Result<Hop, Refusal>
    requires node_address { IsAddress node.address.number }
    requires destination_address { IsAddress destination.number }
    requires no_host { is_host node.address.number ≡ false }
    requires prefix { is_prefix (bits node.address.number) (bits destination.number) ≡ true }
    requires other { destination.number ≡ node.address.number → ⊥ }
    ensures { hop_answer result ≡ toward node (looked_at (drop (bit_length node.address.number) (bits destination.number))) }
{
    let length = node.address.bit_length();
    let end = search::child_end(destination, length);
    let child = search::first_bits(destination, end);
    let index = end - length - 1;
    if index < node.count(kind_of(child)) as u32 {
        return Ok(Hop::Child(child));
    }
    Err(Refusal::ChildNotGiven)
}

// The next hop for a packet to the destination, at the node with this record.
// It goes into the caller's code: in a loop over destinations the compiler takes what the rules ask of the node alone out of the loop, where
// a call for each of them takes up to twice as long.
#[inline(always)]
#[tactic(auto, unfolding(crate::specs::Forward::hop_answer, crate::specs::Forward::next_hop, crate::specs::Forward::rules))]
pub fn next_hop(node: Node, destination: Address) -> Result<Hop, Refusal>
    ensures { hop_answer result ≡ next_hop node destination.number }
{
    if !node.is_good() {
        return Err(Refusal::BadRecord);
    }
    if destination.number == 0 {
        return Err(Refusal::ZeroAddress);
    }
    let here = node.address;
    if destination == here {
        return Ok(Hop::Deliver(here));
    }
    if here.is_host() {
        return Ok(Hop::Parent(here.parent()));
    }
    if search::first_bits(destination, here.bit_length()) != here {
        return Ok(Hop::Parent(here.parent()));
    }
    toward(node, destination)
}
