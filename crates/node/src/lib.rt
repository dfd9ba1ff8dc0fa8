// A node's record, the request for a child and the setting of a limit: specs/Node.antt says which records are good, which address a child gets
// and when a request or a setting is refused.
#![tactic(auto)]

ghost use Rattle.std.specs.Prelude.{◌≡◌, ◌<◌, Err};
ghost use Rattle.address.specs.Bits.{digit};
ghost use Rattle.address.specs.Steps.{last_of};
ghost use Rattle.node.specs.Node.{fresh, with_counts, count, raised, limit, with_limit, fits_address, fits_limit, is_good, given_answer, child_of, limited_answer, set_limit};

use address::{Address, Kind};
use refusal::Refusal;

// The highest limit: "64 meaning no cap". It is a number, as limits are in the definitions and in C: an Option would say 64 twice.
pub const NO_CAP: u8 = 64;

// How many children of each kind a node may give.
#[derive(Clone, Copy, Debug, PartialEq, Eq)]
pub struct Limits {
    pub routers: u8,
    pub hosts: u8,
}

// An address with the children of each kind given so far, and its limits.
#[derive(Clone, Copy, Debug, PartialEq, Eq)]
pub struct Node {
    pub address: Address,
    pub routers: u8,
    pub hosts: u8,
    pub limits: Limits,
}

// What a node answers to a request: the record to go on with, and what was asked for or why it is refused.
#[derive(Clone, Copy, Debug, PartialEq, Eq)]
pub struct Handed<T> {
    pub node: Node,
    pub outcome: Result<T, Refusal>,
}

// The bit that a child's address ends with.
#[tactic(auto, unfolding(address::specs::Bits::digit, address::specs::Steps::last_of))]
fn last_bit(kind: Kind) -> u64
    ensures { result ≡ digit (last_of kind) }
{
    match kind {
        Kind::Router => 0,
        Kind::Host => 1,
    }
}

#[tactic(auto, unfolding(crate::specs::Node::fresh, crate::specs::Node::with_counts, crate::specs::Node::count, crate::specs::Node::raised, crate::specs::Node::limit, crate::specs::Node::with_limits, crate::specs::Node::with_limit, crate::specs::Node::fits_limit, crate::specs::Node::is_good, crate::specs::Node::refuse_child))]
impl Node {
    // The record that a node starts with.
    pub fn fresh(address: Address) -> Node
        ensures { result ≡ fresh address.number }
    {
        Node {
            address,
            routers: 0,
            hosts: 0,
            limits: Limits {
                routers: NO_CAP,
                hosts: NO_CAP,
            },
        }
    }

    // The record with other counts: that of a node which has given these children already.
    pub fn with_counts(self, routers: u8, hosts: u8) -> Node
        ensures { result ≡ with_counts routers hosts self }
    {
        Node {
            routers,
            hosts,
            ..self
        }
    }

    // The children of a kind given so far.
    pub fn count(self, kind: Kind) -> u8
        ensures { result ≡ count kind self }
    {
        match kind {
            Kind::Router => self.routers,
            Kind::Host => self.hosts,
        }
    }

    // The limit on the children of a kind. It and `count` stay two: the fields are named in both structs, which the definitions and C name too.
    pub fn limit(self, kind: Kind) -> u8
        ensures { result ≡ limit kind self }
    {
        match kind {
            Kind::Router => self.limits.routers,
            Kind::Host => self.limits.hosts,
        }
    }

    // Whether the limit on a kind is one that a node can have, and its count keeps to it.
    fn fits_limit(self, kind: Kind) -> bool
        ensures { result ≡ fits_limit kind self }
    {
        self.limit(kind) <= NO_CAP && self.count(kind) <= self.limit(kind)
    }

    // Whether the record is one that a node can have.
    pub fn is_good(self) -> bool
        ensures { result ≡ is_good self }
    {
        self.fits_limit(Kind::Router) && self.fits_limit(Kind::Host) && self.fits_address()
    }

    // Whether the counts are ones that a node of this address can have.
    #[tactic(auto, using(crate::proofs::ChildLaws::bit_length_bound), unfolding(crate::specs::Node::fits_address))]
    fn fits_address(self) -> bool
        ensures { result ≡ fits_address self }
    {
        if self.address.number == 0 {
            return false;
        }
        if self.address.is_host() {
            return self.routers == 0 && self.hosts == 0;
        }
        let room = Address::LONGEST - self.address.bit_length();
        self.routers as u32 <= room && self.hosts as u32 <= room
    }

    // The record with one count raised.
    fn raised(self, kind: Kind) -> Node
        requires { count kind self < 255 }
        ensures { result ≡ raised kind self }
    {
        match kind {
            Kind::Router => Node {
                routers: self.routers + 1,
                ..self
            },
            Kind::Host => Node {
                hosts: self.hosts + 1,
                ..self
            },
        }
    }

    // Gives the next child of a kind: the record handed back takes the place of this one.
    #[tactic(auto, using(crate::proofs::ChildLaws::child_room), unfolding(crate::specs::Node::refuse_child, crate::specs::Node::child_of))]
    pub fn child(self, kind: Kind) -> Handed<Address>
        ensures { given_answer result ≡ child_of self kind }
    {
        if !self.is_good() {
            return self.refuse(Refusal::BadRecord);
        }
        if self.address.is_host() {
            return self.refuse(Refusal::HostAsked);
        }
        let given = self.count(kind);
        if given == self.limit(kind) {
            return self.refuse(Refusal::AtLimit);
        }
        let ones = given as u32;
        if Address::LONGEST < self.address.bit_length() + ones + 1 {
            return self.refuse(Refusal::TooLong);
        }
        // The address with as many ones behind it, and then the child's last bit.
        let power = 1u64 << ones;
        let stem = self.address.number * power + (power - 1);
        Handed {
            node: self.raised(kind),
            outcome: Ok(Address::of(stem * 2 + last_bit(kind))),
        }
    }

    // The record with another limit on the children of a kind.
    fn with_limit(self, kind: Kind, limit: u8) -> Node
        ensures { result ≡ with_limit kind limit self }
    {
        let limits = match kind {
            Kind::Router => Limits {
                routers: limit,
                ..self.limits
            },
            Kind::Host => Limits {
                hosts: limit,
                ..self.limits
            },
        };
        Node { limits, ..self }
    }

    // The record as it came.
    fn refuse<T>(self, refusal: Refusal) -> Handed<T>
        ensures { result ≡ record { node = self; outcome = Err refusal } }
    {
        Handed {
            node: self,
            outcome: Err(refusal),
        }
    }

    // Sets the limit on the children of a kind: the record handed back takes the place of this one. The limit comes in a type in which numbers
    // above 64 can be said, so that they are refused and not cut.
    #[tactic(auto, unfolding(crate::specs::Node::refuse_setting, crate::specs::Node::set_limit))]
    pub fn set_limit(self, kind: Kind, limit: u64) -> Handed<()>
        ensures { limited_answer result ≡ set_limit self kind limit }
    {
        if !self.is_good() || limit > NO_CAP as u64 || limit < self.count(kind) as u64 {
            return self.refuse(Refusal::BadRecord);
        }
        Handed {
            node: self.with_limit(kind, limit as u8),
            outcome: Ok(()),
        }
    }
}
