// Why the controller says no. The papers give each refusal a number: specs/Refusal.antt has them beside the papers' words.
#![tactic(auto)]

ghost use Rattle.std.specs.Prelude.{◌≡◌, Some};
ghost use Rattle.refusal.specs.Refusal.{number_of, words_of};

use std::error::Error;
use std::fmt;

#[derive(Clone, Copy, Debug, PartialEq, Eq)]
pub enum Refusal {
    BadRecord = 1,
    HostAsked = 2,
    TooLong = 3,
    EndsEarly = 4,
    WrongStart = 5,
    WrongSize = 6,
    ChildNotGiven = 7,
    OtherPrefix = 8,
    ZeroAddress = 9,
    NoRoom = 10,
    WrongLength = 12,
    BadPlan = 13,
    TooMany = 14,
    AtLimit = 15,
    EmptyPayload = 16,
    BadJournal = 17,
}

impl Refusal {
    // The papers' number.
    pub fn number(self) -> u8
        ensures { result ≡ number_of self }
    {
        self as u8
    }
}

// Prints the words of the table of refusals in README.md, which the C header and the Rust crate over it have too.
impl fmt::Display for Refusal {
    ghost output = { λ refusal. Some (words_of refusal) };

    fn fmt<W: fmt::Write>(&self, f: &mut fmt::Formatter<W>) -> fmt::Result {
        f.write_str(match self {
            Refusal::BadRecord =>
                "the node record is bad, or a limit to set isn't 0 to 64 or is below its count",
            Refusal::HostAsked => "a host is asked for a child",
            Refusal::TooLong => "the child would be longer than 64 bits",
            Refusal::EndsEarly => "the packet ends too early",
            Refusal::WrongStart => "one of the first three octets is wrong",
            Refusal::WrongSize =>
                "a size above 8, a first octet of zero where there are several, or an NSA field that isn't the shortest form of a number",
            Refusal::ChildNotGiven => "destination below this node, child not given",
            Refusal::OtherPrefix => "IPv6 prefix differs",
            Refusal::ZeroAddress => "an address is zero",
            Refusal::NoRoom => "lent output too short, or no slot of a journal is erased",
            Refusal::WrongLength =>
                "an IPv6 address isn't 16 octets, a prefix isn't 8, a journal isn't 1 to 128 slots, or a block isn't 1 to 63 addresses",
            Refusal::BadPlan => "a plan's text is outside the grammar",
            Refusal::TooMany =>
                "a plan has too many bytes, a plan or a journal too many nodes, or an NSA payload length is above 65,787",
            Refusal::AtLimit => "a node is asked for a child at its limit",
            Refusal::EmptyPayload => "the payload is empty",
            Refusal::BadJournal =>
                "a journal's slot is out of place or no right block, or an address in it is no next child",
        })
    }
}

impl Error for Refusal {}
