// The answers as text.
use address::Address;
use forward::Hop;
use header::Header;
use node::Node;
use refusal::Refusal;
use std::fmt;

// A refusal by its number.
#[derive(Clone, Copy)]
pub(crate) struct Refused(pub(crate) Refusal);

impl fmt::Display for Refused {
    fn fmt<W: fmt::Write>(&self, f: &mut fmt::Formatter<W>) -> fmt::Result {
        write!(f, "refused {}", self.0.number())
    }
}

// An answer, or the refusal in its place.
#[derive(Clone, Copy)]
pub(crate) struct Told<T>(pub(crate) Result<T, Refusal>);

impl<T: fmt::Display> fmt::Display for Told<T> {
    fn fmt<W: fmt::Write>(&self, f: &mut fmt::Formatter<W>) -> fmt::Result {
        match &self.0 {
            Ok(answer) => write!(f, "{answer}"),
            Err(refusal) => write!(f, "{}", Refused(*refusal)),
        }
    }
}

// An address in binary digits.
#[derive(Clone, Copy)]
pub(crate) struct Digits(pub(crate) Address);

impl fmt::Display for Digits {
    fn fmt<W: fmt::Write>(&self, f: &mut fmt::Formatter<W>) -> fmt::Result {
        write!(f, "{:b}", self.0.number)
    }
}

// A count as it is typed, with its limit where it has one.
#[derive(Clone, Copy)]
struct Count(u8, u8);

impl fmt::Display for Count {
    fn fmt<W: fmt::Write>(&self, f: &mut fmt::Formatter<W>) -> fmt::Result {
        let Count(count, limit) = *self;
        write!(f, "{count}")?;
        if limit != node::NO_CAP {
            write!(f, "/{limit}")?;
        }
        Ok(())
    }
}

// A record as its arguments are typed.
#[derive(Clone, Copy)]
pub(crate) struct Record(pub(crate) Node);

impl fmt::Display for Record {
    fn fmt<W: fmt::Write>(&self, f: &mut fmt::Formatter<W>) -> fmt::Result {
        let node = self.0;
        write!(
            f,
            "{} {} {}",
            Digits(node.address),
            Count(node.routers, node.limits.routers),
            Count(node.hosts, node.limits.hosts)
        )
    }
}

// What a header says.
#[derive(Clone, Copy)]
pub(crate) struct Found(pub(crate) Header);

impl fmt::Display for Found {
    fn fmt<W: fmt::Write>(&self, f: &mut fmt::Formatter<W>) -> fmt::Result {
        write!(f, "{} at {}", Digits(self.0.address), self.0.place)
    }
}

// A hop and the node that it names.
#[derive(Clone, Copy)]
pub(crate) struct Way(pub(crate) Hop);

impl fmt::Display for Way {
    fn fmt<W: fmt::Write>(&self, f: &mut fmt::Formatter<W>) -> fmt::Result {
        match self.0 {
            Hop::Deliver(address) => write!(f, "deliver {}", Digits(address)),
            Hop::Parent(address) => write!(f, "parent {}", Digits(address)),
            Hop::Child(address) => write!(f, "child {}", Digits(address)),
        }
    }
}
