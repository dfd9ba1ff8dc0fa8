// The commands, each by the function that carries its promise.
ghost use Rattle.std.specs.Prelude.{◌≡◌, ◌≤◌, IfOk, min, vec_len};

use crate::answer::{Digits, Found, Record, Refused, Told, Way};
use crate::arguments::{Arguments, cut};
use address::{Address, Kind};
use refusal::Refusal;
use std::alloc::{AllocError, Global};
use std::fmt::Write;

// What lent octets and words hold before.
const OCTET: u8 = 0xAA;

const WORD: u64 = 0xAA;

// The most octets that are lent, and the most words.
const MOST_OCTETS: u64 = line::ROOM as u64;

const MOST_WORDS: u64 = 130;

#[derive(Clone, Copy)]
enum Command {
    Length,
    Depth,
    IsHost,
    Parent,
    Make,
    Child(Kind),
    Limit(Kind),
    Hop,
    Packet,
    Path,
    Hops,
    Write,
    Octets,
    Read,
    Ipv6,
    Back,
    Line,
}

impl Command {
    fn named(name: &[u8]) -> Option<Command> {
        Some(match name {
            b"length" => Command::Length,
            b"depth" => Command::Depth,
            b"is-host" => Command::IsHost,
            b"parent" => Command::Parent,
            b"make" => Command::Make,
            b"router" => Command::Child(Kind::Router),
            b"host" => Command::Child(Kind::Host),
            b"limit-r" => Command::Limit(Kind::Router),
            b"limit-h" => Command::Limit(Kind::Host),
            b"hop" => Command::Hop,
            b"packet" => Command::Packet,
            b"path" => Command::Path,
            b"hops" => Command::Hops,
            b"write" => Command::Write,
            b"octets" => Command::Octets,
            b"read" => Command::Read,
            b"ipv6" => Command::Ipv6,
            b"back" => Command::Back,
            b"line" => Command::Line,
            _ => return None,
        })
    }
}

// A name counts as a number of 64 bits does: by its last eight octets, and without the zeros before them.
fn counted(name: &[u8]) -> &[u8] {
    let last = &name[name.len().saturating_sub(8)..];
    let zeros = last.iter().take_while(|&&octet| octet == 0).count();
    &last[zeros..]
}

// As many octets or words as are asked for, and at most as many as there are.
fn lent<T: Copy>(alloc: Global, value: T, room: u64, most: u64) -> Result<Vec<T>, AllocError>
    requires { most ≤ 8200 }
    ensures asked { IfOk result (λ v. vec_len v ≡ min room most) }
    ensures few { IfOk result (λ v. vec_len v ≤ 8200) }
{
    vec![in alloc; value; room.min(most) as usize]
}

// Shows what was written of what was lent, and notes each of the rest that is no longer as it was.
fn show<T: Copy + PartialEq, F: Fn(&mut String, T) -> Result<(), AllocError>>(
    text: &mut String,
    lent: &[T],
    written: usize,
    before: T,
    one: F,
) -> Result<(), AllocError>
    requires { F.IsAlwaysCallable one }
{
    for (i, &now) in lent.iter().enumerate() {
        if i < written {
            one(text, now)?;
        } else if now != before {
            text.push_str(" changed")?;
        }
    }
    Ok(())
}

// The octets written, or the refusal.
fn octets<F: Fn(&mut String, u8) -> Result<(), AllocError>>(
    alloc: Global,
    written: Result<usize, Refusal>,
    out: &[u8],
    one: F,
) -> Result<String, AllocError>
    requires { F.IsAlwaysCallable one }
{
    let mut text = String::new(alloc);
    if let Err(refusal) = written {
        write!(text, "{}", Refused(refusal))?;
    }
    show(&mut text, out, written.unwrap_or(0), OCTET, one)?;
    Ok(text)
}

fn hexadecimal(
    alloc: Global,
    written: Result<usize, Refusal>,
    out: &[u8],
) -> Result<String, AllocError> {
    octets(
        alloc,
        written,
        out,
        |text: &mut String, octet: u8| write!(text, "{octet:02x}"),
    )
}

fn lines(alloc: Global, written: Result<usize, Refusal>, out: &[u8]) -> Result<String, AllocError> {
    octets(
        alloc,
        written,
        out,
        |text: &mut String, octet: u8| match octet {
            b'\n' => text.push('/'),
            _ => text.push(char::from(octet)),
        },
    )
}

// The hops and the addresses of a path, or the refusal.
fn path(alloc: Global, hops: Result<u32, Refusal>, words: &[u64]) -> Result<String, AllocError> {
    let mut text = String::new(alloc);
    let mut count = 0;
    match hops {
        Ok(hops) => {
            count = hops as usize + 1;
            write!(text, "{hops} hops:")?;
        }
        Err(refusal) => write!(text, "{}", Refused(refusal))?,
    }
    show(
        &mut text,
        words,
        count,
        WORD,
        |text: &mut String, word: u64| write!(text, " {word:b}"),
    )?;
    Ok(text)
}

// The answer to a case.
pub(crate) fn answer(alloc: Global, asked: &[u8]) -> Result<String, AllocError> {
    let (name, _) = cut(asked, b' ');
    let Some(command) = Command::named(counted(name)) else {
        return String::from_str(alloc, "not read");
    };
    let mut numbers = Arguments::behind(asked, b' ');
    let mut hex = Arguments::behind(asked, b'x');
    match command {
        Command::Length => numbers.address().bit_length().to_string(alloc),
        Command::Depth => numbers.address().depth().to_string(alloc),
        Command::IsHost => u8::from(numbers.address().is_host()).to_string(alloc),
        Command::Parent => Digits(numbers.address().parent()).to_string(alloc),
        Command::Make => Told(Address::new(numbers.number(2)).map(Digits)).to_string(alloc),
        Command::Child(kind) => {
            let handed = numbers.record().child(kind);
            let child = handed.outcome.map(Digits);
            format!(in alloc; "{} then {}", Told(child), Record(handed.node))
        }
        Command::Limit(kind) => {
            let handed = numbers.record().set_limit(kind, numbers.number(10));
            let set = handed.outcome.map(|()| "set");
            format!(in alloc; "{} then {}", Told(set), Record(handed.node))
        }
        Command::Hop => {
            let hop = forward::next_hop(numbers.record(), numbers.address());
            Told(hop.map(Way)).to_string(alloc)
        }
        Command::Packet => {
            let packet = hex.octets(alloc)?;
            let hop = packet::next_hop(numbers.record(), &packet);
            Told(hop.map(Way)).to_string(alloc)
        }
        Command::Path | Command::Hops => {
            let from = numbers.address();
            let (to, _) = numbers.limited(2);
            let mut words = lent(alloc, WORD, numbers.number(10), MOST_WORDS)?;
            match (command, route::path(from, Address::of(to), &mut words)) {
                (Command::Hops, Ok(hops)) => hops.to_string(alloc),
                (_, hops) => path(alloc, hops, &words),
            }
        }
        Command::Write | Command::Octets => {
            let address = numbers.address();
            let mut out = lent(alloc, OCTET, numbers.number(10), MOST_OCTETS)?;
            match (command, header::write(address, &mut out)) {
                (Command::Octets, Ok(count)) => count.saturating_sub(3).to_string(alloc),
                (_, written) => hexadecimal(alloc, written, &out),
            }
        }
        Command::Read => {
            let packet = hex.octets(alloc)?;
            Told(header::read(&packet).map(Found)).to_string(alloc)
        }
        Command::Ipv6 => {
            let address = numbers.address();
            let mut out = lent(alloc, OCTET, numbers.number(10), MOST_OCTETS)?;
            let prefix = hex.octets(alloc)?;
            let written = ipv6::write(&prefix, address, &mut out);
            hexadecimal(alloc, written, &out)
        }
        Command::Back => {
            let prefix = hex.octets(alloc)?;
            hex.pass();
            let ipv6 = hex.octets(alloc)?;
            Told(ipv6::read(&prefix, &ipv6).map(Digits)).to_string(alloc)
        }
        Command::Line => {
            let mut out = lent(alloc, OCTET, numbers.number(10), MOST_OCTETS)?;
            let input = hex.octets(alloc)?;
            let written = line::answer(&input, &mut out);
            lines(alloc, written, &out)
        }
    }
}
