// Runs the known values of document 01, the drafts' examples and the values of document 02 through the functions that carry the promises, and
// compares each answer, as text, with the value typed from the document.
//
// The cases are data: the file `stdin` has one to a line, `COMMAND ARGUMENTS = VALUE`, with one space between words, under the sentence that it
// is from. Empty lines and lines that begin with `#` are printed as they stand, and each case as
// `COMMAND ARGUMENTS | document VALUE | answer ANSWER | ok`, or `DIFFERS`. The last line counts both.
//
//     length A, depth A, is-host A       a number; 1 for a host and 0 for any other
//     parent A, make A                   an address; `refused N` where there is none
//     router A ROUTERS HOSTS, host ..    the child that the node with this record gives, or `refused N`; `then`, and the record handed back
//     limit-r A ROUTERS HOSTS LIMIT      `set`, or `refused N`, where the limit on the node's routers is to be LIMIT; `then`, and the record
//     limit-h ..                         handed back; the same for hosts
//     hop A ROUTERS HOSTS D              `deliver`, `parent` or `child` and the node named, or `refused N`
//     packet A ROUTERS HOSTS OCTETS      the same, for the destination in a packet
//     path A D ROOM, hops A D ROOM       the hops, and for `path` then the addresses, or `refused N`
//     write A ROOM, octets A ROOM        the header, or how many octets of it the address takes; or `refused N`
//     read OCTETS                        the address and the place of the payload, or `refused N`
//     ipv6 A ROOM PREFIX                 the IPv6 form, or `refused N`
//     back PREFIX OCTETS                 the address in an IPv6 form, or `refused N`
//     line ROOM OCTETS                   the path program's output for an input, with `/` for each newline; or `refused N` and no `/`
//
// ROUTERS and HOSTS are a count, or a count and its limit, as `2/3`; one without a limit has 64, and so it is printed.
//
// Addresses and D are binary digits and may be 0, counts, limits, rooms and numbers are decimal, and octets are an `x` and lower-case
// hexadecimal digits, none of them for no octets. ROOM is how many words or octets are lent, at most 130 and 8200; they hold AA before, and
// ` changed` stands behind the answer for each one that was not to be written and is no longer AA.
//
// A line without ` = ` is `not read` and DIFFERS, and a command that is not named here has the answer `not read`. Arguments are not judged: a
// number goes as far as its digits do, one that is left out is 0, a count and the limit behind it are taken modulo 256, at most 512 octets are
// read, and what is typed behind the last argument of a command is passed over.
#![tactic(auto)]

mod answer;
mod arguments;
mod commands;

use std::io;
use std::io::Read;

// The most octets of an input, and one more.
const TOO_LONG: usize = 32768;

// The two sides of a case `COMMAND ARGUMENTS = VALUE`.
fn sides(line: &[u8]) -> Option<(&[u8], &[u8])> {
    match line.iter().position(|&octet| octet == b'=') {
        Some(sign) if 0 < sign && sign + 1 < line.len() => {
            Some((&line[..sign - 1], &line[sign + 2..]))
        }
        _ => None,
    }
}

// Prints a line with its answer, and says whether that is the document's value; of a line that is no case, nothing.
fn judged(rt: &(impl Print + AllocGlobal), line: &[u8]) -> io::Result<Option<bool>> {
    if line.is_empty() || line.starts_with(b"#") {
        rt.write_all(line)?;
        println!(rt; "")?;
        return Ok(None);
    }
    let Some((asked, value)) = sides(line) else {
        rt.write_all(line)?;
        println!(rt; " | not read | DIFFERS")?;
        return Ok(Some(false));
    };
    let answer = commands::answer(rt.alloc(), asked)?;
    let same = answer.as_bytes() == value;
    rt.write_all(asked)?;
    rt.write_all(b" | document ")?;
    rt.write_all(value)?;
    println!(rt;
        " | answer {answer} | {}",
        if same { "ok" } else { "DIFFERS" }
    )?;
    Ok(Some(same))
}

fn main(rt: HostRuntime) -> io::Result<()> {
    let mut input = Vec::new(rt.alloc());
    rt.stdin().take(TOO_LONG as u64).read_to_end(&mut input)?;
    if input.len() == TOO_LONG {
        return println!(rt; "input too long");
    }
    let mut cases: u64 = 0;
    let mut differ: u64 = 0;
    for line in input.split_inclusive(|&octet| octet == b'\n') {
        if let Some(same) = judged(&rt, line.strip_suffix(b"\n").unwrap_or(line))? {
            cases = cases.saturating_add(1);
            differ = differ.saturating_add(u64::from(!same));
        }
    }
    println!(rt; "{cases} cases, {differ} differ")
}
