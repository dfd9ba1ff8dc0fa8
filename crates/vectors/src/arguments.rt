// Reading the arguments of a case.
ghost use Rattle.std.specs.Prelude.{◌<◌, ◌≤◌, IfSome, IfOk, vec_len};

use address::Address;
use node::{Limits, Node};
use std::alloc::{AllocError, Global};

// The most octets that are read.
const MOST_OCTETS: usize = 512;

// What stands before an octet's first place, and what from there on: all and nothing where it has no place.
pub(crate) fn cut(text: &[u8], octet: u8) -> (&[u8], &[u8]) {
    let place = text.iter().position(|&o| o == octet);
    text.split_at(place.unwrap_or(text.len()))
}

// The value of a hexadecimal digit.
fn hexadecimal(octet: u8) -> Option<u8>
    ensures { IfSome result (λ d. d < 16) }
{
    match octet {
        b'0'..=b'9' => Some(octet - b'0'),
        b'a'..=b'f' => Some(octet - b'a' + 10),
        _ => None,
    }
}

// What is not read yet of a case: the octet that the next argument stands behind, that argument, and so on.
#[derive(Drop)]
pub(crate) struct Arguments<'a> {
    rest: &'a [u8],
}

impl<'a> Arguments<'a> {
    // The arguments behind an octet's first place.
    pub(crate) fn behind(asked: &'a [u8], octet: u8) -> Arguments<'a> {
        let (_, rest) = cut(asked, octet);
        Arguments { rest }
    }

    // Passes the octet that the next argument stands behind, whatever it is.
    pub(crate) fn pass(&mut self) {
        self.rest = self.rest.get(1..).unwrap_or(&[]);
    }

    // The digits that come next, as far as they give a number of 64 bits.
    pub(crate) fn number(&mut self, base: u64) -> u64 {
        self.pass();
        let digits = self.rest;
        let mut number: u64 = 0;
        for (i, &octet) in digits.iter().enumerate() {
            let digit = u64::from(octet.wrapping_sub(b'0'));
            match number.checked_mul(base) {
                Some(raised) if digit < base => number = raised.wrapping_add(digit),
                _ => {
                    self.rest = &digits[i..];
                    return number;
                }
            }
        }
        self.rest = &[];
        number
    }

    // A number and the limit behind it, as `2/3`.
    pub(crate) fn limited(&mut self, base: u64) -> (u64, u64) {
        let number = self.number(base);
        let limit = if self.rest.starts_with(b"/") {
            self.number(10)
        } else {
            u64::from(node::NO_CAP)
        };
        (number, limit)
    }

    pub(crate) fn address(&mut self) -> Address {
        Address::of(self.number(2))
    }

    pub(crate) fn record(&mut self) -> Node {
        let address = self.address();
        let (routers, most_routers) = self.limited(10);
        let (hosts, most_hosts) = self.limited(10);
        Node {
            address,
            routers: (routers % 256) as u8,
            hosts: (hosts % 256) as u8,
            limits: Limits {
                routers: (most_routers % 256) as u8,
                hosts: (most_hosts % 256) as u8,
            },
        }
    }

    // The octets that the pairs of hexadecimal digits that come next say. Only the first of a pair is judged.
    pub(crate) fn octets(&mut self, alloc: Global) -> Result<Vec<u8>, AllocError>
        ensures { IfOk result (λ v. vec_len v ≤ 512) }
    {
        self.pass();
        let (pairs, _) = self.rest.as_chunks::<2>();
        let octets: Vec<u8> = pairs
            .iter()
            .map_while(|&[high, low]| Some(
                hexadecimal(high)? * 16 + hexadecimal(low).unwrap_or(15),
            ))
            .take(MOST_OCTETS)
            .collect(alloc)?;
        self.rest = self.rest.get(2 * octets.len()..).unwrap_or(&[]);
        Ok(octets)
    }
}
