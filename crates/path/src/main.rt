// The path program: one line of two addresses in, the path between them out.
#![tactic(auto)]

ghost use Rattle.std.specs.Prelude.{IfSome, OnOk};
ghost use Rattle.std.specs.Io.KnownBytes.{Appends};
ghost use Rattle.line.specs.Line.{output_text};

use std::alloc::Global;
use std::io;
use std::io::{Read, Write};

// Reads what decides of the input, and writes the whole output for all of it.
fn run<R: Read + Drop, W: Write>(alloc: Global, from: R, to: &mut W) -> io::Result<()>
    ensures { OnOk result (IfSome (R.remaining from) (λ input. Appends (W.contents to.old) (W.contents to.new) (output_text input))) }
{
    let mut input = Vec::new(alloc);
    from.take(line::WINDOW as u64).read_to_end(&mut input)?;
    // Room for every output, so none is refused; a Vec would only be filled with as many zeros, and could fail.
    let mut output = [0u8; line::ROOM];
    let count = line::answer(&input, &mut output).unwrap();
    to.write_all(&output[..count])
}

fn main(rt: HostRuntime) -> io::Result<()> {
    run(rt.alloc(), rt.stdin(), &mut rt.stdout())
}
