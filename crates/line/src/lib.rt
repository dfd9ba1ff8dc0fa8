// The path program's work, from the octets of its input to those of its output: specs/Line.antt has both texts.
#![tactic(auto)]

mod read;
mod write;

ghost use Rattle.std.specs.Prelude.{◌≡◌, ◌<◌, length, ltb, if◌then◌else◌};
ghost use Rattle.octets.specs.Octets.{written_answer, WriteEffect, refuse_writing, write};
ghost use Rattle.route.specs.Path.{path};
ghost use Rattle.line.specs.Line.{refused_text, path_text, answering};
ghost use Rattle.line.specs.Exactly.{room};
ghost use Rattle.line.specs.Edge.{window};

use address::Address;
use refusal::Refusal;

// The room that every output fits.
pub const ROOM: usize = 8200;

// The octets of an input that decide: the longest line and one more, and whatever fills it is no line.
pub const WINDOW: usize = 131;

// These two tie the constants, which have no name in the definitions, to the specification's.
fn room() -> usize
    ensures { result ≡ room }
{
    ROOM
}

fn window() -> usize
    ensures { result ≡ window }
{
    WINDOW
}

// Writes "refused 11" and a newline.
fn refuse(out: &mut [u8]) -> Result<usize, Refusal>
    ensures { ◌≡◌ {A = WriteEffect} (record { answer = written_answer result; buffer = out.new }) (if ltb (length out.old) (length refused_text) then refuse_writing 10 out.old else write refused_text out.old) }
{
    let text = b"refused 11\n";
    if out.len() < text.len() {
        return Err(Refusal::NoRoom);
    }
    out[..text.len()].copy_from_slice(text);
    Ok(text.len())
}

// Writes the hops and the addresses of the path between two addresses. It has no text to hand to `refuse`: what it takes is counted first.
fn report(first: Address, second: Address, out: &mut [u8]) -> Result<usize, Refusal>
    requires first_some { 0 < first.number }
    requires second_some { 0 < second.number }
    ensures { ◌≡◌ {A = WriteEffect} (record { answer = written_answer result; buffer = out.new }) (if ltb (length out.old) (length (path_text (path first.number second.number))) then refuse_writing 10 out.old else write (path_text (path first.number second.number)) out.old) }
{
    // No heap: the longest path has 126 addresses.
    let mut words = [0u64; 126];
    let hops = route::path(first, second, &mut words)?;
    let addresses = &words[..hops as usize + 1];
    let line = write::hops_size(hops);
    let size = line + write::lines_size(addresses);
    if out.len() < size {
        return Err(Refusal::NoRoom);
    }
    write::put_hops(hops, &mut out[..line]);
    write::put_lines(addresses, &mut out[line..size]);
    Ok(size)
}

// Writes the program's whole output for an input to the front of the lent octets.
pub fn answer(input: &[u8], out: &mut [u8]) -> Result<usize, Refusal>
    ensures answer { written_answer result ≡ (answering input.now out.old).answer }
    ensures buffer { out.new ≡ (answering input.now out.old).buffer }
{
    match read::read_line(input) {
        Some((first, second)) => report(first, second, out),
        None => refuse(out),
    }
}
