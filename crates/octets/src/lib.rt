// Numbers as octets, most significant first, in a lent slice of any length.
#![tactic(auto)]

ghost use Rattle.std.specs.Prelude.{◌≡◌, ◌%◌, ◌^◌, length};
ghost use Rattle.octets.specs.Octets.{octets, value};

// Fills the slice with the number: its last octets where the slice is short, zeros in front where it is long.
pub fn put(number: u64, out: &mut [u8])
    ensures { out.new ≡ octets (length out.old) number }
{
    let mut rest = number;
    // By index: of what goes through `rev` over `iter_mut` a proof knows no element.
    for i in (0..out.len()).rev() {
        out[i] = (rest % 256) as u8;
        rest /= 256;
    }
}

// The number that the octets give: of more than eight octets, the last eight's.
pub fn get(from: &[u8]) -> u64
    ensures { result ≡ value from.now % 2 ^ 64 }
{
    let mut number: u64 = 0;
    for octet in from {
        number = number % 0x100_0000_0000_0000 * 256 + u64::from(*octet);
    }
    number
}
