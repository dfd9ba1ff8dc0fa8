// A block of the journal, put into a slot, and whether a slot holds a right one: specs/Block.antt has the format.
#![tactic(auto)]

ghost use Rattle.std.specs.Prelude.{◌≡◌, ◌*◌, ◌≤◌, length};
ghost use Rattle.octets.specs.Octets.{octets};
ghost use Rattle.block.specs.Block.{most_addresses, checked, address_bytes, spread, content, block_put, all_are, is_block};

// The bytes of a slot, the most addresses of a block, where they begin, and the bytes of each.
pub const SLOT: usize = 512;

pub const MOST_ADDRESSES: usize = 63;

pub const ADDRESSES_AT: usize = 2;

pub const ADDRESS_BYTES: usize = 8;

const FIRST_BYTE: u8 = 0x50;

const LAST_BYTE: u8 = 0xA5;

// How many bytes the CRC is taken of, and where the last byte stands.
const CHECKED: usize = 509;

const LAST_AT: usize = 511;

// Whether all bytes are this one.
#[tactic(auto, using(crate::proofs::Zeros::all_are_by_all))]
pub fn all_are(byte: u8, bytes: &[u8]) -> bool
    ensures { result ≡ all_are byte bytes.now }
{
    bytes.iter().all(|b| *b == byte)
}

// Whether a slot holds a right block.
#[tactic(auto, unfolding(crate::specs::Block::is_block, crate::specs::Block::is_count))]
pub fn is_block(slot: &[u8]) -> bool
    ensures { result ≡ is_block slot.now }
{
    if slot.len() != SLOT {
        return false;
    }
    if slot[0] != FIRST_BYTE {
        return false;
    }
    let count = slot[1] as usize;
    if count < 1 {
        return false;
    }
    if MOST_ADDRESSES < count {
        return false;
    }
    let end = ADDRESSES_AT + ADDRESS_BYTES * count;
    if !all_are(0, &slot[end..CHECKED]) {
        return false;
    }
    let told = octets::get(&slot[CHECKED..LAST_AT]);
    if told != crc::crc(&slot[0..CHECKED]) as u64 {
        return false;
    }
    slot[LAST_AT] == LAST_BYTE
}

// Fills eight bytes for each address, in the order given, high octet first.
fn put_addresses(addresses: &[u64], out: &mut [u8])
    requires { length out.old ≡ address_bytes * length addresses.now }
    ensures { out.new ≡ spread addresses.now }
{
    // By index: of what goes through `zip` with `chunks_exact_mut` a proof knows no element.
    for (i, address) in addresses.iter().enumerate() {
        let at = ADDRESS_BYTES * i;
        out[at..at + ADDRESS_BYTES].copy_from_slice(&address.to_be_bytes());
    }
}

// Fills bytes 0 to 508 of a block: the first byte, the count, the addresses and the zeros.
fn put_content(addresses: &[u64], out: &mut [u8])
    requires { (length out.old ≡ checked) × (length addresses.now ≤ most_addresses) }
    ensures { out.new ≡ content addresses.now }
{
    let count = addresses.len();
    let end = ADDRESSES_AT + ADDRESS_BYTES * count;
    out[0] = FIRST_BYTE;
    out[1] = count as u8;
    put_addresses(addresses, &mut out[ADDRESSES_AT..end]);
    out[end..CHECKED].fill(0);
}

// Puts the block of these addresses into a lent slot, part behind part, from byte 0 to byte 511.
#[tactic(auto, unfolding(crate::specs::Block::block_put, crate::specs::Block::is_count))]
pub fn put(addresses: &[u64], slot: &mut [u8])
    ensures { slot.new ≡ block_put addresses.now slot.old }
{
    if slot.len() != SLOT {
        return;
    }
    if addresses.len() < 1 {
        return;
    }
    if MOST_ADDRESSES < addresses.len() {
        return;
    }
    put_content(addresses, &mut slot[0..CHECKED]);
    let check = crc::crc(&slot[0..CHECKED]);
    slot[CHECKED..LAST_AT].copy_from_slice(&check.to_be_bytes());
    slot[LAST_AT] = LAST_BYTE;
}
