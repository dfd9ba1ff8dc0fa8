// The journal of a hall.
ghost use Rattle.std.specs.Prelude.{◌≡◌};
ghost use Rattle.crc.specs.Crc.{crc};
ghost use Rattle.journal.specs.Record.{record_answer, record_in};
ghost use Rattle.journal.specs.Recovery.{recovered_answer, recovering};
ghost use Rattle.journal.specs.Writing.{placed_answer, writing};
ghost use Rattle.pasa.specs.Journals.{pasa_block, pasa_recovered, pasa_record};

use super::children::PasaNode;
use super::number;
use address::Address;
use node::Node;
use refusal::Refusal;

// What writing a block answers: its slot, counted from 0, 0 in a refusal; and the refusal's number, 0 where the block is written.
#[repr(C)]
#[derive(Clone, Copy, Debug, PartialEq, Eq)]
pub struct PasaBlock {
    pub slot: usize,
    pub refusal: u8,
}

// What recovery answers: the nodes recovered, 0 in a refusal; and the refusal's number, 0 where they are listed.
#[repr(C)]
#[derive(Clone, Copy, Debug, PartialEq, Eq)]
pub struct PasaRecovered {
    pub nodes: usize,
    pub refusal: u8,
}

// A node's record and 1, or all zeros where it is not found.
#[repr(C)]
#[derive(Clone, Copy, Debug, Default, PartialEq, Eq)]
pub struct PasaRecord {
    pub node: PasaNode,
    pub found: u8,
}

impl From<Result<usize, Refusal>> for PasaBlock {
    ghost from_gives = { λ slot result. result ≡ pasa_block (placed_answer slot) };

    #[tactic(auto, unfolding(crate::specs::Journals::pasa_block))]
    fn from(slot: Result<usize, Refusal>) -> PasaBlock {
        PasaBlock {
            slot: slot.unwrap_or(0),
            refusal: number(&slot),
        }
    }
}

impl From<Result<usize, Refusal>> for PasaRecovered {
    ghost from_gives = { λ nodes result. result ≡ pasa_recovered (recovered_answer nodes) };

    #[tactic(auto, unfolding(crate::specs::Journals::pasa_recovered))]
    fn from(nodes: Result<usize, Refusal>) -> PasaRecovered {
        PasaRecovered {
            nodes: nodes.unwrap_or(0),
            refusal: number(&nodes),
        }
    }
}

// A record that is not found is all zeros, the limits too, so that nobody takes it for a record.
impl From<Option<Node>> for PasaRecord {
    ghost from_gives = { λ node result. result ≡ pasa_record (record_answer node) };

    #[tactic(auto, unfolding(crate::specs::Journals::pasa_record, crate::specs::Journals::node_in, crate::specs::Journals::nobody, crate::specs::Journals::bit))]
    fn from(node: Option<Node>) -> PasaRecord {
        match node {
            Some(node) => PasaRecord {
                node: PasaNode::from(node),
                found: 1,
            },
            None => PasaRecord::default(),
        }
    }
}

// Writes a block into the first erased slot of a journal, part behind part.
#[unsafe(no_mangle)]
pub extern "C" fn pasa_journal_write(journal: &mut [u8], addresses: &[u64]) -> PasaBlock
    ensures { (result ≡ pasa_block (writing journal.old addresses.now).answer) × (journal.new ≡ (writing journal.old addresses.now).journal) }
{
    PasaBlock::from(journal::write(journal, addresses))
}

// Recovers the nodes of a hall from its journal into the lent words.
#[unsafe(no_mangle)]
pub extern "C" fn pasa_journal_recover(journal: &[u8], words: &mut [u64]) -> PasaRecovered
    ensures { (result ≡ pasa_recovered (recovering journal.now words.old).answer) × (words.new ≡ (recovering journal.now words.old).words) }
{
    PasaRecovered::from(journal::recover(journal, words))
}

// The record that a node goes on with, from the words that recovery leaves.
#[unsafe(no_mangle)]
pub extern "C" fn pasa_journal_record(words: &[u64], address: u64) -> PasaRecord
    ensures { result ≡ pasa_record (record_in words.now address) }
{
    PasaRecord::from(journal::record_in(words, Address::of(address)))
}

// The CRC of a block's first 509 octets, or of any others.
#[unsafe(no_mangle)]
pub extern "C" fn pasa_crc(octets: &[u8]) -> u16
    ensures { result ≡ crc octets.now }
{
    crc::crc(octets)
}
