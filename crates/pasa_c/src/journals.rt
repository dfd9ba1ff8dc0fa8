// The journal of a hall.
ghost use Rattle.std.specs.Prelude.{◌≡◌};
ghost use Rattle.crc.specs.Crc.{crc};
ghost use Rattle.journal.specs.Record.{record_in};
ghost use Rattle.journal.specs.Recovery.{recovering};
ghost use Rattle.journal.specs.Writing.{writing};
ghost use Rattle.pasa.specs.Journals.{pasa_block, pasa_recovered, pasa_record};

use pasa::journals::{PasaBlock, PasaRecord, PasaRecovered};

// Writes a block into the first erased slot of a journal, part behind part.
#[unsafe(no_mangle)]
pub extern "C" fn pasa_journal_write(journal: &mut [u8], addresses: &[u64]) -> PasaBlock
    ensures { (result ≡ pasa_block (writing journal.old addresses.now).answer) × (journal.new ≡ (writing journal.old addresses.now).journal) }
{
    pasa::journals::pasa_journal_write(journal, addresses)
}

// Recovers the nodes of a hall from its journal into the lent words.
#[unsafe(no_mangle)]
pub extern "C" fn pasa_journal_recover(journal: &[u8], words: &mut [u64]) -> PasaRecovered
    ensures { (result ≡ pasa_recovered (recovering journal.now words.old).answer) × (words.new ≡ (recovering journal.now words.old).words) }
{
    pasa::journals::pasa_journal_recover(journal, words)
}

// The record that a node goes on with, from the words that recovery leaves.
#[unsafe(no_mangle)]
pub extern "C" fn pasa_journal_record(words: &[u64], address: u64) -> PasaRecord
    ensures { result ≡ pasa_record (record_in words.now address) }
{
    pasa::journals::pasa_journal_record(words, address)
}

// The CRC of a block's first 509 octets, or of any others.
#[unsafe(no_mangle)]
pub extern "C" fn pasa_crc(octets: &[u8]) -> u16
    ensures { result ≡ crc octets.now }
{
    pasa::journals::pasa_crc(octets)
}
