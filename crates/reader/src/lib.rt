// The reader of a journal: it keeps hold of the lent slice and of its place, and answers a slot at a time. specs/Reader.antt says what it answers,
// specs/SameAnswers.antt that from the first slot on this is what recovery gives.
#![tactic(auto)]

ghost use Rattle.std.specs.Prelude.{◌≡◌, ◌≤◌, ◌<◌, length};
ghost use Rattle.journal.specs.Limits.{most_nodes};
ghost use Rattle.journal.specs.Slots.{slot_count};
ghost use Rattle.journal.specs.Recovery.{recovered_answer, recovering};
ghost use Rattle.journal.specs.Reader.{progress_answer, run, from};
ghost use Rattle.reader.specs.Reader.{reader_at, taken_answer, taken_at, words_at};

use address::Address;
use journal::Progress;
use refusal::Refusal;

// "a reader that keeps hold of the lent journal and its place": the place is the number of the next slot.
#[derive(Clone, Copy, Debug, PartialEq, Eq)]
pub struct Reader<'a> {
    pub journal: &'a [u8],
    pub slot: usize,
}

// What the reader answers for a slot: itself, moved on, and how far the journal is taken.
#[derive(Clone, Copy, Debug, PartialEq, Eq)]
pub struct Taken<'a> {
    pub reader: Reader<'a>,
    pub progress: Progress<Refusal>,
}

impl<'a> Reader<'a> {
    // A reader of a lent journal, at the first slot.
    pub fn start(journal: &'a [u8]) -> Reader<'a>
        ensures { result ≡ reader_at journal.entry 0 }
    {
        Reader { journal, slot: 0 }
    }

    // Takes the next slot. What is known so far comes in as numbers, beside the words, and goes out with the answer: at the first slot none is
    // written, and one node is known, the root, which stands at the front of the words.
    pub fn next(self, words: &mut [u64], written: usize, nodes: usize) -> Taken<'a>
        ensures { (taken_answer result ≡ taken_at self.entry written nodes words.old) × (words.new ≡ words_at self.entry written nodes words.old) }
    {
        let progress = journal::take_slot(self.journal, self.slot, words, written, nodes);
        Taken {
            reader: Reader {
                journal: self.journal,
                slot: progress.slot,
            },
            progress,
        }
    }

    // The number of the next slot.
    pub fn place(self) -> usize
        ensures { result ≡ self.entry.slot }
    {
        self.slot
    }
}

// Takes the slots in order by a reader, from the first one on, asked until it is done: a way of its own beside `journal::replay`, of which SameAnswers
// says that it comes to the same.
fn replay(journal: &[u8], words: &mut [u64]) -> Progress<Refusal>
    requires { (0 < slot_count journal.now) × (most_nodes ≤ length words.old) }
    ensures { (progress_answer result ≡ (run (slot_count journal.now) journal.now (from words.old)).progress) × (words.new ≡ (run (slot_count journal.now) journal.now (from words.old)).words) }
{
    let mut reader = Reader::start(journal);
    let mut at = Progress {
        slot: 0,
        written: 0,
        nodes: 1,
        refusal: None,
        done: false,
    };
    while !at.done {
        let taken = reader.next(&mut *words, at.written, at.nodes);
        reader = taken.reader;
        at = taken.progress;
    }
    at
}

// Recovers as `journal::recover` does, by a reader: the same refusals, and the same words.
pub fn recover(journal: &[u8], words: &mut [u64]) -> Result<usize, Refusal>
    ensures { (recovered_answer result ≡ (recovering journal.now words.old).answer) × (words.new ≡ (recovering journal.now words.old).words) }
{
    journal::unfit(journal.len(), words.len())?;
    words[0] = Address::ROOT.number;
    let end = replay(journal, words);
    journal::finish(end, words)
}
