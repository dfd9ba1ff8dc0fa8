// The journal of a hall: specs/Replay.antt and specs/Slots.antt say what its slots come to, specs/Recovery.antt and specs/Writing.antt what recovery
// and the writer answer.
#![tactic(auto)]

ghost use Rattle.std.specs.Prelude.{ℕ, List, ◌≡◌, true, false, ◌∷◌, [], ◌≤◌, ◌<◌, ◌+◌, ◌-◌, min, length, take, IfSome};
ghost use Rattle.std.specs.Iterator.{IsFinite, AlwaysYields};
ghost use Rattle.address.specs.declared.Kind.TheVariants.{Router, Host};
ghost use Rattle.refusal.specs.Outcome.{outcome_number};
ghost use Rattle.block.specs.Block.{slot_bytes, most_addresses, count_in, addresses_in};
ghost use Rattle.journal.specs.Limits.{most_nodes};
ghost use Rattle.journal.specs.Replay.{among, before, is_next, taken, follow, known};
ghost use Rattle.journal.specs.Record.{children, most_counted, record_in, record_answer};
ghost use Rattle.journal.specs.Slots.{slot_count, not_erased};
ghost use Rattle.journal.specs.Recovery.{is_length, unfit, recovered_by, recovered_answer, known_answer, recovering};
ghost use Rattle.journal.specs.Follows.{Follows};
ghost use Rattle.journal.specs.Reader.{progress_by, progress_answer, step, run, begin, finished};
ghost use Rattle.journal.specs.Writing.{placed_answer, judging, writing};

use address::Address;
use node::Node;
use refusal::Refusal;

// How many slots a journal may have, and how many nodes may be recovered from it, with the root.
pub const MOST_SLOTS: usize = 128;

pub const MOST_NODES: usize = 4096;

// How many words are looked through before it is asked whether a number was among them.
const AT_ONCE: usize = 64;

// "erased to 0xFF"
const ERASED: u8 = 0xFF;

// How far a journal is taken: the next slot; how many slots are not erased; the nodes known, at the front of the words; the first fault; and
// whether nothing is left to take. What is finished is the same whether or not something is left, so this stands beside the fault; and whatever says
// which fault it is, a refusal or its number.
#[derive(Clone, Copy, Debug, PartialEq, Eq)]
pub struct Progress<R> {
    pub slot: usize,
    pub written: usize,
    pub nodes: usize,
    pub refusal: Option<R>,
    pub done: bool,
}

// The address that was given last if this one is the next child: the child before it, or its parent.
#[tactic(auto, unfolding(crate::specs::Replay::before))]
fn before(address: u64) -> u64
    ensures { result ≡ before address }
{
    let half = address / 2;
    if address % 2 == 1 {
        return half;
    }
    if half == 1 {
        return half;
    }
    if half % 2 == 0 {
        return half;
    }
    half - 1
}

// Whether a number stands in a list. All of it is looked through, since over a few words that takes less time than to stop where it stands.
fn among_all(number: u64, list: &[u64]) -> bool
    ensures { result ≡ among number list.now }
{
    list.iter()
        .fold(false, |found, each| found | (*each == number))
}

// Whether a number stands in a list, some words at a time up to those among which it does: most of recovery's time goes here and in the check.
fn among(number: u64, list: &[u64]) -> bool
    ensures { result ≡ among number list.now }
{
    for part in list.chunks(AT_ONCE) {
        if among_all(number, part) {
            return true;
        }
    }
    false
}

// The nodes known, at the front of some lent words. That a method leaves the words the same ones (`same`) each says for itself: who lends them on needs
// it of each call.
#[derive(Drop)]
struct Known<'a> {
    words: &'a mut [u64],
    nodes: usize,
    ghost few: { nodes ≤ most_nodes },
    ghost room: { most_nodes ≤ length words.now },
}

impl<'a> Known<'a> {
    // Whether an address is the next child of one of them.
    #[tactic(auto, unfolding(crate::specs::Replay::is_next))]
    fn has_next(&self, address: u64) -> bool
        ensures { result ≡ is_next (take self.now.nodes self.now.words.now) address }
    {
        let known = &self.words[..self.nodes];
        among(before(address), known) && !among(address, known)
    }

    // One address more, behind them.
    fn take(&mut self, address: u64) -> Result<(), Refusal>
        ensures same { self.new.words.ghost_name ≡ self.old.words.ghost_name }
        ensures follows { Follows (taken (take self.old.nodes self.old.words.now) address) self.old.nodes self.old.words.now self.new.words.now (known_answer result self.new.nodes) }
    {
        if !self.has_next(address) {
            return Err(Refusal::BadJournal);
        }
        if MOST_NODES <= self.nodes {
            return Err(Refusal::TooMany);
        }
        self.words[self.nodes] = address;
        self.nodes += 1;
        Ok(())
    }

    // Some addresses, in order, up to the first fault.
    fn follow<I: Iterator<Item = u64> + Drop>(&mut self, addresses: I) -> Result<(), Refusal>
        requires can { I.can_next addresses }
        requires ends { IsFinite (I.remaining addresses) }
        ensures same { self.new.words.ghost_name ≡ self.old.words.ghost_name }
        ensures follows { (xs : List ℕ) → AlwaysYields I.next_gives (λ x. x) addresses xs → Follows (follow (known (take self.old.nodes self.old.words.now)) xs) self.old.nodes self.old.words.now self.new.words.now (known_answer result self.new.nodes) }
    {
        for address in addresses {
            self.take(address)?;
        }
        Ok(())
    }

    // The addresses of a slot that holds a right block.
    fn follow_slot(&mut self, slot: &[u8]) -> Result<(), Refusal>
        requires { (length slot.now ≡ slot_bytes) × (count_in slot.now ≤ most_addresses) }
        ensures same { self.new.words.ghost_name ≡ self.old.words.ghost_name }
        ensures follows { Follows (follow (known (take self.old.nodes self.old.words.now)) (addresses_in slot.now)) self.old.nodes self.old.words.now self.new.words.now (known_answer result self.new.nodes) }
    {
        let count = slot[1] as usize;
        let end = block::ADDRESSES_AT + block::ADDRESS_BYTES * count;
        let addresses = slot[block::ADDRESSES_AT..end]
            .chunks_exact(block::ADDRESS_BYTES)
            .map(octets::get);
        self.follow(addresses)
    }

    // A slot that is not erased: in the wrong place, torn, a right block or none.
    fn enter(&mut self, slot: &[u8], gap: bool) -> Result<(), Refusal>
        requires { length slot.now ≡ slot_bytes }
        ensures same { self.new.words.ghost_name ≡ self.old.words.ghost_name }
        ensures follows { Follows (not_erased gap (known (take self.old.nodes self.old.words.now)) slot.now) self.old.nodes self.old.words.now self.new.words.now (known_answer result self.new.nodes) }
    {
        if gap {
            return Err(Refusal::BadJournal);
        }
        if slot[block::SLOT - 1] == ERASED {
            return Ok(());
        }
        if !block::is_block(slot) {
            return Err(Refusal::BadJournal);
        }
        self.follow_slot(slot)
    }
}

// Nothing is taken.
fn stopped(slot: usize, written: usize, nodes: usize) -> Progress<Refusal>
    ensures { progress_answer result ≡ record { slot = slot; written = written; nodes = nodes; refusal = 0; done = true } }
{
    Progress {
        slot,
        written,
        nodes,
        refusal: None,
        done: true,
    }
}

// Takes one slot of a journal: the place counter, and what is known so far, come in as numbers and go out moved on: the
// reader stands on this, "thin functions over the covered recovery with plain parameters".
#[tactic(auto, unfolding(crate::specs::Reader::step, crate::specs::Reader::stops, crate::specs::Reader::stopped))]
pub fn take_slot(
    journal: &[u8],
    slot: usize,
    words: &mut [u64],
    written: usize,
    nodes: usize,
) -> Progress<Refusal>
    ensures { (progress_answer result ≡ (step journal.now slot written nodes words.old).progress) × (words.new ≡ (step journal.now slot written nodes words.old).words) }
{
    let slots = journal.len() / block::SLOT;
    if slots <= slot {
        return stopped(slot, written, nodes);
    }
    if words.len() < MOST_NODES {
        return stopped(slot, written, nodes);
    }
    if MOST_NODES < nodes {
        return stopped(slot, written, nodes);
    }
    let next = slot + 1;
    let last = slots <= next;
    let begin = block::SLOT * slot;
    let bytes = &journal[begin..begin + block::SLOT];
    if block::all_are(ERASED, bytes) {
        return Progress {
            slot: next,
            written,
            nodes,
            refusal: None,
            done: last,
        };
    }
    let mut known = Known {
        words: &mut *words,
        nodes,
    };
    match known.enter(bytes, written < slot) {
        Ok(()) => Progress {
            slot: next,
            written: next,
            nodes: known.nodes,
            refusal: None,
            done: last,
        },
        Err(refusal) => {
            words.fill(0);
            Progress {
                slot: next,
                written: 0,
                nodes: 0,
                refusal: Some(refusal),
                done: true,
            }
        }
    }
}

// Takes the slots in order, from a bare root, with a place counter.
fn replay(journal: &[u8], words: &mut [u64]) -> Progress<Refusal>
    requires { (0 < slot_count journal.now) × (most_nodes ≤ length words.old) }
    ensures { (progress_answer result ≡ (run (slot_count journal.now) journal.now (begin words.old)).progress) × (words.new ≡ (run (slot_count journal.now) journal.now (begin words.old)).words) }
{
    words[0] = Address::ROOT.number;
    let mut at = Progress {
        slot: 0,
        written: 0,
        nodes: 1,
        refusal: None,
        done: false,
    };
    while !at.done {
        at = take_slot(journal, at.slot, words, at.written, at.nodes);
    }
    at
}

// "1 to 128 slots of 512 bytes".
#[tactic(auto, unfolding(crate::specs::Recovery::is_length))]
fn is_length(bytes: usize) -> bool
    ensures { result ≡ is_length bytes }
{
    bytes % block::SLOT == 0 && block::SLOT <= bytes && bytes <= MOST_SLOTS * block::SLOT
}

// "Recovery first checks the length (12), then that at least [4,096] words are lent (10)".
#[tactic(auto, unfolding(crate::specs::Recovery::unfit))]
pub fn unfit(bytes: usize, words: usize) -> Result<(), Refusal>
    ensures { outcome_number result ≡ unfit bytes words }
{
    if !is_length(bytes) {
        return Err(Refusal::WrongLength);
    }
    if words < MOST_NODES {
        return Err(Refusal::NoRoom);
    }
    Ok(())
}

// What recovery answers where no slot is left to take, the number of the nodes: zeros stand behind them. A fault has left all of the words zeros. It is
// handed on as it came, whatever numbers faults have but 0.
pub fn finish<R: Copy>(end: Progress<R>, words: &mut [u64]) -> Result<usize, R>
    ensures { (number : R → ℕ) → IfSome end.refusal (λ r. number r ≡ 0 → ⊥) → (recovered_by number result ≡ (finished (progress_by number end) words.old).answer) × (words.new ≡ (finished (progress_by number end) words.old).words) }
{
    if let Some(refusal) = end.refusal {
        return Err(refusal);
    }
    let rest = end.nodes.min(words.len());
    words[rest..].fill(0);
    Ok(end.nodes)
}

// Recovers the nodes of a hall from its journal, and answers their number: the root and the addresses in order, then zeros to the end of the words. A
// journal with a fault leaves all of them zeros.
pub fn recover(journal: &[u8], words: &mut [u64]) -> Result<usize, Refusal>
    ensures { (recovered_answer result ≡ (recovering journal.now words.old).answer) × (words.new ≡ (recovering journal.now words.old).words) }
{
    unfit(journal.len(), words.len())?;
    let end = replay(journal, words);
    finish(end, words)
}

// Whether a block may be written, and into which slot: "12 if the journal's length is wrong or n is outside 1 to 63; 14 or 17 exactly if recovery gives it
// for the journal, or else for its written slots and this block after them, even a 129th; 10 if no slot is erased".
#[tactic(auto, unfolding(crate::specs::Writing::judging, crate::specs::Writing::refuse_placing, block::specs::Block::is_count))]
fn judge(journal: &[u8], addresses: &[u64]) -> Result<usize, Refusal>
    ensures { placed_answer result ≡ judging journal.now addresses.now }
{
    if !is_length(journal.len()) {
        return Err(Refusal::WrongLength);
    }
    if addresses.len() < 1 {
        return Err(Refusal::WrongLength);
    }
    if block::MOST_ADDRESSES < addresses.len() {
        return Err(Refusal::WrongLength);
    }
    // No heap: the words to replay the journal into are the call's own.
    let mut words = [0u64; MOST_NODES];
    let end = replay(journal, &mut words);
    if let Some(refusal) = end.refusal {
        return Err(refusal);
    }
    let mut known = Known {
        words: &mut words,
        nodes: end.nodes,
    };
    known.follow(addresses.iter().copied())?;
    if journal.len() / block::SLOT <= end.written {
        return Err(Refusal::NoRoom);
    }
    Ok(end.written)
}

// Writes a block into the first erased slot of a journal, part behind part, and answers that slot's number, counted from 0. A refusal leaves the journal
// as it is.
pub fn write(journal: &mut [u8], addresses: &[u64]) -> Result<usize, Refusal>
    ensures { (placed_answer result ≡ (writing journal.old addresses.now).answer) × (journal.new ≡ (writing journal.old addresses.now).journal) }
{
    let slot = judge(journal, addresses)?;
    let begin = block::SLOT * slot;
    block::put(addresses, &mut journal[begin..begin + block::SLOT]);
    Ok(slot)
}

// Children counted by their kind, up to 255: no limits, which node's struct of these fields is.
#[derive(Clone, Copy)]
struct Counts {
    routers: u8,
    hosts: u8,
}

// The counts with a word that may be a child of the node.
fn count_word(counts: Counts, node: Address, word: Address) -> Counts
    ensures { (result.routers ≡ min (counts.routers + children Router node.number (word.number ∷ [])) most_counted) × (result.hosts ≡ min (counts.hosts + children Host node.number (word.number ∷ [])) most_counted) }
{
    if word.parent() != node {
        return counts;
    }
    if word.is_host() {
        return Counts {
            hosts: counts.hosts.saturating_add(1),
            ..counts
        };
    }
    Counts {
        routers: counts.routers.saturating_add(1),
        ..counts
    }
}

// One pass counts and looks: over all the words, twice would take twice as long. The record that a node goes on with after a recovery, from the words that it left, where the address is among them.
pub fn record_in(words: &[u64], address: Address) -> Option<Node>
    ensures { record_answer result ≡ record_in words.now address.number }
{
    if address.number == 0 {
        return None;
    }
    let mut found = false;
    let mut counts = Counts {
        routers: 0,
        hosts: 0,
    };
    for number in words {
        let word = Address::of(*number);
        found = found | (word == address);
        counts = count_word(counts, address, word);
    }
    if !found {
        return None;
    }
    Some(Node::fresh(address).with_counts(counts.routers, counts.hosts))
}
