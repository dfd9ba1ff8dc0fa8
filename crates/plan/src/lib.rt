// A hall's plan, read into lent words: specs/Grammar.antt has the text, specs/Hall.antt the addresses, specs/Plan.antt the refusals.
#![tactic(auto)]

ghost use Rattle.std.specs.Prelude.{ℕ, ◌≡◌, ◌∷◌, [], ◌+◌, ◌<◌, ◌≤◌, ◌^◌, length, drop, set, get_or, IfOk, IfErr, Err};
ghost use Rattle.plan.specs.Grammar.{closing, letter_h};
ghost use Rattle.plan.specs.Reading.{inside, fault_at, reading};
ghost use Rattle.plan.specs.Plan.{missing, planned_answer, planning};
ghost use Rattle.plan.specs.declared.PlanRefusal.TheVariants.{Grammar};
ghost use Rattle.node.specs.Node.{given_answer};
ghost use Rattle.refusal.specs.Refusal.{number_of};
ghost use Rattle.plan.specs.Progress.{matched, PartRead, PartStops, HallRead};

use address::{Address, Kind};
use node::{Handed, Node};
use refusal::Refusal;

// How large a plan may be: bytes of its text, nodes with the root, and groups open at once.
pub const MOST_BYTES: usize = 32768;

pub const MOST_NODES: usize = 4096;

const MOST_GROUPS: u32 = 64;

// Why a plan is not read: it has too many bytes or nodes; its text is outside the grammar, from a place on; an address would be too long; or there
// is no room for the addresses.
#[derive(Clone, Copy, Debug, PartialEq, Eq)]
pub enum PlanRefusal {
    TooMany,
    Grammar { place: usize },
    TooLong,
    NoRoom,
}

impl From<PlanRefusal> for Refusal {
    ghost from_gives = { λ p r. number_of r ≡ (planned_answer (Err p)).refusal };

    fn from(refusal: PlanRefusal) -> Refusal {
        match refusal {
            PlanRefusal::TooMany => Refusal::TooMany,
            PlanRefusal::Grammar { .. } => Refusal::BadPlan,
            PlanRefusal::TooLong => Refusal::TooLong,
            PlanRefusal::NoRoom => Refusal::NoRoom,
        }
    }
}

// How far the text is read: the place of the next byte, the nodes before it, and how many of them have no address, since it would be too long.
#[derive(Clone, Copy)]
struct Progress {
    place: usize,
    nodes: usize,
    missing: usize,
}

// The place at which the text stops being the start of any plan.
#[derive(Clone, Copy)]
struct Fault {
    place: usize,
}

impl From<Fault> for PlanRefusal {
    ghost from_gives = { λ f p. p ≡ Grammar f.place };

    fn from(fault: Fault) -> PlanRefusal {
        PlanRefusal::Grammar { place: fault.place }
    }
}

// What an item leaves: the progress, and the record of the group's node as it stands behind the item.
#[derive(Clone, Copy)]
struct AfterItem {
    progress: Progress,
    node: Node,
}

// Stores a word, where there is room for it. By index: of what `get_mut` lends a proof knows no element afterwards.
fn put(at: usize, word: u64, words: &mut [u64])
    ensures { words.new ≡ set words.old at word }
{
    if at < words.len() {
        words[at] = word;
    }
}

impl Progress {
    // One node more, the bytes that name it read.
    #[tactic(auto, using(crate::proofs::Missing::missing_one))]
    fn named(self, place: usize, address: Address) -> Progress
        requires { (self.nodes + 1 < 2 ^ 64) × (self.missing + 1 < 2 ^ 64) }
        ensures { result ≡ record { place = place; nodes = self.nodes + 1; missing = self.missing + missing (address.number ∷ []) } }
    {
        Progress {
            place,
            nodes: self.nodes + 1,
            missing: self.missing + (address.number == 0) as usize,
        }
    }
}

// The place behind the "R(" that stands at a place, or that of the byte which differs or is missing.
#[tactic(auto, unfolding(crate::specs::Progress::matched, crate::specs::Progress::matched_second))]
fn opened(text: &[u8], place: usize) -> Result<usize, Fault>
    requires { place ≤ length text.now }
    ensures both { IfOk result (λ p. (p ≡ place + 2) × (matched (drop place text.now) ≡ 2)) }
    ensures fault { IfErr result (λ f. (f.place ≡ place + matched (drop place text.now)) × (matched (drop place text.now) < 2)) }
{
    match &text[place..] {
        [b'R', b'(', ..] => Ok(place + 2),
        [b'R', ..] => Err(Fault { place: place + 1 }),
        _ => Err(Fault { place }),
    }
}

// The address that an item is given, or zero: the text behind it is read all the same, and the address counted as missing.
fn address_of(given: Handed<Address>) -> Address
    ensures { result ≡ (given_answer given).child }
{
    given.outcome.unwrap_or(Address::of(0))
}

// Reads the hosts that come next, all that stand in a row: in a loop of their own, since a hall has more hosts than routers, and nothing but the count
// of hosts changes from one to the next.
fn hosts(text: &[u8], from: Progress, owner: Node, words: &mut [u64]) -> AfterItem
    requires { (from.place ≤ length text.now) × (from.nodes ≤ from.place) × (from.missing ≤ from.nodes) }
    ensures read { (allowed : ℕ) → PartRead text.now words.old words.new from result.progress allowed (λ up. inside (owner ∷ up)) (λ up. inside (result.node ∷ up)) }
    ensures all { get_or text.now result.progress.place 0 ≡ letter_h → ⊥ }
{
    let mut at = from;
    let mut node = owner;
    while let Some(&b'H') = text.get(at.place) {
        let given = node.child(Kind::Host);
        let host = address_of(given);
        put(at.nodes, host.number, words);
        at = at.named(at.place + 1, host);
        node = given.node;
    }
    AfterItem { progress: at, node }
}

// "A group holds items and an item may hold a group": these two call each other, and with each group that an item opens there is one fewer that
// may be open. What they share goes from hand to hand: a struct of the text and the lent words would be lent anew at each call.

// Reads an item of a group, or all the hosts that stand in a row, with as many more groups allowed to be open.
#[cycle(group_item)]
fn item(
    text: &[u8],
    from: Progress,
    node: Node,
    allowed: u32,
    words: &mut [u64],
) -> Result<AfterItem, Fault>
    requires { (from.place < length text.now) × (get_or text.now from.place 0 ≡ closing → ⊥) × (from.nodes ≤ from.place) × (from.missing ≤ from.nodes) }
    ensures read { IfOk result (λ to. PartRead text.now words.old words.new from to.progress allowed (λ up. inside (node ∷ up)) (λ up. inside (to.node ∷ up)) × (from.place < to.progress.place)) }
    ensures fault { IfErr result (λ f. PartStops text.now from.place f.place allowed (λ up. inside (node ∷ up))) }
{
    let place = from.place;
    if text[place] == b'H' {
        return Ok(hosts(text, from, node, words));
    }
    if allowed == 0 {
        return Err(Fault { place });
    }
    let open = opened(text, place)?;
    let given = node.child(Kind::Router);
    let router = address_of(given);
    put(from.nodes, router.number, words);
    let inner = from.named(open, router);
    let progress = group(text, inner, Node::fresh(router), allowed - 1, words)?;
    Ok(AfterItem {
        progress,
        node: given.node,
    })
}

// Reads the items of a group up to its ")", with as many more groups allowed to be open.
#[cycle(group_item)]
fn group(
    text: &[u8],
    from: Progress,
    owner: Node,
    allowed: u32,
    words: &mut [u64],
) -> Result<Progress, Fault>
    requires { (from.place ≤ length text.now) × (from.nodes ≤ from.place) × (from.missing ≤ from.nodes) }
    ensures read { IfOk result (λ to. PartRead text.now words.old words.new from to allowed (λ up. inside (owner ∷ up)) (λ up. inside up)) }
    ensures fault { IfErr result (λ f. PartStops text.now from.place f.place allowed (λ up. inside (owner ∷ up))) }
{
    let mut at = from;
    let mut node = owner;
    while let Some(&byte) = text.get(at.place) {
        if byte == b')' {
            return Ok(Progress {
                place: at.place + 1,
                ..at
            });
        }
        let read = item(text, at, node, allowed, words)?;
        at = read.progress;
        node = read.node;
    }
    Err(Fault { place: at.place })
}

// Reads the whole text. An address that finds no room is counted all the same.
fn hall(text: &[u8], words: &mut [u64]) -> Result<Progress, Fault>
    ensures read { IfOk result (λ to. HallRead text.now words.old words.new to) }
    ensures fault { IfErr result (λ f. reading text.now ≡ fault_at f.place) }
{
    let open = opened(text, 0)?;
    put(0, Address::ROOT.number, words);
    let root = Progress {
        place: open,
        nodes: 1,
        missing: 0,
    };
    let end = group(
        text,
        root,
        Node::fresh(Address::ROOT),
        MOST_GROUPS - 1,
        words,
    )?;
    if end.place < text.len() {
        return Err(Fault { place: end.place });
    }
    Ok(end)
}

// Reads a plan: lists the addresses of its hall at the front of the words, and answers their number. A refusal leaves the words as they are, so the
// text is judged first, over none of them.
#[tactic(auto, using(crate::proofs::PlanLaws::front), unfolding(crate::specs::Plan::refuse_plan, crate::specs::Plan::listed, crate::specs::Plan::judged, crate::specs::Plan::planning))]
pub fn read(text: &[u8], words: &mut [u64]) -> Result<usize, PlanRefusal>
    ensures answer { planned_answer result ≡ (planning text.now words.old).answer }
    ensures words { words.new ≡ (planning text.now words.old).words }
{
    if MOST_BYTES < text.len() {
        return Err(PlanRefusal::TooMany);
    }
    let judged = hall(text, &mut [])?;
    if MOST_NODES < judged.nodes {
        return Err(PlanRefusal::TooMany);
    }
    if 0 < judged.missing {
        return Err(PlanRefusal::TooLong);
    }
    if words.len() < judged.nodes {
        return Err(PlanRefusal::NoRoom);
    }
    let listed = hall(text, words)?;
    Ok(listed.nodes)
}
