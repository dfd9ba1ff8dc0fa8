// The next hops for many destinations at one node, as plain numbers.
#![tactic(auto)]

ghost use Rattle.std.specs.Prelude.{◌≡◌};
ghost use Rattle.forward.specs.Forward.{hop_answer};
ghost use Rattle.batch.specs.Exported.{pasa_hop, numbered_answer};
ghost use Rattle.batch.specs.Batch.{next_hops};

use address::Address;
use forward::Hop;
use node::Node;
use refusal::Refusal;

// What becomes of the packet, by the numbers that C has for it.
#[derive(Clone, Copy, Debug, PartialEq, Eq)]
pub enum Action {
    Stopped = 0,
    Delivered = 1,
    ToParent = 2,
    ToChild = 3,
}

// What a next hop answers: the node passed to, on delivery the node itself, 0 in a refusal; the refusal's number, 0 where there is none;
// and what becomes of the packet.
#[repr(C)]
#[derive(Clone, Copy, Debug, PartialEq, Eq)]
pub struct PasaHop {
    pub node: u64,
    pub refusal: u8,
    pub action: u8,
}

// An answer as the struct, whatever number its refusal has.
#[tactic(auto, unfolding(forward::specs::Forward::hop_answer, crate::specs::Exported::pasa_hop, crate::specs::Exported::action_number))]
pub fn pasa_hop(answer: Result<Hop, u8>) -> PasaHop
    ensures { result ≡ pasa_hop (numbered_answer answer) }
{
    let (node, refusal, action) = match answer {
        Ok(Hop::Deliver(node)) => (node.number, 0, Action::Delivered),
        Ok(Hop::Parent(node)) => (node.number, 0, Action::ToParent),
        Ok(Hop::Child(node)) => (node.number, 0, Action::ToChild),
        Err(number) => (0, number, Action::Stopped),
    };
    PasaHop {
        node,
        refusal,
        action: action as u8,
    }
}

impl From<Result<Hop, Refusal>> for PasaHop {
    ghost from_gives = { λ answer result. result ≡ pasa_hop (hop_answer answer) };

    #[tactic(auto, unfolding(forward::specs::Forward::hop_answer))]
    fn from(answer: Result<Hop, Refusal>) -> PasaHop {
        match answer {
            Ok(hop) => pasa_hop(Ok(hop)),
            Err(refusal) => pasa_hop(Err(refusal.number())),
        }
    }
}

// The next hops for many destinations, at the node with this record: as many as the shortest slice allows, which is the answer. What
// stands behind so many in the slices lent stays as it was.
pub fn next_hops(
    node: Node,
    destinations: &[u64],
    nodes: &mut [u64],
    actions: &mut [u8],
    refusals: &mut [u8],
) -> usize
    ensures { record { count = result; nodes = nodes.new; actions = actions.new; refusals = refusals.new }
        ≡ next_hops node destinations.now nodes.old actions.old refusals.old }
{
    let count = destinations
        .len()
        .min(nodes.len())
        .min(actions.len().min(refusals.len()));
    // The outputs are written by index: of slices that are zipped to be written nothing is known behind the loop.
    for (i, destination) in destinations[..count].iter().enumerate() {
        let answer = PasaHop::from(forward::next_hop(node, Address::of(*destination)));
        nodes[i] = answer.node;
        actions[i] = answer.action;
        refusals[i] = answer.refusal;
    }
    count
}
