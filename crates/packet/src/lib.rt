// The next hop from a packet: the record is judged first, then the header is read, then the answer is that for the address read.
#![tactic(auto)]

ghost use Rattle.std.specs.Prelude.{◌≡◌};
ghost use Rattle.forward.specs.Forward.{hop_answer};
ghost use Rattle.packet.specs.Packet.{packet_hop};

use forward::Hop;
use node::Node;
use refusal::Refusal;

// The next hop for a packet, at the node with this record.
#[tactic(auto, unfolding(forward::specs::Forward::hop_answer, crate::specs::Packet::packet_hop), using(refusal::proofs::Numbers::some))]
pub fn next_hop(node: Node, packet: &[u8]) -> Result<Hop, Refusal>
    ensures { hop_answer result ≡ packet_hop node packet.now }
{
    if !node.is_good() {
        return Err(Refusal::BadRecord);
    }
    let header = header::read(packet)?;
    forward::next_hop(node, header.address)
}
