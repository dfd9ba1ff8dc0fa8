// The next hop from an address and from a packet, and those for many destinations.
ghost use Rattle.std.specs.Prelude.{◌≡◌};
ghost use Rattle.forward.specs.Forward.{next_hop};
ghost use Rattle.packet.specs.Packet.{packet_hop};
ghost use Rattle.pasa.specs.Children.{node_of};
ghost use Rattle.batch.specs.Exported.{pasa_hop};
ghost use Rattle.batch.specs.Batch.{next_hops};

use super::children::PasaNode;
use address::Address;
use batch::PasaHop;
use node::Node;

// The next hop for a packet to the destination, at the node with this record.
#[unsafe(no_mangle)]
pub extern "C" fn pasa_next_hop(node: PasaNode, destination: u64) -> PasaHop
    ensures { result ≡ pasa_hop (next_hop (node_of node) destination) }
{
    PasaHop::from(forward::next_hop(Node::from(node), Address::of(destination)))
}

// The next hop for a packet, at the node with this record.
#[unsafe(no_mangle)]
pub extern "C" fn pasa_packet_next_hop(node: PasaNode, packet: &[u8]) -> PasaHop
    ensures { result ≡ pasa_hop (packet_hop (node_of node) packet.now) }
{
    PasaHop::from(packet::next_hop(Node::from(node), packet))
}

// The next hops for many destinations, at the node with this record: as many as the shortest slice allows, which is the answer. What
// stands behind so many in the slices lent stays as it was.
#[unsafe(no_mangle)]
pub extern "C" fn pasa_next_hops(
    node: PasaNode,
    destinations: &[u64],
    nodes: &mut [u64],
    actions: &mut [u8],
    refusals: &mut [u8],
) -> usize
    ensures { record { count = result; nodes = nodes.new; actions = actions.new; refusals = refusals.new }
        ≡ next_hops (node_of node) destinations.now nodes.old actions.old refusals.old }
{
    batch::next_hops(Node::from(node), destinations, nodes, actions, refusals)
}
