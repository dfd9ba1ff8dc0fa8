// A node's record, the request for a child, a router or a host, and the setting of a limit.
ghost use Rattle.std.specs.Prelude.{◌≡◌};
ghost use Rattle.address.specs.declared.Kind.TheVariants.{Router, Host};
ghost use Rattle.node.specs.Node.{fresh, given_answer, child_of, limited_answer, set_limit};
ghost use Rattle.pasa.specs.Children.{node_of, pasa_node, pasa_child, pasa_limited};

use super::number;
use address::{Address, Kind};
use node::{Handed, Limits, Node};

// An address with the children of each kind given so far, and the limits on them.
#[repr(C)]
#[derive(Clone, Copy, Debug, Default, PartialEq, Eq)]
pub struct PasaNode {
    pub address: u64,
    pub routers: u8,
    pub hosts: u8,
    pub router_limit: u8,
    pub host_limit: u8,
}

// What a request for a child answers: the record to go on with, the child's address, 0 in a refusal, and the refusal's number, 0 where the
// child is given.
#[repr(C)]
#[derive(Clone, Copy, Debug, PartialEq, Eq)]
pub struct PasaChild {
    pub node: PasaNode,
    pub child: u64,
    pub refusal: u8,
}

// What a setting of a limit answers: the record to go on with, and the refusal's number, 0 where the limit is set.
#[repr(C)]
#[derive(Clone, Copy, Debug, PartialEq, Eq)]
pub struct PasaLimited {
    pub node: PasaNode,
    pub refusal: u8,
}

// The record as the crates below hold it.
impl From<PasaNode> for Node {
    ghost from_gives = { λ node result. result ≡ node_of node };

    #[tactic(auto, unfolding(crate::specs::Children::node_of))]
    fn from(node: PasaNode) -> Node {
        Node {
            address: Address::of(node.address),
            routers: node.routers,
            hosts: node.hosts,
            limits: Limits {
                routers: node.router_limit,
                hosts: node.host_limit,
            },
        }
    }
}

// The record as C holds it.
impl From<Node> for PasaNode {
    ghost from_gives = { λ node result. result ≡ pasa_node node };

    #[tactic(auto, unfolding(crate::specs::Children::pasa_node))]
    fn from(node: Node) -> PasaNode {
        PasaNode {
            address: node.address.number,
            routers: node.routers,
            hosts: node.hosts,
            router_limit: node.limits.routers,
            host_limit: node.limits.hosts,
        }
    }
}

impl From<Handed<Address>> for PasaChild {
    ghost from_gives = { λ handed result. result ≡ pasa_child (given_answer handed) };

    #[tactic(auto, unfolding(crate::specs::Children::pasa_child))]
    fn from(handed: Handed<Address>) -> PasaChild {
        let given = handed.outcome;
        PasaChild {
            node: PasaNode::from(handed.node),
            child: given.map_or(0, |child| child.number),
            refusal: number(&given),
        }
    }
}

impl From<Handed<()>> for PasaLimited {
    ghost from_gives = { λ handed result. result ≡ pasa_limited (limited_answer handed) };

    #[tactic(auto, unfolding(crate::specs::Children::pasa_limited))]
    fn from(handed: Handed<()>) -> PasaLimited {
        let set = handed.outcome;
        PasaLimited {
            node: PasaNode::from(handed.node),
            refusal: number(&set),
        }
    }
}

// The record that a node starts with.
#[unsafe(no_mangle)]
pub extern "C" fn pasa_fresh(address: u64) -> PasaNode
    ensures { result ≡ pasa_node (fresh address) }
{
    PasaNode::from(Node::fresh(Address::of(address)))
}

// Gives the next router child: the record handed back takes the place of this one.
#[unsafe(no_mangle)]
pub extern "C" fn pasa_child_router(node: PasaNode) -> PasaChild
    ensures { result ≡ pasa_child (child_of (node_of node) Router) }
{
    PasaChild::from(Node::from(node).child(Kind::Router))
}

// Gives the next host child: the record handed back takes the place of this one.
#[unsafe(no_mangle)]
pub extern "C" fn pasa_child_host(node: PasaNode) -> PasaChild
    ensures { result ≡ pasa_child (child_of (node_of node) Host) }
{
    PasaChild::from(Node::from(node).child(Kind::Host))
}

// Sets the limit on router children: the record handed back takes the place of this one.
#[unsafe(no_mangle)]
pub extern "C" fn pasa_limit_routers(node: PasaNode, limit: u64) -> PasaLimited
    ensures { result ≡ pasa_limited (set_limit (node_of node) Router limit) }
{
    PasaLimited::from(Node::from(node).set_limit(Kind::Router, limit))
}

// Sets the limit on host children: the record handed back takes the place of this one.
#[unsafe(no_mangle)]
pub extern "C" fn pasa_limit_hosts(node: PasaNode, limit: u64) -> PasaLimited
    ensures { result ≡ pasa_limited (set_limit (node_of node) Host limit) }
{
    PasaLimited::from(Node::from(node).set_limit(Kind::Host, limit))
}
