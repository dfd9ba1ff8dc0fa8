// A node's record, the request for a child, a router or a host, and the setting of a limit.
ghost use Rattle.std.specs.Prelude.{◌≡◌};
ghost use Rattle.address.specs.declared.Kind.TheVariants.{Router, Host};
ghost use Rattle.node.specs.Node.{fresh, child_of, set_limit};
ghost use Rattle.pasa.specs.Children.{node_of, pasa_node, pasa_child, pasa_limited};

use pasa::children::{PasaChild, PasaLimited, PasaNode};

// The record that a node starts with.
#[unsafe(no_mangle)]
pub extern "C" fn pasa_fresh(address: u64) -> PasaNode
    ensures { result ≡ pasa_node (fresh address) }
{
    pasa::children::pasa_fresh(address)
}

// Gives the next router child: the record handed back takes the place of this one.
#[unsafe(no_mangle)]
pub extern "C" fn pasa_child_router(node: PasaNode) -> PasaChild
    ensures { result ≡ pasa_child (child_of (node_of node) Router) }
{
    pasa::children::pasa_child_router(node)
}

// Gives the next host child: the record handed back takes the place of this one.
#[unsafe(no_mangle)]
pub extern "C" fn pasa_child_host(node: PasaNode) -> PasaChild
    ensures { result ≡ pasa_child (child_of (node_of node) Host) }
{
    pasa::children::pasa_child_host(node)
}

// Sets the limit on router children: the record handed back takes the place of this one.
#[unsafe(no_mangle)]
pub extern "C" fn pasa_limit_routers(node: PasaNode, limit: u64) -> PasaLimited
    ensures { result ≡ pasa_limited (set_limit (node_of node) Router limit) }
{
    pasa::children::pasa_limit_routers(node, limit)
}

// Sets the limit on host children: the record handed back takes the place of this one.
#[unsafe(no_mangle)]
pub extern "C" fn pasa_limit_hosts(node: PasaNode, limit: u64) -> PasaLimited
    ensures { result ≡ pasa_limited (set_limit (node_of node) Host limit) }
{
    pasa::children::pasa_limit_hosts(node, limit)
}
