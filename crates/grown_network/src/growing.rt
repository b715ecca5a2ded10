//! A network grows: nodes, then links, then trees.
ghost use Rattle.std.specs.Prelude.{◌≡◌, ◌≤◌, ◌<◌, ◌+◌, ◌-◌, ◌++◌, IfOk, OnOk};
ghost use Rattle.std.specs.List.{flat_map};
ghost use Rattle.tree_routing.specs.Answers.{no_net};
ghost use Rattle.grown_network.specs.Grown.{grown_net, net_with, tree_of};
ghost use Rattle.grown_network.specs.Growing.{AreApart, IsAtHome, TakesTree, hung_up_to, nodes_alone};
ghost use Rattle.grown_network.specs.Hosts.{senders};

use crate::hops::hops_away;
use crate::nodes::{NODES, above, address, down_end, end_of, up_end};
use rsvp_base::NoMemory;
use std::alloc::Global;
use tree_model::LocalSender;
use tree_routing::{HopErr, Routing, Topology};

// Adds the nodes.
fn add_nodes(topology: &mut Topology)
    requires { topology.old ≡ no_net }
    ensures { topology.new ≡ nodes_alone 64 }
{
    for _node in 0..NODES {
        let _ = topology.add_node();
    }
}

// Hangs a node on the one above it, behind those before it.
fn hang(topology: &mut Topology, node: u16) -> Result<(), NoMemory>
    requires range { (1 ≤ node) × (node < 64) }
    requires before { topology.old ≡ hung_up_to (node - 1) }
    ensures { OnOk result (topology.new ≡ hung_up_to node) }
{
    topology.add_end(end_of(above(node), address(node, 1)))?;
    topology.add_end(end_of(node, address(node, 2)))?;
    topology.add_link(down_end(node), up_end(node))
}

// Hangs all nodes.
fn hang_all(topology: &mut Topology) -> Result<(), NoMemory>
    requires { topology.old ≡ nodes_alone 64 }
    ensures { OnOk result (topology.new ≡ hung_up_to 63) }
{
    for node in 1..NODES {
        hang(topology, node)?;
    }
    Ok(())
}

// Adds the tree of a sender: all hops that lead away from its node.
fn add_tree(alloc: Global, topology: &mut Topology, sender: &LocalSender) -> Result<(), NoMemory>
    requires home { IsAtHome sender.now }
    requires takes { TakesTree topology.old sender.now }
    ensures { OnOk result (topology.new ≡ net_with (topology.old.hops ++ tree_of sender.now)) }
{
    let hops = hops_away(alloc, sender.node)?;
    for hop in hops.as_slice() {
        match topology.add_hop(sender.session.group, sender.sender.addr, hop.from, hop.to) {
            Ok(()) => {}
            Err(HopErr::NoMemory) => return Err(NoMemory),
            // The hops of a tree that leads away from a node grow it, and close no chain.
            Err(HopErr::NotTree) => unreachable!(),
            Err(HopErr::Loop { .. }) => unreachable!(),
        }
    }
    Ok(())
}

// Adds the trees of all senders.
fn add_trees(
    alloc: Global,
    topology: &mut Topology,
    senders: &[LocalSender],
) -> Result<(), NoMemory>
    requires hung { topology.old ≡ hung_up_to 63 }
    requires apart { AreApart senders.now }
    ensures { OnOk result (topology.new ≡ net_with (flat_map tree_of senders.now)) }
{
    for sender in senders {
        add_tree(alloc, topology, sender)?;
    }
    Ok(())
}

/// The routing of the network that grows for the senders of a seed. `NoMemory`: there was no room for it.
pub(crate) fn routing(alloc: Global, senders: &[LocalSender]) -> Result<Routing, NoMemory>
    requires { AreApart senders.now }
    ensures { IfOk result (λ routing. routing ≡ net_with (flat_map tree_of senders.now)) }
{
    let mut topology = Topology::new(alloc)?;
    add_nodes(&mut topology);
    hang_all(&mut topology)?;
    add_trees(alloc, &mut topology, senders)?;
    topology.close()
}
