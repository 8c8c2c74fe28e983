//! What no command asks of a forest, by a listing, and what is known of it by hand.
use crate::made::big_of;
use bg_base::Place;
use bg_lists::Mem;
use bg_place::Forest;
use std::alloc::Global;

/// Region 0 has node 0 with nodes 3 and 9 in it, and node 7 in node 3; region 1 has node 5. Sites 0 and 3 lie in node
/// 3, site 1 in region 1, site 2 in node 0.
const TWO_REGIONS: &str =
    "bigraph 2\nsites 4\nn3\nr1\nn0\nn3\ninner 0\nouter 0\nedges 0\nnodes 5\n0 A r0\n3 A n0\n5 A r1\n7 A n3\n9 A n0\n";

fn forest(alloc: Global) -> Mem<Forest> {
    let big = big_of(alloc, TWO_REGIONS)?;
    let forest = Forest::of(alloc, &big)?;
    Ok(forest)
}

/// Whether the node lies in that place, at that depth.
fn lies_in(forest: &Forest, node: u32, parent: Place, depth: u32) -> bool {
    forest.contains(node) && forest.parent(node) == parent && forest.depth(node) == depth
}

#[test]
fn a_node_has_its_place_and_depth(rt: HostRuntime) -> Mem<()> {
    let forest = forest(rt.alloc())?;
    for &(node, parent, depth) in [
        (0, Place::Region(0), 0),
        (3, Place::Node(0), 1),
        (5, Place::Region(1), 0),
        (7, Place::Node(3), 2),
    ]
    .iter()
    {
        assert!(rt; lies_in(&forest, node, parent, depth));
    }
    assert!(rt; !forest.contains(4));
    Ok(())
}

#[test]
fn a_node_lies_in_others_and_not_in_itself(rt: HostRuntime) -> Mem<()> {
    let forest = forest(rt.alloc())?;
    for &(upper, lower, lies) in [(0, 7, true), (3, 7, true), (7, 7, false), (9, 7, false)].iter() {
        assert!(rt; forest.is_ancestor(upper, lower) == lies);
    }
    Ok(())
}

#[test]
fn a_subtree_has_nodes_of_every_depth(rt: HostRuntime) -> Mem<()> {
    let forest = forest(rt.alloc())?;
    assert!(rt; forest.contains(0));
    assert!(rt; forest.subtree(rt.alloc(), 0)?.as_slice() == [0, 3, 7, 9].as_slice());
    Ok(())
}
