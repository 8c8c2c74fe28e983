//! A plan is carried out. Nothing can fail, and no memory is taken.
ghost use Rattle.bg_index.specs.Commits.{IsReady};
ghost use Rattle.bg_index.specs.Indexed.{IsIndex};
ghost use Rattle.bg_index.specs.Plans.{HasRoom, IsCarriedOut};

use crate::commit_controls::{put_in, take_out};
use crate::commit_links::change_links;
use crate::commit_nodes::change_nodes;
use crate::entries::Index;
use crate::plans::Plan;

/// Carries out the plan, for which there is room. Takes no memory. Costs, for each node, place and link that the plan names, a
/// search in each list in which it stands. Besides, of a list from which items go what stands behind each moves up, or the list
/// is passed over once.
pub fn carry_out(index: &mut Index, plan: Plan)
    requires index { IsIndex index.old }
    requires room { HasRoom index.old plan }
    requires ready { IsReady index.old plan }
    ensures { IsCarriedOut index.old plan index.new }
{
    let Plan {
        gone,
        moves,
        entries,
        nests,
        idle,
        used,
        bundles,
        next_node,
        next_edge,
    } = plan;
    take_out(&index.nodes, &index.slots, &mut index.controls, &gone);
    put_in(&mut index.controls, &entries);
    change_nodes(
        &mut index.nodes,
        &mut index.slots,
        &mut index.regions,
        &gone,
        &moves,
        nests,
        entries,
    );
    change_links(
        &mut index.edges,
        &mut index.names,
        &idle,
        &gone,
        bundles,
        used,
    );
    index.next_node = next_node;
    index.next_edge = next_edge;
}
