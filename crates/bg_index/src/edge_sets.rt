//! The edges on ports of rows.
ghost use Rattle.std.specs.Prelude.{◌≡◌, ◌++◌, OnOk};
ghost use Rattle.bg_index.specs.Tied as tied;

use bg_base::Link;
use bg_lists::Mem;

/// Puts the edges among the links behind the others.
pub fn push_edges(links: &[Link], edges: &mut Vec<u32>) -> Mem<()>
    ensures { OnOk result (edges.new.items ≡ edges.old.items ++ tied.edges_in links.now) }
{
    for link in links {
        push_edge(link, edges)?;
    }
    Ok(())
}

/// Puts the edge that the link is behind the others.
pub fn push_edge(link: &Link, edges: &mut Vec<u32>) -> Mem<()>
    ensures { OnOk result (edges.new.items ≡ edges.old.items ++ tied.edge_in link.now) }
{
    match link {
        Link::Edge(edge) => edges.push(*edge)?,
        Link::Outer(_) => {}
    }
    Ok(())
}
