//! A bigraph put together of its two halves, places and links.
ghost use Rattle.std.specs.Prelude.{◌≡◌, ◌++◌, length, map, IfOk};
ghost use Rattle.std.specs.List.Sorted.{IsStrictlySortedBy};
ghost use Rattle.bg_lists.specs.Lists.{sort};
ghost use Rattle.bg_lists.specs.Orders.{before};
ghost use Rattle.bg_base.specs.Bigraph.{node_cmp};
ghost use Rattle.bg_algebra.specs.Halves as halves;

use bg_base::{Big, NodeRow};
use bg_link::{Links, PortRow};
use bg_lists::{Mem, Numbered, Rows, merged};
use bg_place::{ParentRow, Places};
use std::alloc::Global;

/// A node and its control: what its two halves leave out.
#[derive(Clone, Copy, Debug, PartialEq, Eq)]
pub struct ControlRow {
    pub node: u32,
    pub control: u32,
}

impl Numbered for ControlRow {
    ghost number = { λ row. row.node };

    fn number(&self) -> u32 {
        self.node
    }
}

/// The bigraph of these places, links and controls, node by node. Moves the links and copies none.
pub(crate) fn joined(
    alloc: Global,
    places: Places,
    links: Links,
    controls: &[ControlRow],
) -> Mem<Big>
    requires as_many_ports { length links.ports ≡ length places.parents }
    requires as_many_controls { length controls.now ≡ length places.parents }
    ensures { IfOk result (λ made. made ≡ halves.of_halves places links controls.now) }
{
    let Links {
        edges,
        inner,
        outer,
        ports,
    } = links;
    Ok(Big {
        nodes: joined_nodes(alloc, places.parents.as_slice(), ports, controls)?,
        edges,
        sites: places.sites,
        inner,
        regions: places.regions,
        outer,
    })
}

/// The nodes, each of its place, its ports and its control.
fn joined_nodes(
    alloc: Global,
    parents: &[ParentRow],
    ports: Rows<PortRow>,
    controls: &[ControlRow],
) -> Mem<Rows<NodeRow>>
    requires as_many_ports { length ports ≡ length parents.now }
    requires as_many_controls { length controls.now ≡ length parents.now }
    ensures { IfOk result (λ rows. rows ≡ halves.joined_rows parents.now ports controls.now) }
{
    let mut nodes = Vec::with_capacity(alloc, parents.len())?;
    let mut rows = ports.into_vec().into_iter();
    while let Some(row) = rows.next() {
        let at = nodes.len();
        nodes.push(NodeRow {
            id: row.node,
            control: controls[at].control,
            parent: parents[at].parent,
            links: row.links,
        })?;
    }
    Rows::try_from_vec(nodes)
}

/// The nodes of both with their controls, by number. Costs time and memory in proportion to them.
pub(crate) fn controls_of_both(
    alloc: Global,
    first: &[NodeRow],
    second: &[NodeRow],
) -> Mem<Vec<ControlRow>>
    requires first_ascends { IsStrictlySortedBy node_cmp first.now }
    requires second_ascends { IsStrictlySortedBy node_cmp second.now }
    ensures { IfOk result (λ rows. rows.items ≡ sort (before halves.control_cmp) (map halves.control_row first.now ++ map halves.control_row second.now)) }
{
    let upper = control_rows(alloc, first)?;
    let lower = control_rows(alloc, second)?;
    let rows = merged(alloc, upper, lower)?;
    Ok(rows)
}

/// The nodes with their controls. Costs time and memory in proportion to them.
fn control_rows(alloc: Global, nodes: &[NodeRow]) -> Mem<Vec<ControlRow>>
    ensures { IfOk result (λ rows. rows.items ≡ map halves.control_row nodes.now) }
{
    let mut rows = Vec::with_capacity(alloc, nodes.len())?;
    for row in nodes {
        rows.push(ControlRow {
            node: row.id,
            control: row.control,
        })?;
    }
    Ok(rows)
}
