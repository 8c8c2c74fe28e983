//! The parts of a parameter: its rows by the region that they lie under. Each node is climbed from until a region or a
//! row whose region is known, and the rows on the way are marked with it, so that none is climbed from twice.
ghost use Rattle.std.specs.Prelude.{◌≡◌, true, map, is_some, IfOk};
ghost use Rattle.bg_base.specs.declared.names.Place.TheVariants.{Node};
ghost use Rattle.bg_base.specs.Bigraph.{IsValid, has_place, row_of};
ghost use Rattle.bg_base.specs.Climbing.{node_at, depth};
ghost use Rattle.bg_rules.specs.Instantiation.{part};
ghost use Rattle.bg_react.specs.Parts.{lies_under, region_above, AreMarked, AreMembers, member_region, member_row};

use bg_base::{AtFoothold, Big, Climbable, NodeRow, Place, find_node_at, marked_value, no_marks};
use bg_lists::{Duplicate, Mem};
use std::alloc::Global;
use std::marker::Model;

/// The rows of a parameter, those of one region together, and beside them their regions. A contract sees the parameter.
#[derive(Drop)]
pub(crate) struct Parts<'a> {
    parameter: &'a Big,
    regions: Vec<u32>,
    rows: Vec<NodeRow>,
}

impl<'a> Model for Parts<'a> {
    ghost use Rattle.bg_base.specs.declared.big.Big.{Big};
    ghost use Rattle.bg_base.specs.Bigraph.{IsValid};
    ghost use Rattle.bg_react.specs.Parts.{AreParts};

    ghost Value = { Big };

    ghost view = { λ parts. parts.parameter.now };

    ghost invariant = { λ parts. IsValid parts.parameter.now × AreParts parts.parameter.now parts.regions.items parts.rows.items };
}

impl<'a> Parts<'a> {
    /// The parts of the parameter. Costs time n log n, and memory n, in the number of its nodes and ports.
    pub(crate) fn of(alloc: Global, parameter: &'a Big) -> Mem<Parts<'a>>
        requires valid { IsValid parameter.now }
        ensures { IfOk result (λ parts. parts ≡ parameter.now) }
    {
        let mut members = members_of(alloc, parameter)?;
        members.sort_by_key(|member| member.region)?;
        let regions = regions(alloc, members.as_slice())?;
        let rows = rows_alone(alloc, members)?;
        Ok(Parts {
            parameter,
            regions,
            rows,
        })
    }

    /// The parameter.
    pub(crate) fn parameter(&self) -> &Big
        ensures same { result.now ≡ self.now }
        ensures valid { IsValid self.now }
    {
        self.parameter
    }

    /// The rows that lie under the region, in their order; none where the parameter has no such region. Takes no
    /// memory; logarithmic in the number of nodes.
    pub(crate) fn part(&self, region: u32) -> &[NodeRow]
        ensures { result.now ≡ part self.now region }
    {
        let start = self.regions.partition_point(|other| *other < region);
        let rest = &self.regions[start..];
        let count = rest.partition_point(|other| *other <= region);
        &self.rows[start..start + count]
    }
}

/// A row with the region that it lies under.
#[derive(Drop)]
struct Member {
    region: u32,
    row: NodeRow,
}

/// A parameter, whose places lie under regions.
#[derive(Drop)]
struct Under<'a> {
    parameter: &'a Big,
}

impl<'a> Climbable for Under<'a> {
    type Foothold = Place;

    type Value = u32;

    ghost is_foothold = { λ under place. IsValid under.parameter.now × (has_place under.parameter.now place ≡ true) };

    ghost value = { λ under place. region_above under.parameter.now place };

    ghost value_at = { λ under at. region_above under.parameter.now (Node (node_at under.parameter.now.nodes at)) };

    ghost height = { λ under place. depth under.parameter.now place };

    fn find(&self, place: Place) -> AtFoothold<u32, Place> {
        match place {
            Place::Region(region) => AtFoothold::Value(region),
            Place::Node(node) => match find_node_at(&self.parameter.nodes, node) {
                Some((at, row)) => AtFoothold::Row {
                    at,
                    above: row.parent,
                },
                None => AtFoothold::Value(0),
            },
        }
    }
}

/// The region that the node lies under; the rows on the way are marked then.
fn region_of(parameter: &Big, marks: &mut [Option<u32>], node: u32) -> u32
    requires valid { IsValid parameter.now }
    requires there { is_some (row_of parameter.now.nodes node) ≡ true }
    requires marks { AreMarked parameter.now marks.old }
    ensures under { lies_under parameter.now result (Node node) ≡ true }
    ensures marks { AreMarked parameter.now marks.new }
{
    let under = Under { parameter };
    marked_value(&under, marks, Place::Node(node))
}

/// The rows of the parameter, each with the region that it lies under, by these marks.
fn members_by(alloc: Global, parameter: &Big, marks: &mut [Option<u32>]) -> Mem<Vec<Member>>
    requires valid { IsValid parameter.now }
    requires marks { AreMarked parameter.now marks.old }
    ensures { IfOk result (λ members. AreMembers parameter.now parameter.now.nodes members.items) }
{
    let mut members = Vec::new(alloc);
    let rows = parameter.nodes.as_slice();
    for row in rows {
        let region = region_of(parameter, marks, row.id);
        members.push(Member {
            region,
            row: row.copy(alloc)?,
        })?;
    }
    Ok(members)
}

/// The rows of the parameter, each with the region that it lies under.
fn members_of(alloc: Global, parameter: &Big) -> Mem<Vec<Member>>
    requires valid { IsValid parameter.now }
    ensures { IfOk result (λ members. AreMembers parameter.now parameter.now.nodes members.items) }
{
    let mut marks = no_marks(alloc, parameter.nodes.as_slice().len())?;
    let members = members_by(alloc, parameter, &mut marks)?;
    Ok(members)
}

/// The regions of the members.
fn regions(alloc: Global, members: &[Member]) -> Mem<Vec<u32>>
    ensures { IfOk result (λ made. made.items ≡ map member_region members.now) }
{
    let mut made = Vec::new(alloc);
    for member in members {
        made.push(member.region)?;
    }
    Ok(made)
}

/// The rows of the members alone.
fn rows_alone(alloc: Global, members: Vec<Member>) -> Mem<Vec<NodeRow>>
    ensures { IfOk result (λ made. made.items ≡ map member_row members.items) }
{
    let mut made = Vec::new(alloc);
    for member in members {
        made.push(member.row)?;
    }
    Ok(made)
}
