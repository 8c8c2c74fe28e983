//! The points of new rows, by their links.
ghost use Rattle.std.specs.Prelude.{◌≡◌, ◌==◌, ◌++◌, ◌<◌, ◌^◌, IfOk, OnOk, filter, length, map};
ghost use Rattle.std.specs.List.Sorted.{IsNonDecreasingBy};
ghost use Rattle.bg_index.specs.declared.point_arrivals.Arrival.{Arrival as ArrivalValue};
ghost use Rattle.bg_index.specs.Arrivals as defined;
ghost use Rattle.bg_index.specs.Plans.{key_rank};
ghost use Rattle.bg_link.specs.Links.{ports_from};

use crate::IndexedHost;
use crate::keys::rank;
use crate::making::point_copy;
use crate::plans::LinkKey;
use bg_base::{Link, NodeRow};
use bg_link::Point;
use bg_lists::Mem;
use std::alloc::Global;

/// A point of a new row, and the key of its link.
#[derive(Drop)]
pub struct Arrival {
    pub key: LinkKey,
    pub point: Point,
}

/// The points of the rows by the keys of their links; those of one link stay in their order. Costs time n log n in the
/// number of ports.
pub fn arrivals_of(alloc: Global, host: &IndexedHost, rows: &[NodeRow]) -> Mem<Vec<Arrival>>
    ensures { IfOk result (λ made. defined.AreArrivals host.now.big.outer rows.now made.items) }
{
    let mut made = Vec::new(alloc);
    push_rows(host, rows, &mut made)?;
    made.sort_by_key(|arrival| rank(arrival.key))?;
    Ok(made)
}

/// Puts the ports of the rows behind the others.
fn push_rows(host: &IndexedHost, rows: &[NodeRow], made: &mut Vec<Arrival>) -> Mem<()>
    ensures { OnOk result (made.new.items ≡ made.old.items ++ defined.arrived_from host.now.big.outer rows.now) }
{
    for row in rows {
        push_ports(host, row.id, row.links.as_slice(), made)?;
    }
    Ok(())
}

/// Puts the ports of a node behind the others.
fn push_ports(host: &IndexedHost, node: u32, links: &[Link], made: &mut Vec<Arrival>) -> Mem<()>
    requires few { length links.now < 2 ^ 32 }
    ensures { OnOk result (made.new.items ≡ made.old.items ++ map (defined.arrived host.now.big.outer) (ports_from node 0 links.now)) }
{
    for (at, link) in links.iter().enumerate() {
        let index = at as u32;
        made.push(Arrival {
            key: host.key(link),
            point: Point::Port { node, index },
        })?;
    }
    Ok(())
}

/// Puts copies of the points that arrive at the link behind the others.
pub fn push_arriving(
    alloc: Global,
    arrivals: &[Arrival],
    key: LinkKey,
    points: &mut Vec<Point>,
) -> Mem<()>
    requires rise { IsNonDecreasingBy defined.arrival_rank arrivals.now }
    ensures { OnOk result (points.new.items ≡ points.old.items ++ defined.points_arriving arrivals.now key) }
{
    push_points(alloc, arriving(arrivals, key), points)
}

/// Puts copies of the points behind the others.
fn push_points(alloc: Global, arrivals: &[Arrival], points: &mut Vec<Point>) -> Mem<()>
    ensures { OnOk result (points.new.items ≡ points.old.items ++ map defined.arrival_point arrivals.now) }
{
    for arrival in arrivals {
        points.push(point_copy(alloc, &arrival.point)?)?;
    }
    Ok(())
}

/// Those that arrive at the link, by two binary searches.
fn arriving(arrivals: &[Arrival], key: LinkKey) -> &[Arrival]
    requires rise { IsNonDecreasingBy defined.arrival_rank arrivals.now }
    ensures { result.now ≡ filter (λ (arrival : ArrivalValue). defined.arrival_rank arrival == key_rank key) arrivals.now }
{
    let wanted = rank(key);
    let start = arrivals.partition_point(|arrival| rank(arrival.key) < wanted);
    let rest = &arrivals[start..];
    let count = rest.partition_point(|arrival| rank(arrival.key) <= wanted);
    &arrivals[start..start + count]
}
