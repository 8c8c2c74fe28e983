//! The nodes that a reaction moves: what lay in the image of a node with a site, and is no image.
ghost use Rattle.std.specs.Prelude.{◌≡◌, ◌+◌, ◌<◌, ◌≤◌, ◌++◌, ℕ, false, IfOk, OnOk, [], length};
ghost use Rattle.std.specs.List.Sorted.{IsStrictlySortedBy};
ghost use Rattle.std.specs.Ordering.{nat_cmp};
ghost use Rattle.bg_lists.specs.Lists.{At};
ghost use Rattle.bg_base.specs.declared.names.Place.TheVariants.{Node};
ghost use Rattle.bg_base.specs.Bigraph.{node_cmp};
ghost use Rattle.bg_base.specs.Limits.{largest_counter};
ghost use Rattle.bg_rewriting.specs.Rewriting.{late_count};
ghost use Rattle.bg_rules.specs.LocalConditions as local;
ghost use Rattle.bg_index.specs.Copying as copying;
ghost use Rattle.bg_index.specs.Copying.{AreMoved};
ghost use Rattle.bg_index.specs.Plans.{AreMoves, IsRead};
ghost use Rattle.bg_index.specs.Readings.{AreLate, boundary_of};

use crate::IndexedHost;
use crate::new_rows::top_made;
use crate::parts::tops_of;
use crate::plans::Move;
use crate::reading::Reading;
use bg_base::{Big, Place};
use bg_lists::Mem;
use bg_rules::Rule;
use bg_rules::images::image_of;
use std::alloc::Global;

/// For the first entry of the map that asks for each site, moves of what lies in the image of the site's node and is no image
/// to where the site of the reactum comes to lie; by node. Costs time n log n, and memory n, in the number of children of these
/// images and of entries.
pub fn moves_of(
    alloc: Global,
    host: &IndexedHost,
    rule: &Rule,
    map: &[u32],
    reading: &Reading,
) -> Mem<Vec<Move>>
    requires read { IsRead host.now rule.now map.now reading.now }
    requires nodes_room { host.now.next_node + length rule.now.reactum.nodes + late_count (boundary_of reading.now).parts [] rule.now.map ≤ largest_counter }
    ensures { IfOk result (λ moves. AreMoves host.now rule.now map.now (boundary_of reading.now) moves.items) }
{
    let mut moves = collected(alloc, host, rule, map, reading, rule.map())?;
    moves.sort_unstable_by_key(|moved| moved.node);
    Ok(moves)
}

/// The moves of [`moves_of`], in the order of the entries. Costs what `tops_of` costs for each entry that is not late.
fn collected(
    alloc: Global,
    host: &IndexedHost,
    rule: &Rule,
    map: &[u32],
    reading: &Reading,
    entries: &[u32],
) -> Mem<Vec<Move>>
    requires read { IsRead host.now rule.now map.now reading.now }
    requires entries { entries.now ≡ rule.now.map }
    requires late { AreLate entries.now reading.now.late.items }
    requires nodes_room { host.now.next_node + length rule.now.reactum.nodes + late_count (boundary_of reading.now).parts [] rule.now.map ≤ largest_counter }
    ensures { IfOk result (λ moves. AreMoved host.now rule.now map.now (boundary_of reading.now) (length entries.now) moves.items) }
{
    let mut moves = Vec::new(alloc);
    for (at, site) in entries.iter().enumerate() {
        let place = top_made(host, rule, reading, at);
        let nodes = tops_at(
            alloc,
            host,
            rule.redex().big(),
            map,
            &reading.images,
            reading.late[at],
            *site,
        )?;
        push_moves(&nodes, place, &mut moves)?;
    }
    Ok(moves)
}

/// What lies in the image of the site's node and is no image; nothing for a late entry.
fn tops_at(
    alloc: Global,
    host: &IndexedHost,
    redex: &Big,
    map: &[u32],
    images: &[u32],
    is_late: bool,
    site: u32,
) -> Mem<Vec<u32>>
    requires redex { IsStrictlySortedBy node_cmp redex.now.nodes }
    requires as_many { length redex.now.nodes ≡ length map.now }
    requires images { IsStrictlySortedBy nat_cmp images.now }
    requires there { site < length redex.now.sites }
    ensures { IfOk result (λ tops. (node : ℕ) → At (Node node) site redex.now.sites
        → tops.items ≡ copying.tops_at host.now.big images.now is_late (local.image_of redex.now map.now node)) }
{
    if is_late {
        return Ok(Vec::new(alloc));
    }
    match redex.sites[site as usize] {
        Place::Node(node) => {
            let tops = tops_of(alloc, host, images, image_of(redex, map, node))?;
            Ok(tops)
        }
        Place::Region(_) => Ok(Vec::new(alloc)),
    }
}

/// Puts moves of these nodes to the place behind the others.
fn push_moves(nodes: &[u32], place: Place, moves: &mut Vec<Move>) -> Mem<()>
    ensures { OnOk result (moves.new.items ≡ moves.old.items ++ copying.moves_to place nodes.now) }
{
    for node in nodes {
        moves.push(Move { node: *node, place })?;
    }
    Ok(())
}
