//! Walks over an indexed host, beside the occurrences in the plain one.
use bg_base::{Map, NodeRow};
use bg_index::IndexedHost;
use bg_match::{ListFault, NumberedHost, Walk};
use bg_rules::Pattern;
use std::alloc::Global;

/// All occurrences in the indexed host.
fn all(alloc: Global, indexed: &IndexedHost, pattern: &Pattern) -> Result<Vec<Map>, ListFault> {
    indexed.keeps();
    let walk = Walk::new(alloc, indexed, pattern)?;
    walk.collect(10_000)
}

/// Those whose maps begin with the node.
fn anchored(
    alloc: Global,
    indexed: &IndexedHost,
    pattern: &Pattern,
    node: u32,
) -> Result<Vec<Map>, ListFault> {
    indexed.keeps();
    let walk = Walk::from_anchor(alloc, indexed, pattern, node)?;
    walk.collect(10_000)
}

/// Whether each of the maps begins with the node and is one of the others.
fn are_of(found: &[Map], node: u32, maps: &[Map]) -> bool {
    found
        .iter()
        .all(|map| map.first() == Some(&node) && maps.contains(map))
}

/// Whether the walks from each node have, together, as many maps as these, each begins with its node and is one of these.
fn are_anchored(
    alloc: Global,
    indexed: &IndexedHost,
    pattern: &Pattern,
    rows: &[NodeRow],
    maps: &[Map],
) -> Result<bool, ListFault> {
    let mut count = 0_usize;
    for row in rows {
        let found = anchored(alloc, indexed, pattern, row.id)?;
        if !are_of(&found, row.id, maps) {
            return Ok(false);
        }
        count = count.saturating_add(found.len());
    }
    Ok(count == maps.len())
}

/// Whether the walk over all occurrences has these maps, in order.
fn has_all(
    alloc: Global,
    indexed: &IndexedHost,
    pattern: &Pattern,
    maps: &[Map],
) -> Result<bool, ListFault> {
    let found = all(alloc, indexed, pattern)?;
    Ok(found.as_slice() == maps)
}

/// Whether the walks over the indexed host, whose rows are these, go over these maps.
pub(crate) fn are_walked(
    alloc: Global,
    indexed: &IndexedHost,
    pattern: &Pattern,
    rows: &[NodeRow],
    maps: &[Map],
) -> Result<bool, ListFault> {
    Ok(
        has_all(alloc, indexed, pattern, maps)?
            && are_anchored(alloc, indexed, pattern, rows, maps)?,
    )
}
