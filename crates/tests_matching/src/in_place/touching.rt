//! What is gone and what is changed, by the rows before and after.
use bg_base::{Big, Link, NodeRow, Place};
use bg_index::Touched;
use bg_lists::Mem;
use std::alloc::Global;

fn has_node(rows: &[NodeRow], node: u32) -> bool {
    rows.iter().any(|row| row.id == node)
}

fn has_row(rows: &[NodeRow], wanted: &NodeRow) -> bool {
    rows.iter().any(|row| row == wanted)
}

fn lies_in(rows: &[NodeRow], node: u32, place: Place) -> bool {
    rows.iter().any(|row| row.id == node && row.parent == place)
}

/// Whether what lies in the place lies there in the other rows too.
fn are_in(rows: &[NodeRow], others: &[NodeRow], place: Place) -> bool {
    rows.iter().all(|row| row.parent != place || lies_in(others, row.id, place))
}

fn is_tied_at(row: &NodeRow, port: usize, link: &Link) -> bool {
    match row.links.as_slice().get(port) {
        Some(other) => other == link,
        None => false,
    }
}

fn has_point(rows: &[NodeRow], node: u32, port: usize, link: &Link) -> bool {
    rows.iter()
        .any(|row| row.id == node && is_tied_at(row, port, link))
}

/// Whether the row's ports on the link are on it in the other rows too.
fn are_ports(row: &NodeRow, others: &[NodeRow], link: &Link) -> bool {
    row.links.iter().enumerate().all(|(port, other)| other != link
        || has_point(others, row.id, port, link))
}

fn are_points(rows: &[NodeRow], others: &[NodeRow], link: &Link) -> bool {
    rows.iter().all(|row| are_ports(row, others, link))
}

/// Whether the row is new or another, or its children, or the points of one of its links are.
fn is_changed(before: &[NodeRow], after: &[NodeRow], row: &NodeRow) -> bool {
    let place = Place::Node(row.id);
    !has_row(before, row)
        || !are_in(before, after, place)
        || !are_in(after, before, place)
        || row.links.iter().any(|link| !are_points(before, after, link)
            || !are_points(after, before, link))
}

fn gone(alloc: Global, before: &[NodeRow], after: &[NodeRow]) -> Mem<Vec<u32>> {
    let mut nodes = Vec::new(alloc);
    for row in before {
        if !has_node(after, row.id) {
            nodes.push(row.id)?;
        }
    }
    Ok(nodes)
}

fn changed(alloc: Global, before: &[NodeRow], after: &[NodeRow]) -> Mem<Vec<u32>> {
    let mut nodes = Vec::new(alloc);
    for row in after {
        if is_changed(before, after, row) {
            nodes.push(row.id)?;
        }
    }
    Ok(nodes)
}

/// Whether what is touched is what the rows before and after say.
pub(crate) fn is_touched(alloc: Global, before: &Big, after: &Big, touched: &Touched) -> Mem<bool> {
    let gone = gone(alloc, before.nodes.as_slice(), after.nodes.as_slice())?;
    let changed = changed(alloc, before.nodes.as_slice(), after.nodes.as_slice())?;
    Ok(has_touched(touched, &gone, &changed))
}

pub(crate) fn has_touched(touched: &Touched, gone: &[u32], changed: &[u32]) -> bool {
    touched.gone.as_slice() == gone && touched.changed.as_slice() == changed
}
