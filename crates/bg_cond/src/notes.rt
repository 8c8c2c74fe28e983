//! In which nodes of a host the first nodes of some maps lie: at each such node the number of one of these maps is noted.
ghost use Rattle.std.specs.Prelude.{◌≡◌, ◌<◌, ◌^◌, false, length, IfOk, IfNone, OnOk};
ghost use Rattle.std.specs.List.{All};
ghost use Rattle.bg_base.specs.Bigraph.{IsValid};
ghost use Rattle.bg_cond.specs.Lists.{is_noted, AreUpward, IsNotedUp, IsNotedFor, AreNotedFor};

use bg_base::{Map, Place};
use bg_lists::Mem;
use bg_match::HostLookup;
use std::alloc::Global;
use std::collections::BTreeMap;

/// At each node in which the first node of one of the maps lies, the number of one such map. No node is gone past twice;
/// takes memory for as many notes.
pub(crate) fn notes_for<H: HostLookup>(
    alloc: Global,
    host: &H,
    maps: &[Map],
) -> Mem<BTreeMap<u32, u32>>
    requires valid { IsValid (H.big host.now) }
    requires few { length maps.now < 2 ^ 32 }
    ensures { IfOk result (λ notes. AreNotedFor (H.big host.now) maps.now notes) }
{
    let mut notes = BTreeMap::new(alloc);
    for (number, map) in maps.iter().enumerate() {
        note_map(host, map.as_slice(), number as u32, &mut notes)?;
    }
    Ok(notes)
}

/// Notes the number of the map at each node in which its first node lies, up to one at which something is noted.
fn note_map<H: HostLookup>(
    host: &H,
    map: &[u32],
    number: u32,
    notes: &mut BTreeMap<u32, u32>,
) -> Mem<()>
    requires valid { IsValid (H.big host.now) }
    requires upward { AreUpward (H.big host.now) notes.old }
    ensures { OnOk result (IsNotedFor (H.big host.now) notes.old notes.new map.now) }
{
    let Some(first) = map.first() else {
        return Ok(());
    };
    let Some(row) = host.row(*first) else {
        return Ok(());
    };
    note_up(host, row.parent, number, notes)?;
    Ok(())
}

/// Notes the number at the place and above it, up to a node at which something is noted.
fn note_up<H: HostLookup>(
    host: &H,
    start: Place,
    number: u32,
    notes: &mut BTreeMap<u32, u32>,
) -> Mem<()>
    requires valid { IsValid (H.big host.now) }
    requires upward { AreUpward (H.big host.now) notes.old }
    ensures { OnOk result (IsNotedUp (H.big host.now) notes.old notes.new start) }
{
    let mut place = start;
    while let Place::Node(node) = place {
        if notes.get(&node).is_some() {
            return Ok(());
        }
        notes.insert(node, number)?;
        let Some(row) = host.row(node) else {
            return Ok(());
        };
        place = row.parent;
    }
    Ok(())
}

/// What is noted at the first of the nodes that has a note.
pub(crate) fn first_noted(nodes: &[u32], notes: &BTreeMap<u32, u32>) -> Option<u32>
    ensures { IfNone result (All (λ node. is_noted notes.now node ≡ false) nodes.now) }
{
    for node in nodes {
        if let Some(number) = notes.get(node) {
            return Some(*number);
        }
    }
    None
}
