//! What is to lie in each new node, and in each place round the images.
ghost use Rattle.std.specs.Prelude.{◌≡◌, ◌↔◌, IfOk};
ghost use Rattle.std.specs.List.Sorted.{IsStrictlySortedBy};
ghost use Rattle.std.specs.Ordering.{nat_cmp};
ghost use Rattle.bg_lists.specs.Lists.{Mem as Member};
ghost use Rattle.bg_base.specs.declared.names.Place.{Place as PlaceValue};
ghost use Rattle.bg_base.specs.declared.names.Place.TheVariants.{Node};
ghost use Rattle.bg_index.specs.declared.entries.NodeEntry.{NodeEntry as NodeEntryValue};
ghost use Rattle.bg_index.specs.declared.plans.Nest.{Nest as NestValue};
ghost use Rattle.bg_index.specs.Arriving.{AreNestedIn, arriving, places_in, rows_in};
ghost use Rattle.bg_place.specs.Places.{numbers_in};

use crate::IndexedHost;
use crate::arrivals::NodesByPlace;
use crate::entries::NodeEntry;
use crate::plans::{Move, Nest};
use crate::reading::Reading;
use crate::sets::place_set;
use crate::spans::changed;
use bg_base::{NodeRow, Place};
use bg_lists::{Mem, copies};
use std::alloc::Global;

/// What is to lie in places: new nodes, each with what is to lie in it, and what is to lie in each place round the images.
#[derive(Drop)]
pub struct Filling {
    pub entries: Vec<NodeEntry>,
    pub nests: Vec<Nest>,
}

/// The rows, and each place in which an image lay, with what is to lie in them: what lies in such a place and is no image, and
/// what moves there or is new there. Costs time n log n, and memory n, in the number of the moves and the new rows, of the
/// images, and of the regions of the redex; and for each of these places a copy of what lies there, with a search in it for
/// each image and for each node that comes there.
pub fn filling_of(
    alloc: Global,
    host: &IndexedHost,
    reading: &Reading,
    moves: &[Move],
    new: Vec<NodeRow>,
) -> Mem<Filling>
    requires images_ascend { IsStrictlySortedBy nat_cmp reading.now.images.items }
    requires arrivals_ascend { (place : PlaceValue) → IsStrictlySortedBy nat_cmp (numbers_in place (arriving moves.now new.items)) }
    ensures rows { IfOk result (λ filling. rows_in filling.entries.items ≡ new.items) }
    ensures filled { IfOk result (λ filling. (entry : NodeEntryValue) → Member entry filling.entries.items
        → entry.children.items ≡ numbers_in (Node entry.row.id) (arriving moves.now new.items)) }
    ensures places { IfOk result (λ filling. (place : PlaceValue) → (Member place (places_in filling.nests.items) ↔ Member place reading.now.places.items)) }
    ensures nested { IfOk result (λ filling. (nest : NestValue) → Member nest filling.nests.items
        → AreNestedIn host.now.big reading.now.images.items (arriving moves.now new.items) nest.place nest.children.items) }
{
    let incoming = NodesByPlace::of(alloc, moves, &new)?;
    let nests = nests_of(alloc, host, reading, &incoming)?;
    let entries = filled(alloc, &incoming, new)?;
    Ok(Filling { entries, nests })
}

/// The rows, each with what arrives in its node.
fn filled(alloc: Global, incoming: &NodesByPlace, new: Vec<NodeRow>) -> Mem<Vec<NodeEntry>>
    ensures rows { IfOk result (λ entries. rows_in entries.items ≡ new.items) }
    ensures children { IfOk result (λ entries. (entry : NodeEntryValue) → Member entry entries.items
        → entry.children.items ≡ numbers_in (Node entry.row.id) incoming.now) }
{
    let mut entries = Vec::with_capacity(alloc, new.len())?;
    for row in new {
        let children = copies(alloc, incoming.in_place(Place::Node(row.id)))?;
        entries.push(NodeEntry { row, children })?;
    }
    Ok(entries)
}

/// Each place in which an image lay, with its children that are no images and what arrives there.
fn nests_of(
    alloc: Global,
    host: &IndexedHost,
    reading: &Reading,
    incoming: &NodesByPlace,
) -> Mem<Vec<Nest>>
    requires images_ascend { IsStrictlySortedBy nat_cmp reading.now.images.items }
    requires arrivals_ascend { (place : PlaceValue) → IsStrictlySortedBy nat_cmp (numbers_in place incoming.now) }
    ensures places { IfOk result (λ nests. (place : PlaceValue) → (Member place (places_in nests.items) ↔ Member place reading.now.places.items)) }
    ensures nested { IfOk result (λ nests. (nest : NestValue) → Member nest nests.items
        → AreNestedIn host.now.big reading.now.images.items incoming.now nest.place nest.children.items) }
{
    let places = places_once(alloc, &reading.places)?;
    let nests = nests_at(alloc, host, &reading.images, incoming, &places)?;
    Ok(nests)
}

/// The places, each once.
fn places_once(alloc: Global, places: &[Place]) -> Mem<Vec<Place>>
    ensures { IfOk result (λ once. (place : PlaceValue) → (Member place once.items ↔ Member place places.now)) }
{
    let copied = copies(alloc, places)?;
    Ok(place_set(copied))
}

/// The places, each with its children that are no images and what arrives there.
fn nests_at(
    alloc: Global,
    host: &IndexedHost,
    images: &[u32],
    incoming: &NodesByPlace,
    places: &[Place],
) -> Mem<Vec<Nest>>
    requires ascending { IsStrictlySortedBy nat_cmp images.now }
    requires arrivals_ascend { (place : PlaceValue) → IsStrictlySortedBy nat_cmp (numbers_in place incoming.now) }
    ensures places { IfOk result (λ nests. places_in nests.items ≡ places.now) }
    ensures nested { IfOk result (λ nests. (nest : NestValue) → Member nest nests.items
        → AreNestedIn host.now.big images.now incoming.now nest.place nest.children.items) }
{
    let mut nests = Vec::with_capacity(alloc, places.len())?;
    for place in places {
        let children = nested(alloc, host, images, incoming, *place)?;
        nests.push(Nest {
            place: *place,
            children,
        })?;
    }
    Ok(nests)
}

/// The children of the place that are no images and what arrives there, ascending. Of m children it costs a copy of them, and a
/// search in them for each image and for each node that arrives.
fn nested(
    alloc: Global,
    host: &IndexedHost,
    images: &[u32],
    incoming: &NodesByPlace,
    place: Place,
) -> Mem<Vec<u32>>
    requires ascending { IsStrictlySortedBy nat_cmp images.now }
    requires arrivals_ascend { IsStrictlySortedBy nat_cmp (numbers_in place incoming.now) }
    ensures { IfOk result (λ children. AreNestedIn host.now.big images.now incoming.now place children.items) }
{
    let before = host.children(place);
    let arrivals = incoming.in_place(place);
    let children = changed(alloc, before, images, arrivals)?;
    Ok(children)
}
