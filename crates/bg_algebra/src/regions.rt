//! One region in place of all.
ghost use Rattle.std.specs.Prelude.{◌≡◌, ◌<◌, ◌-◌, ◌^◌, length, map, IfOk};
ghost use Rattle.bg_base.specs.Products.{place_in_one};
ghost use Rattle.bg_algebra.specs.Halves as halves;

use bg_base::Place;
use bg_lists::{Mem, Rows};
use bg_place::{ParentRow, Places};
use std::alloc::Global;

/// The places, with one region in place of all, also of none.
pub(crate) fn in_one_region(alloc: Global, places: &Places) -> Mem<Places>
    ensures { IfOk result (λ made. made ≡ halves.places_in_one places.now) }
{
    Ok(Places {
        regions: 1,
        sites: sites_in_one(alloc, places.sites.as_slice())?,
        parents: parents_in_one(alloc, places.parents.as_slice())?,
    })
}

fn in_one(place: Place) -> Place
    ensures { result ≡ place_in_one place }
{
    match place {
        Place::Node(_) => place,
        Place::Region(_) => Place::Region(0),
    }
}

fn sites_in_one(alloc: Global, sites: &[Place]) -> Mem<Rows<Place>>
    requires few { length sites.now < 2 ^ 32 - 1 }
    ensures { IfOk result (λ made. made ≡ map place_in_one sites.now) }
{
    let mut made = Vec::new(alloc);
    for place in sites {
        made.push(in_one(*place))?;
    }
    Ok(Rows::from_vec(made))
}

fn parents_in_one(alloc: Global, rows: &[ParentRow]) -> Mem<Rows<ParentRow>>
    requires few { length rows.now < 2 ^ 32 - 1 }
    ensures { IfOk result (λ made. made ≡ map halves.parent_in_one rows.now) }
{
    let mut made = Vec::new(alloc);
    for row in rows {
        made.push(ParentRow {
            node: row.node,
            parent: in_one(row.parent),
        })?;
    }
    Ok(Rows::from_vec(made))
}
