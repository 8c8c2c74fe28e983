//! Links of an indexed host by their keys.
ghost use Rattle.std.specs.Prelude.{◌≡◌, ◌<◌, Some, length, slice_get};
ghost use Rattle.bg_base.specs.declared.names.Link.{Link as LinkValue};
ghost use Rattle.bg_index.specs.declared.plans.LinkKey.TheVariants.{Name as NameKey};
ghost use Rattle.bg_index.specs.Arrivals.{key_of};
ghost use Rattle.bg_index.specs.Plans.{IsKeyOf};
ghost use Rattle.bg_link.specs.Links.{links_of, points_of};

use crate::IndexedHost;
use crate::keys::name_key;
use crate::plans::LinkKey;
use bg_base::{Link, Name};
use bg_link::Point;

impl IndexedHost {
    /// The key of the link. Takes no memory; logarithmic in the number of outer names.
    pub(crate) fn key(&self, link: &Link) -> LinkKey
        ensures { result ≡ key_of self.now.big.outer link.now }
    {
        let _ = &self.index;
        match link {
            Link::Edge(edge) => LinkKey::Edge(*edge),
            Link::Outer(name) => name_key(self.index.outer.as_slice(), name),
        }
    }

    /// The outer name at that position, which is there.
    pub(crate) fn name(&self, at: u32) -> &Name
        requires there { at < length self.now.big.outer }
        ensures { slice_get self.now.big.outer at ≡ Some result.now }
    {
        &self.index.outer.as_slice()[at as usize]
    }

    /// The points of the link with the key, ascending. Takes no memory; logarithmic in the number of edges.
    pub(crate) fn points_at(&self, key: LinkKey) -> &[Point]
        ensures { (link : LinkValue) → IsKeyOf self.now.big.outer key link → result.now ≡ points_of (links_of self.now.big) link }
    {
        match key {
            LinkKey::Edge(edge) => self.points(&Link::Edge(edge)),
            LinkKey::Name(at) => self.points_of_name(at as usize),
        }
    }

    /// The points of the outer name at that position, ascending.
    fn points_of_name(&self, at: usize) -> &[Point]
        ensures { (link : LinkValue) → IsKeyOf self.now.big.outer (NameKey at) link → result.now ≡ points_of (links_of self.now.big) link }
    {
        match self.index.names.get(at) {
            Some(entry) => entry.points.as_slice(),
            None => &[],
        }
    }
}
