//! Links by their keys.
ghost use Rattle.std.specs.Prelude.{◌≡◌, ◌<◌, ◌^◌, length};
ghost use Rattle.std.specs.List.Sorted.{IsStrictlySortedBy};
ghost use Rattle.bg_base.specs.Order.{name_cmp};
ghost use Rattle.bg_base.specs.declared.names.Link.TheVariants.{Outer};
ghost use Rattle.bg_index.specs.Arrivals.{key_of};
ghost use Rattle.bg_index.specs.Plans.{key_rank};

use crate::plans::LinkKey;
use bg_base::Name;

/// The position of the key among all keys.
pub fn rank(key: LinkKey) -> u64
    ensures { result ≡ key_rank key }
{
    match key {
        LinkKey::Edge(edge) => edge as u64 * 2,
        LinkKey::Name(at) => at as u64 * 2 + 1,
    }
}

/// The key of the outer name; of one that is not there a key that no outer name has.
pub fn name_key(outer: &[Name], name: &Name) -> LinkKey
    requires outer_ascends { IsStrictlySortedBy name_cmp outer.now }
    requires few { length outer.now < 2 ^ 32 }
    ensures { result ≡ key_of outer.now (Outer name.now) }
{
    match outer.binary_search(name) {
        Ok(at) => LinkKey::Name(at as u32),
        Err(_) => LinkKey::Name(outer.len() as u32),
    }
}
