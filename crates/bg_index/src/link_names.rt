//! Links beside outer names.
ghost use Rattle.std.specs.Prelude.{◌≡◌, length, option_copied, slice_get};
ghost use Rattle.std.specs.List.{position_or_len};
ghost use Rattle.std.specs.List.Sorted.{IsStrictlySortedBy};
ghost use Rattle.std.specs.Ordering.{is_eq};
ghost use Rattle.bg_base.specs.Order.{name_cmp};

use bg_base::{Link, Name};

/// The link beside the name, in links beside names that ascend. Takes no memory; logarithmic.
pub fn link_beside<'a>(names: &[Name], links: &'a [Link], name: &Name) -> Option<&'a Link>
    requires names { IsStrictlySortedBy name_cmp names.now }
    requires beside { length links.now ≡ length names.now }
    ensures { option_copied result ≡ slice_get links.now (position_or_len (λ other. is_eq (name_cmp other name.now)) names.now) }
{
    match names.binary_search(name) {
        Ok(at) => link_at(links, at),
        Err(_) => None,
    }
}

fn link_at(links: &[Link], at: usize) -> Option<&Link>
    ensures { option_copied result ≡ slice_get links.now at }
{
    links.get(at)
}
