//! How links go through another bigraph: an outer name becomes the link of the inner name that it meets.
ghost use Rattle.std.specs.Prelude.{◌≡◌, ◌<◌, ◌-◌, ◌^◌, map, length, IfOk};
ghost use Rattle.std.specs.List.Sorted.{IsStrictlySortedBy};
ghost use Rattle.bg_base.specs.Bigraph.{inner_cmp};
ghost use Rattle.bg_base.specs.Composition as composition;

use bg_base::{Big, InnerRow, Link, LinkVec, PortLinks, find_inner};
use bg_lists::{Duplicate, Mem, Rows};
use std::alloc::Global;

/// What a link of the lower bigraph becomes in its composition with `g`: an outer name becomes the link of that inner
/// name of `g`, a name that is no inner name of `g` stays, and an edge stays. The inner names of `g` ascend. Takes no
/// memory; logarithmic in the number of inner names of `g`.
pub fn link_through<'a>(g: &'a Big, link: &'a Link) -> &'a Link
    requires ascending { IsStrictlySortedBy inner_cmp g.now.inner }
    ensures { result.now ≡ composition.link_through g.now link.now }
{
    match link {
        Link::Edge(_) => link,
        Link::Outer(name) => match find_inner(&g.inner, name) {
            Some(row) => &row.link,
            None => link,
        },
    }
}

/// The links of a node of the lower bigraph, in the composition. Costs memory in proportion to the result, and for each
/// link the logarithm of the number of inner names of `g`.
pub fn links_through(alloc: Global, g: &Big, links: &[Link]) -> Mem<PortLinks>
    requires ascending { IsStrictlySortedBy inner_cmp g.now.inner }
    requires small { length links.now < 2 ^ 32 - 1 }
    ensures { IfOk result (λ made. made ≡ map (composition.link_through g.now) links.now) }
{
    let items = link_list_through(alloc, g, links)?;
    Ok(PortLinks::from_small_vec(items))
}

fn link_list_through(alloc: Global, g: &Big, links: &[Link]) -> Mem<LinkVec>
    requires ascending { IsStrictlySortedBy inner_cmp g.now.inner }
    ensures { IfOk result (λ made. made.items ≡ map (composition.link_through g.now) links.now) }
{
    let mut made = LinkVec::new(alloc);
    for link in links {
        made.push(link_through(g, link).copy(alloc)?)?;
    }
    Ok(made)
}

/// The inner names of the lower bigraph with their links, in the composition. Costs memory in proportion to the
/// result, and for each the logarithm of the number of inner names of `g`.
pub fn inner_through(alloc: Global, g: &Big, inner: &[InnerRow]) -> Mem<Rows<InnerRow>>
    requires ascending { IsStrictlySortedBy inner_cmp g.now.inner }
    requires small { length inner.now < 2 ^ 32 - 1 }
    ensures { IfOk result (λ made. made ≡ map (composition.inner_through g.now) inner.now) }
{
    let mut made = Vec::new(alloc);
    for row in inner {
        let link = link_through(g, &row.link).copy(alloc)?;
        made.push(InnerRow {
            name: row.name.copy(alloc)?,
            link,
        })?;
    }
    Ok(Rows::from_vec(made))
}
