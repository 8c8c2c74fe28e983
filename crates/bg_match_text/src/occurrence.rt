//! What is written of an occurrence.
ghost use Rattle.std.specs.Prelude.{◌≡◌, ◌++◌, true, false, OnOk, OnErr};
ghost use Rattle.bg_base.specs.Bigraph.{IsValidUnder};
ghost use Rattle.bg_rules.specs.Decomposition.{Occurs};
ghost use Rattle.bg_match_text.specs.Appending.{Appends};
ghost use Rattle.bg_match_text.specs.MatchText.{IsOccurrenceText, decomposition_text};

use crate::lines::{put_images, put_map};
use bg_base::{Big, Signature};
use bg_decompose::{Decomposition, split};
use bg_listing::write_big;
use bg_lists::Mem;
use bg_rules::Pattern;
use std::alloc::Global;

/// Appends the line of an occurrence's map, and where it is explained the decomposition of the host there. After an
/// error `out` is unchanged. Linear in the text, and holds it twice while it writes.
pub(crate) fn write_occurrence(
    alloc: Global,
    signature: &Signature,
    host: &Big,
    redex: &Pattern,
    map: &[u32],
    explain: bool,
    out: &mut Vec<u8>,
) -> Mem<()>
    requires fits { IsValidUnder signature.now host.now }
    requires occurs { Occurs host.now redex.now map.now }
    ensures ok { OnOk result (Appends (IsOccurrenceText signature.now host.now redex.now map.now explain) out.old.items out.new.items) }
    ensures err { OnErr result (out.new.items ≡ out.old.items) }
{
    let mut text = Vec::new(alloc);
    put_occurrence(alloc, signature, host, redex, map, explain, &mut text)?;
    out.extend_from_slice(text.as_slice())?;
    Ok(())
}

fn put_occurrence(
    alloc: Global,
    signature: &Signature,
    host: &Big,
    redex: &Pattern,
    map: &[u32],
    explain: bool,
    out: &mut Vec<u8>,
) -> Mem<()>
    requires fits { IsValidUnder signature.now host.now }
    requires occurs { Occurs host.now redex.now map.now }
    ensures { OnOk result (Appends (IsOccurrenceText signature.now host.now redex.now map.now explain) out.old.items out.new.items) }
{
    if explain {
        put_explained(alloc, signature, host, redex, map, out)
    } else {
        put_plain(alloc, signature, host, redex, map, out)
    }
}

fn put_plain(
    alloc: Global,
    signature: &Signature,
    host: &Big,
    redex: &Pattern,
    map: &[u32],
    out: &mut Vec<u8>,
) -> Mem<()>
    ensures { OnOk result (Appends (IsOccurrenceText signature.now host.now redex.now map.now false) out.old.items out.new.items) }
{
    put_map(alloc, map, out)?;
    Ok(())
}

fn put_explained(
    alloc: Global,
    signature: &Signature,
    host: &Big,
    redex: &Pattern,
    map: &[u32],
    out: &mut Vec<u8>,
) -> Mem<()>
    requires fits { IsValidUnder signature.now host.now }
    requires occurs { Occurs host.now redex.now map.now }
    ensures { OnOk result (Appends (IsOccurrenceText signature.now host.now redex.now map.now true) out.old.items out.new.items) }
{
    let parts = split(alloc, host, redex, map)?;
    put_map(alloc, map, out)?;
    put_decomposition(alloc, signature, &parts, out)?;
    Ok(())
}

#[tactic(auto, unfolding(crate::specs::MatchText::decomposition_text))]
fn put_decomposition(
    alloc: Global,
    signature: &Signature,
    parts: &Decomposition,
    out: &mut Vec<u8>,
) -> Mem<()>
    requires context_fits { IsValidUnder signature.now parts.now.context }
    requires parameter_fits { IsValidUnder signature.now parts.now.parameter }
    ensures { OnOk result (out.new.items ≡ out.old.items ++ decomposition_text signature.now parts.now.context parts.now.images parts.now.parameter) }
{
    put_images(alloc, &parts.images, out)?;
    out.extend_from_slice(b"context\n")?;
    write_big(alloc, signature, &parts.context, out)?;
    out.extend_from_slice(b"parameter\n")?;
    write_big(alloc, signature, &parts.parameter, out)
}
