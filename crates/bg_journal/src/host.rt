//! The writer of hosts.
ghost use Rattle.std.specs.Prelude.{◌≡◌, ◌++◌, OnOk, OnErr};
ghost use Rattle.bg_base.specs.Bigraph.{IsValidUnder};
ghost use Rattle.bg_journal.specs.JournalText.{host_text};

use bg_base::Signature;
use bg_listing::{write_big, write_number};
use bg_lists::Mem;
use bg_rules::Host;
use std::alloc::Global;

/// Appends the text of the host: the line `host` with its two counters, and the listing of its bigraph. After an error
/// `out` is unchanged. Linear in the text, and holds it twice while it writes.
pub fn write_host(alloc: Global, signature: &Signature, host: &Host, out: &mut Vec<u8>) -> Mem<()>
    requires { IsValidUnder signature.now host.now.big }
    ensures ok { OnOk result (out.new.items ≡ out.old.items ++ host_text signature.now host.now) }
    ensures err { OnErr result (out.new.items ≡ out.old.items) }
{
    let mut text = Vec::new(alloc);
    put_host(alloc, signature, host, &mut text)?;
    out.extend_from_slice(text.as_slice())?;
    Ok(())
}

/// The text of the host, behind what is there. After an error the bytes behind are of no use.
#[tactic(auto, unfolding(crate::specs::JournalText::host_text))]
fn put_host(alloc: Global, signature: &Signature, host: &Host, out: &mut Vec<u8>) -> Mem<()>
    requires { IsValidUnder signature.now host.now.big }
    ensures { OnOk result (out.new.items ≡ out.old.items ++ host_text signature.now host.now) }
{
    out.extend_from_slice(b"host ")?;
    write_number(alloc, host.next_node(), out)?;
    out.push(b' ')?;
    write_number(alloc, host.next_edge(), out)?;
    out.push(b'\n')?;
    write_big(alloc, signature, host.big(), out)
}
