//! The writer of the listings of systems.
ghost use Rattle.std.specs.Prelude.{◌≡◌, ◌++◌, codes, All, OnOk, OnErr};
ghost use Rattle.std.specs.List.{flat_map};
ghost use Rattle.bg_base.specs.Bigraph.{IsValidUnder};
ghost use Rattle.bg_listing.specs.Spelling.{section_text, big_text};
ghost use Rattle.bg_rules.specs.declared.predicate.Predicate.{Predicate as PredicateValue};
ghost use Rattle.bg_show_text.specs.SystemText.{rules_text, predicate_text, system_text};

use crate::rule_listing::put_rule;
use bg_base::Signature;
use bg_listing::{write_big, write_count, write_label, write_signature};
use bg_lists::Mem;
use bg_rules::{Predicate, System};
use std::alloc::Global;

/// Appends the listing of a system: the listing of its signature, of the bigraph of its host, of each rule with its
/// number, counted from 0, and of each predicate. It refuses nothing; it fails only where there is no memory, and then
/// `out` is unchanged. Linear in the listing, and holds it twice while it writes.
pub fn write_system(alloc: Global, system: &System, out: &mut Vec<u8>) -> Mem<()>
    ensures ok { OnOk result (out.new.items ≡ out.old.items ++ system_text system.now) }
    ensures err { OnErr result (out.new.items ≡ out.old.items) }
{
    let mut text = Vec::new(alloc);
    put_system(alloc, system, &mut text)?;
    out.extend_from_slice(text.as_slice())?;
    Ok(())
}

#[tactic(auto, unfolding(crate::specs::SystemText::system_text))]
fn put_system(alloc: Global, system: &System, out: &mut Vec<u8>) -> Mem<()>
    ensures { OnOk result (out.new.items ≡ out.old.items ++ system_text system.now) }
{
    write_signature(alloc, system.signature(), out)?;
    put_init(alloc, system, out)?;
    put_rules(alloc, system, out)?;
    put_predicate_section(alloc, system, out)
}

fn put_init(alloc: Global, system: &System, out: &mut Vec<u8>) -> Mem<()>
    ensures { OnOk result (out.new.items ≡ out.old.items ++ (codes "init\n" ++ big_text system.now.signature system.now.init.big)) }
{
    out.extend_from_slice(b"init\n")?;
    write_big(alloc, system.signature(), system.init().big(), out)
}

/// The rules in order, with numbers from 0.
fn put_rules(alloc: Global, system: &System, out: &mut Vec<u8>) -> Mem<()>
    ensures { OnOk result (out.new.items ≡ out.old.items ++ rules_text system.now.signature 0 system.now.rules) }
{
    let signature = system.signature();
    for (number, rule) in system.rules().iter().enumerate() {
        put_rule(alloc, signature, number, rule, out)?;
    }
    Ok(())
}

/// The number of predicates, and the predicates in order.
fn put_predicate_section(alloc: Global, system: &System, out: &mut Vec<u8>) -> Mem<()>
    ensures { OnOk result (out.new.items ≡ out.old.items ++ section_text (codes "preds ") (predicate_text system.now.signature) system.now.preds) }
{
    write_count(alloc, b"preds ", system.preds().len(), out)?;
    put_preds(alloc, system.signature(), system.preds(), out)
}

fn put_preds(
    alloc: Global,
    signature: &Signature,
    preds: &[Predicate],
    out: &mut Vec<u8>,
) -> Mem<()>
    requires { All (λ (predicate : PredicateValue). IsValidUnder signature.now predicate.pattern) preds.now }
    ensures { OnOk result (out.new.items ≡ out.old.items ++ flat_map (predicate_text signature.now) preds.now) }
{
    for predicate in preds {
        put_predicate(alloc, signature, predicate, out)?;
    }
    Ok(())
}

#[tactic(auto, unfolding(crate::specs::SystemText::predicate_text))]
fn put_predicate(
    alloc: Global,
    signature: &Signature,
    predicate: &Predicate,
    out: &mut Vec<u8>,
) -> Mem<()>
    requires { IsValidUnder signature.now predicate.now.pattern }
    ensures { OnOk result (out.new.items ≡ out.old.items ++ predicate_text signature.now predicate.now) }
{
    out.extend_from_slice(b"pred ")?;
    write_label(alloc, &predicate.label, out)?;
    out.push(b'\n')?;
    write_big(alloc, signature, predicate.pattern.big(), out)
}
