//! The crates as a library: a host is made by the algebra, the occurrences of a redex are listed in it, and it reacts
//! at the first of them. The listing of the host before, the occurrences, and the listing after go to the standard
//! output.
#![tactic(auto)]

ghost use Rattle.std.specs.Prelude.{List, ℕ, ◌≡◌, ◌++◌, Some, OnOk, codes, length, slice_get};
ghost use Rattle.std.specs.List.{flat_map};
ghost use Rattle.bg_listing.specs.Spelling.{big_text, count_line, numbers_line};
ghost use Rattle.bg_rules.specs.Occurrences.{AreOccurrences};
ghost use Rattle.bg_rules.specs.Reaction.{Reacts};

mod refusal;
mod terms;

use crate::refusal::Refusal;
use bg_base::{Map, Signature};
use bg_io::{StdSink, write_all};
use bg_listing::{write_big, write_count, write_numbers};
use bg_lists::Mem;
use bg_match::list;
use bg_react::react;
use bg_rules::{Host, Rule};
use std::alloc::Global;
use std::process::ExitCode;

/// The most occurrences that are asked for.
const MOST: u32 = 100;

/// The whole text is made before its first byte is written. A refusal is one line in its place, and ends with status 1:
/// with the bigraphs of this example it can come for want of memory alone.
fn main(rt: HostRuntime) -> ExitCode {
    let mut sink = StdSink::new(rt.stdout());
    match text(rt.alloc()) {
        Ok(text) => match write_all(&mut sink, &text) {
            Ok(()) => ExitCode::SUCCESS,
            Err(_) => ExitCode::FAILURE,
        },
        Err(refusal) => {
            let _told = println!(rt; "refused: {refusal}");
            ExitCode::FAILURE
        }
    }
}

/// What is written. Signature, host and rule are made here one by one, and each is lent to the function that makes the
/// next: so where a call refuses, one of them is dropped, which keeps the proof of each function short.
fn text(alloc: Global) -> Result<Vec<u8>, Refusal> {
    let signature = terms::signature(alloc)?;
    let text = text_under(alloc, &signature)?;
    Ok(text)
}

/// What is written, under the signature.
fn text_under(alloc: Global, signature: &Signature) -> Result<Vec<u8>, Refusal> {
    let mut host = terms::host(alloc)?;
    let text = text_in(alloc, signature, &mut host)?;
    Ok(text)
}

/// What is written of the host, which reacts.
fn text_in(alloc: Global, signature: &Signature, host: &mut Host) -> Result<Vec<u8>, Refusal> {
    let rule = terms::rule(alloc)?;
    let text = text_of(alloc, signature, host, &rule)?;
    Ok(text)
}

/// What is written of the host and the rule: the host, the occurrences of the redex, and the host after the reaction at the
/// first. That a host is ground, which `list` asks for, each host keeps.
fn text_of(
    alloc: Global,
    signature: &Signature,
    host: &mut Host,
    rule: &Rule,
) -> Result<Vec<u8>, Refusal> {
    let mut text = Vec::new(alloc);
    put_host(alloc, b"before\n", signature, host, &mut text)?;
    let maps = list(alloc, host.big(), rule.redex(), MOST)?;
    put_maps(alloc, &maps, &mut text)?;
    react_at_first(alloc, host, rule, &maps)?;
    put_host(alloc, b"after\n", signature, host, &mut text)?;
    Ok(text)
}

/// The reaction of the host by the rule, at the first of all occurrences of its redex. `react` asks that the redex occurs
/// at the map: each map of a list of all occurrences is one (`proofs/First`).
#[tactic(auto, using(crate::proofs::First::first_occurs))]
fn react_at_first(alloc: Global, host: &mut Host, rule: &Rule, maps: &[Map]) -> Result<(), Refusal>
    requires all { AreOccurrences host.old.big rule.now.redex maps.now }
    ensures reacts { OnOk result ((map : List ℕ) × (slice_get maps.now 0 ≡ Some map) × Reacts host.old rule.now map host.new) }
{
    match maps.first() {
        Some(map) => {
            react(alloc, host, rule, map)?;
            Ok(())
        }
        None => Err(Refusal::NoOccurrence),
    }
}

/// Appends the heading and the listing of the host. A listing has the labels of controls, so it is checked first that the
/// host is valid under the signature.
fn put_host(
    alloc: Global,
    heading: &[u8],
    signature: &Signature,
    host: &Host,
    text: &mut Vec<u8>,
) -> Result<(), Refusal>
    ensures ok { OnOk result (text.new.items ≡ (text.old.items ++ heading.now) ++ big_text signature.now host.now.big) }
{
    host.big().check(alloc, signature)?;
    put(heading, text)?;
    write_big(alloc, signature, host.big(), text)?;
    Ok(())
}

/// Appends the bytes.
fn put(bytes: &[u8], text: &mut Vec<u8>) -> Mem<()>
    ensures ok { OnOk result (text.new.items ≡ text.old.items ++ bytes.now) }
{
    text.extend_from_slice(bytes)?;
    Ok(())
}

/// Appends how many occurrences there are, and a line for each: the images of the redex's nodes, in the order of
/// these.
fn put_maps(alloc: Global, maps: &[Map], text: &mut Vec<u8>) -> Mem<()>
    ensures ok { OnOk result (text.new.items ≡ (text.old.items ++ count_line (codes "occurrences ") (length maps.now)) ++ flat_map numbers_line maps.now) }
{
    write_count(alloc, b"occurrences ", maps.len(), text)?;
    put_lines(alloc, maps, text)
}

/// Appends a line for each of these occurrences.
fn put_lines(alloc: Global, maps: &[Map], text: &mut Vec<u8>) -> Mem<()>
    ensures ok { OnOk result (text.new.items ≡ text.old.items ++ flat_map numbers_line maps.now) }
{
    for map in maps {
        write_numbers(alloc, map, text)?;
    }
    Ok(())
}
