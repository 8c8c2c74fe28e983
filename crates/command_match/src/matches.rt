//! What `match` makes of a system.
ghost use Rattle.std.specs.Prelude.{◌≡◌, ◌<◌, ◌≤◌, ℕ, Some, slice_get, length, IfOk, IfErr, OnOk};
ghost use Rattle.bg_answers.specs.Answer.{answer_of};
ghost use Rattle.bg_answers.specs.declared.status.Status.TheVariants as statuses;
ghost use Rattle.bg_base.specs.Bigraph.{IsValidUnder};
ghost use Rattle.bg_match_text.specs.Appending.{Appends};
ghost use Rattle.bg_match_text.specs.Counts.{AreFew, IsFirstExcess, excess_line};
ghost use Rattle.bg_match_text.specs.MatchText.{IsMatchText, IsRuleText};
ghost use Rattle.bg_rules.specs.Occurrences.{AreOccurrences, AreAtMost, AreMoreThan};
ghost use Rattle.bg_rules.specs.Rules.{RuleParts};
ghost use Rattle.command_match.specs.declared.fault.MatchesFault.TheVariants.{TooMany};
ghost use Rattle.command_match.specs.Faults.{fault_of};
ghost use Rattle.command_match.specs.Match.{IsMatchAnswer};

use crate::fault::MatchesFault;
use bg_answers::{Reply, Status};
use bg_base::{Map, Signature};
use bg_cond::Gate;
use bg_lists::{Mem, OutOfMemory};
use bg_match::HostIndex;
use bg_match_text::{write_excess_line, write_rule};
use bg_par::list_parallel;
use bg_rules::{ListFault, Rule, System};
use std::alloc::Global;
use std::thread::Threads;

/// The texts of the rules of a system, or the line of the first with more occurrences than are asked for.
pub(crate) fn matches_of<G: Gate + Sync, R: Threads + Sync>(
    rt: &R,
    alloc: Global,
    system: &System,
    workers: u32,
    most: u32,
    explain: bool,
    gate: &G,
) -> Mem<Reply>
    requires workers { (1 ≤ workers) × (workers ≤ 64) }
    ensures { IfOk result (λ reply. IsMatchAnswer most explain system.now (answer_of reply)) }
{
    let mut text = Vec::new(alloc);
    match add_rules(rt, alloc, system, workers, most, explain, gate, &mut text) {
        Ok(()) => Ok(Reply {
            status: Status::Done,
            text,
        }),
        Err(MatchesFault::TooMany { rule }) => excess_of(alloc, system, rule, most),
        Err(MatchesFault::OutOfMemory) => Err(OutOfMemory),
    }
}

/// That the rule with this number has more than `most` occurrences.
fn excess_of(alloc: Global, system: &System, rule: u32, most: u32) -> Mem<Reply>
    requires there { rule < length system.now.rules }
    ensures { IfOk result (λ reply. (parts : RuleParts) × (slice_get system.now.rules rule ≡ Some parts)
        × (answer_of reply ≡ record { status = statuses.TooMany; text = excess_line rule parts most })) }
{
    let parts = &system.rules()[rule as usize];
    let mut text = Vec::new(alloc);
    write_excess_line(alloc, rule, parts, most, &mut text)?;
    Ok(Reply {
        status: Status::TooMany,
        text,
    })
}

/// Adds the texts of the rules in order, with numbers from 0.
fn add_rules<G: Gate + Sync, R: Threads + Sync>(
    rt: &R,
    alloc: Global,
    system: &System,
    workers: u32,
    most: u32,
    explain: bool,
    gate: &G,
    text: &mut Vec<u8>,
) -> Result<(), MatchesFault>
    requires workers { (1 ≤ workers) × (workers ≤ 64) }
    ensures text { OnOk result (Appends (IsMatchText system.now explain) text.old.items text.new.items) }
    ensures few { OnOk result (AreFew most system.now) }
    ensures many { IfErr result (λ fault. (number : ℕ) → fault ≡ TooMany number
        → (rule : RuleParts) × IsFirstExcess most system.now number rule) }
{
    let signature = system.signature();
    let host = system.init().big();
    let host = HostIndex::of(alloc, host)?;
    for (number, rule) in system.rules().iter().enumerate() {
        add_rule(
            rt,
            alloc,
            signature,
            &host,
            number as u32,
            rule,
            workers,
            most,
            explain,
            gate,
            text,
        )?;
    }
    Ok(())
}

/// Adds the text of the rule with that number. Its maps are dropped before those of the next are listed.
fn add_rule<G: Gate + Sync, R: Threads + Sync>(
    rt: &R,
    alloc: Global,
    signature: &Signature,
    host: &HostIndex<'_>,
    number: u32,
    rule: &Rule,
    workers: u32,
    most: u32,
    explain: bool,
    gate: &G,
    text: &mut Vec<u8>,
) -> Result<(), MatchesFault>
    requires workers { (1 ≤ workers) × (workers ≤ 64) }
    requires fits { IsValidUnder signature.now host.now }
    ensures text { OnOk result (Appends (IsRuleText signature.now host.now explain number rule.now) text.old.items text.new.items) }
    ensures few { OnOk result (AreAtMost most host.now rule.now.redex) }
    ensures many { IfErr result (λ fault. (found : ℕ) → fault ≡ TooMany found → (found ≡ number) × AreMoreThan most host.now rule.now.redex) }
{
    let maps = occurrences(rt, alloc, host, number, rule, workers, most, gate)?;
    write_rule(
        alloc,
        signature,
        host.host(),
        number,
        rule,
        maps.as_slice(),
        explain,
        text,
    )?;
    Ok(())
}

/// All occurrences of the redex of the rule with that number, where there are at most so many: by so many workers at once.
fn occurrences<G: Gate + Sync, R: Threads + Sync>(
    rt: &R,
    alloc: Global,
    host: &HostIndex<'_>,
    number: u32,
    rule: &Rule,
    workers: u32,
    most: u32,
    gate: &G,
) -> Result<Vec<Map>, MatchesFault>
    requires workers { (1 ≤ workers) × (workers ≤ 64) }
    ensures all { IfOk result (λ maps. AreOccurrences host.now rule.now.redex maps.items) }
    ensures few { IfOk result (λ maps. length maps.items ≤ most) }
    ensures many { IfErr result (λ fault. (found : ℕ) → fault ≡ TooMany found → (found ≡ number) × AreMoreThan most host.now rule.now.redex) }
{
    // That the host is ground is known here.
    let _host = host.host();
    match list_parallel(rt, alloc, host, rule.redex(), workers, most, gate) {
        Ok(maps) => Ok(maps),
        Err(fault) => Err(fault_of(number, fault)),
    }
}

/// What is told of the rule with that number where its occurrences are not listed.
fn fault_of(number: u32, fault: ListFault) -> MatchesFault
    ensures { result ≡ fault_of number fault }
{
    match fault {
        ListFault::TooMany => MatchesFault::TooMany { rule: number },
        ListFault::OutOfMemory => MatchesFault::OutOfMemory,
    }
}
