//! The texts of `replay`.
ghost use Rattle.std.specs.Prelude.{◌≡◌, ◌++◌, List, IfOk, OnOk};
ghost use Rattle.bg_answers.specs.Answer.{answer_of};
ghost use Rattle.bg_base.specs.Bigraph.{IsValidUnder};
ghost use Rattle.bg_base.specs.declared.history.Entry.{Entry};
ghost use Rattle.bg_journal.specs.Replays.{IsReplayOf};
ghost use Rattle.command_replay.specs.ReplayText as text;

use bg_answers::{Reply, Status};
use bg_base::Signature;
use bg_cond::Verdict;
use bg_journal::{Replay, Why, write_host, write_step};
use bg_listing::write_number;
use bg_lists::Mem;
use bg_rules::{Host, System};
use std::alloc::Global;

/// The answer to an input that stops being the text of a journal at that line.
pub(crate) fn stopped_at(alloc: Global, line: u32) -> Mem<Reply>
    ensures { IfOk result (λ reply. answer_of reply ≡ text.bad_at line) }
{
    let mut text = Vec::new(alloc);
    put_bad_line(alloc, line, &mut text)?;
    Ok(Reply {
        status: Status::NoRun,
        text,
    })
}

/// The answer that tells what a journal is of the system.
pub(crate) fn reply_of(alloc: Global, system: &System, replay: &Replay) -> Mem<Reply>
    requires { (entries : List Entry) × IsReplayOf system.now entries replay.now }
    ensures { IfOk result (λ reply. answer_of reply ≡ text.telling system.now.signature replay.now) }
{
    let signature = system.signature();
    match replay {
        Replay::Legal { host } => legal(alloc, signature, host),
        Replay::Illegal { step, why } => illegal(alloc, *step, why),
    }
}

/// The answer that a journal is a run to the host.
fn legal(alloc: Global, signature: &Signature, host: &Host) -> Mem<Reply>
    requires { IsValidUnder signature.now host.now.big }
    ensures { IfOk result (λ reply. answer_of reply ≡ record { status = Status.Done; text = text.legal_text signature.now host.now }) }
{
    let mut text = Vec::new(alloc);
    put_legal(alloc, signature, host, &mut text)?;
    Ok(Reply {
        status: Status::Done,
        text,
    })
}

/// The answer that a journal is none from the entry of that number on.
fn illegal(alloc: Global, step: u32, why: &Why) -> Mem<Reply>
    ensures { IfOk result (λ reply. answer_of reply ≡ record { status = Status.NoRun; text = text.illegal_line step why.now }) }
{
    let mut text = Vec::new(alloc);
    put_illegal(alloc, step, why, &mut text)?;
    Ok(Reply {
        status: Status::NoRun,
        text,
    })
}

/// The line at which an input stops being the text of a journal, behind what is there. After an error the bytes behind are of
/// no use; so of the functions below.
#[tactic(auto, unfolding(crate::specs::ReplayText::bad_line_text))]
fn put_bad_line(alloc: Global, line: u32, out: &mut Vec<u8>) -> Mem<()>
    ensures { OnOk result (out.new.items ≡ out.old.items ++ text.bad_line_text line) }
{
    out.extend_from_slice(b"journal at ")?;
    write_number(alloc, line, out)?;
    out.push(b'\n')?;
    Ok(())
}

/// The line `legal` and the host.
#[tactic(auto, unfolding(crate::specs::ReplayText::legal_text))]
fn put_legal(alloc: Global, signature: &Signature, host: &Host, out: &mut Vec<u8>) -> Mem<()>
    requires { IsValidUnder signature.now host.now.big }
    ensures { OnOk result (out.new.items ≡ out.old.items ++ text.legal_text signature.now host.now) }
{
    out.extend_from_slice(b"legal\n")?;
    write_host(alloc, signature, host, out)
}

/// The line of the entry of that number, which is not taken.
#[tactic(auto, unfolding(crate::specs::ReplayText::illegal_line))]
fn put_illegal(alloc: Global, step: u32, why: &Why, out: &mut Vec<u8>) -> Mem<()>
    ensures { OnOk result (out.new.items ≡ out.old.items ++ text.illegal_line step why.now) }
{
    out.extend_from_slice(b"illegal ")?;
    write_number(alloc, step, out)?;
    out.push(b' ')?;
    put_why(alloc, why, out)
}

/// Why an entry is not taken.
fn put_why(alloc: Global, why: &Why, out: &mut Vec<u8>) -> Mem<()>
    ensures { OnOk result (out.new.items ≡ out.old.items ++ text.why_text why.now) }
{
    match why {
        Why::Judged { verdict } => put_verdict(alloc, verdict, out),
        Why::TooLarge => {
            out.extend_from_slice(b"TooLarge\n")?;
            Ok(())
        }
    }
}

/// The verdict.
#[tactic(auto, unfolding(crate::specs::ReplayText::verdict_text))]
fn put_verdict(alloc: Global, verdict: &Verdict, out: &mut Vec<u8>) -> Mem<()>
    ensures { OnOk result (out.new.items ≡ out.old.items ++ text.verdict_text verdict.now) }
{
    match verdict {
        Verdict::Legal => {
            out.extend_from_slice(b"Legal\n")?;
            Ok(())
        }
        Verdict::NoRule => {
            out.extend_from_slice(b"NoRule\n")?;
            Ok(())
        }
        Verdict::NotEmbedding => {
            out.extend_from_slice(b"NotEmbedding\n")?;
            Ok(())
        }
        Verdict::ConditionFails { number } => {
            out.extend_from_slice(b"ConditionFails ")?;
            write_number(alloc, *number, out)?;
            out.push(b'\n')?;
            Ok(())
        }
        Verdict::HigherClass { step } => {
            out.extend_from_slice(b"HigherClass ")?;
            write_step(alloc, step.rule, step.map.as_slice(), out)
        }
    }
}
