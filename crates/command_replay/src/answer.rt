//! What `replay` answers.
ghost use Rattle.std.specs.Prelude.{◌≡◌, ◌-◌, ◌<◌, ◌^◌, length, IfOk};
ghost use Rattle.bg_answers.specs.Answer.{answer_of};
ghost use Rattle.bg_answers.specs.Promise.{IsRightAnswer, Keeps};
ghost use Rattle.command_replay.specs.Judging.{Judges};
ghost use Rattle.command_replay.specs.Replay.{replay_promise};

use crate::text::{reply_of, stopped_at};
use bg_answers::{Failure, Reply, system_of};
use bg_base::Journal;
use bg_journal::{JournalFault, read_journal, replay};
use bg_lists::Mem;
use std::alloc::Global;

/// What `replay` answers to its input, a journal text and a model behind it: `Done` (0) with `legal` and the last host, where
/// the journal is a run of the system that the model describes; `NoRun` (7) with the first entry that is not taken, and why;
/// `NoRun` (7) with the line at which the input stops being a journal text, where none stands in front; or `Refused` (1) with
/// the line of the model's refusal, its place counted from the first byte behind the journal text. The journal text is read
/// first, then the model, then the journal is judged. Costs what reading costs, and what
/// [`replay`] costs. Holds the journal, the system and one host more, indexed. (Milner, chapter 8; the text of a journal is
/// that of docs/FORMATS.md.)
pub fn answer_replay(alloc: Global, input: &[u8]) -> Mem<Reply>
    requires { length input.now < 2 ^ 32 - 1 }
    ensures { IfOk result (λ reply. IsRightAnswer replay_promise input.now (answer_of reply)) }
{
    Reply::of(alloc, answer(alloc, input))
}

fn answer(alloc: Global, input: &[u8]) -> Result<Reply, Failure>
    requires { length input.now < 2 ^ 32 - 1 }
    ensures { Keeps replay_promise result input.now }
{
    match read_journal(alloc, input) {
        Ok((journal, used)) => {
            let (_, model) = input.split_at(used as usize);
            judge_journal(alloc, &journal, model)
        }
        Err(JournalFault::Bad { line }) => {
            let reply = stopped_at(alloc, line)?;
            Ok(reply)
        }
        Err(JournalFault::OutOfMemory) => Err(Failure::OutOfMemory),
    }
}

/// What the journal is of the system that the model describes.
fn judge_journal(alloc: Global, journal: &Journal, model: &[u8]) -> Result<Reply, Failure>
    requires { length model.now < 2 ^ 32 - 1 }
    ensures { Judges journal.now model.now result }
{
    let system = system_of(alloc, model)?;
    let replay = replay(alloc, &system, journal)?;
    let reply = reply_of(alloc, &system, &replay)?;
    Ok(reply)
}
