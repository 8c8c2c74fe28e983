//! The top call.
ghost use Rattle.std.specs.Prelude.{◌≡◌, ◌≢◌, ◌≤◌, ◌+◌, ◌⊎◌, None, Some, length, map, IfOk, IfSome, IsErrOf, IsTrue, OnErr};
ghost use Rattle.std.specs.Option.{IsSomeAnd};
ghost use Rattle.bg_answers.specs.Answer.{status_number, answer_of};
ghost use Rattle.bg_io.specs.Faults.{Rose};
ghost use Rattle.bg_top.specs.Ended.{CallEnded, ComesWhere};
ghost use Rattle.bg_top.specs.Numbers.{failed_read, failed_write, out_of_memory, most_bytes};
ghost use Rattle.bg_top.specs.Right.{IsReply, IsAnsweredWith, AsksOf, IsWritten, IsRefused, IsTooMuch, IsReplayOfNoRun, IsTaken, EndsWith, input_of, is_long};
ghost use Rattle.bg_top.specs.Staying.{IsRightWith, StayFor};
ghost use Rattle.bg_top.specs.Words.{asked, IsReadless};
ghost use Rattle.bg_words.specs.Words.{IsInRange};

use bg_answers::{Reply, Status};
use bg_cond::Gate;
use bg_io::{ReadAllFault, Sink, SinkFault, Source, read_all, write_all};
use bg_lists::{Mem, OutOfMemory};
use bg_watch::Watcher;
use bg_words::{Command, Request, WordsFault, request};
use command_compose::answer_compose;
use command_match::answer_match;
use command_models::{answer_check, answer_show};
use command_replay::answer_replay;
use command_run::answer_run;
use command_trial::answer_trial;
use std::alloc::Global;
use std::sync::Wait;
use std::thread::Threads;

/// The most bytes of an input; a longer one is refused.
pub const MOST_BYTES: u32 = 8_388_608;

/// The status where a read failed.
pub const READ_FAILURE: u8 = 3;

/// The status where a write failed.
pub const WRITE_FAILURE: u8 = 4;

/// The status where there was no memory.
pub const NO_MEMORY: u8 = 5;

/// Does all that the program does: reads the words, then the source, and writes the answer to the sink.
///
/// `words` are those of the command line, the program's name first; `watchers` are told of the entries of a run, and those
/// that stay are left in the list; `gate` is told of moments of the workers of a run, and of the pieces in which `match`
/// searches. The answer is made whole before its
/// first byte is written, each written line ends with a line feed, and at every status but 3, 4 and 5 the sink was flushed
/// after the last byte. It may wait: the workers of a run do.
///
/// | Status | Written | When |
/// |---|---|---|
/// | 0 | the command's text | all else |
/// | 1 | a line `refused ..` | exactly where the input is refused |
/// | 2 | `words` | exactly where the words are refused; the source is not read |
/// | 3 | nothing | exactly where the source's count of faults rose |
/// | 4 | a prefix of the text | exactly where the sink's count of faults rose |
/// | 5 | a prefix of the text | want of memory |
/// | 6 | a line `too many ..` | exactly where a rule has more occurrences than are asked for |
/// | 7 | `journal at LINE` or a line `illegal ..` | exactly where the text of the journal is refused, or the model is read and the journal is no run of its system |
/// | 8 | `too long` | exactly where the source gave `MOST_BYTES + 1` bytes |
///
/// 3, 4 and 5 come before the others: "exactly where" is said of the calls that end with none of them. The watchers are told
/// of a run that is answered with 0, or of which a prefix is written, 4 or 5; with 5 it may also be that they were told of
/// nothing. Else they stay as they are.
pub fn engine<S: Source, K: Sink, G: Gate + Sync, R: Threads + Wait + Sync>(
    rt: &R,
    alloc: Global,
    words: &[String],
    source: &mut S,
    sink: &mut K,
    watchers: &mut Vec<Box<dyn Watcher>>,
    gate: &G,
) -> u8
    // every status, what is written with it, and which watchers stay
    ensures ended { CallEnded (IsRightWith most_bytes (asked words.now) (S.left source.old)
        (map (λ w. state w) watchers.old.items) (map (λ w. state w) watchers.new.items)) result
        (Rose (S.faults source.old) (S.faults source.new)) (Rose (K.faults sink.old) (K.faults sink.new))
        (K.is_flushed sink.new) (watchers.new ≡ watchers.old) (K.held sink.old) (K.held sink.new) }

    // the counts of faults rise with these two statuses alone
    ensures source_faults { result ≢ failed_read → S.faults source.new ≡ S.faults source.old }
    ensures sink_faults { result ≢ failed_write → K.faults sink.new ≡ K.faults sink.old }

    // refused words, and commands that read nothing
    ensures wrong_words { ComesWhere result Status.WrongWords (asked words.now ≡ None) }
    ensures unread { IsReadless (asked words.now) → (source.new ≡ source.old) × (result ≢ failed_read) }

    // the source is read until its end, or just past the most
    ensures few_reads { S.reads source.new ≤ S.reads source.old + most_bytes + 1 }

    // inputs that are too long, that are refused, of which a rule has too many occurrences, whose journal is no run: each
    // status of an answer comes exactly where some right answer has it
    ensures too_long { IfSome (S.left source.old) (λ input.
        ComesWhere result Status.TooLong (IsSomeAnd (asked words.now) (λ request. IsTrue (is_long most_bytes request input)))) }
    ensures refused { IfSome (S.left source.old) (λ input.
        ComesWhere result Status.Refused (AsksOf most_bytes (asked words.now) input (IsRefused (map (λ w. state w) watchers.old.items)))) }
    ensures too_many { IfSome (S.left source.old) (λ input.
        ComesWhere result Status.TooMany (AsksOf most_bytes (asked words.now) input (IsTooMuch (map (λ w. state w) watchers.old.items)))) }
    ensures no_run { IfSome (S.left source.old) (λ input.
        ComesWhere result Status.NoRun (AsksOf most_bytes (asked words.now) input IsReplayOfNoRun)) }
    ensures statuses { IfSome (S.left source.old) (λ input. (status : Status) →
        ComesWhere result status (IsAnsweredWith most_bytes (asked words.now) (map (λ w. state w) watchers.old.items) (Some input) status)) }

    // the watchers are told of runs alone
    ensures untold { IfSome (asked words.now) (λ request. request.command ≢ Command.Run)
        → map (λ w. state w) watchers.new.items ≡ map (λ w. state w) watchers.old.items }

    // the text that the command makes of an input is written
    ensures written { result ≡ status_number Status.Done →
        IsSomeAnd (asked words.now) (λ request. IsWritten (map (λ w. state w) watchers.old.items) request (S.left source.old) (K.held sink.old) (K.held sink.new)) }

    // an input that is accepted is answered by what the command makes of it
    ensures complete { IfSome (S.left source.old) (λ input. AsksOf most_bytes (asked words.now) input (IsTaken (map (λ w. state w) watchers.old.items))
        → ¬ Rose (S.faults source.old) (S.faults source.new) → ¬ Rose (K.faults sink.old) (K.faults sink.new)
        → (result ≡ out_of_memory) ⊎ AsksOf most_bytes (asked words.now) input (EndsWith result (map (λ w. state w) watchers.old.items))) }
{
    run(rt, alloc, words, source, sink, watchers, gate)
}

/// The body of `engine`, whose other clauses follow from these.
fn run<S: Source, K: Sink, G: Gate + Sync, R: Threads + Wait + Sync>(
    rt: &R,
    alloc: Global,
    words: &[String],
    source: &mut S,
    sink: &mut K,
    watchers: &mut Vec<Box<dyn Watcher>>,
    gate: &G,
) -> u8
    ensures ended { CallEnded (IsRightWith most_bytes (asked words.now) (S.left source.old)
        (map (λ w. state w) watchers.old.items) (map (λ w. state w) watchers.new.items)) result
        (Rose (S.faults source.old) (S.faults source.new)) (Rose (K.faults sink.old) (K.faults sink.new))
        (K.is_flushed sink.new) (watchers.new ≡ watchers.old) (K.held sink.old) (K.held sink.new) }
    ensures unread { IsReadless (asked words.now) → (source.new ≡ source.old) × (result ≢ failed_read) }
    ensures few_reads { S.reads source.new ≤ S.reads source.old + most_bytes + 1 }
    ensures source_faults { result ≢ failed_read → S.faults source.new ≡ S.faults source.old }
    ensures sink_faults { result ≢ failed_write → K.faults sink.new ≡ K.faults sink.old }
{
    let asked = match request(alloc, words) {
        Ok(asked) => asked,
        Err(WordsFault::Refused) => return respond(sink, Status::WrongWords, b"words\n"),
        Err(WordsFault::OutOfMemory) => return NO_MEMORY,
    };
    if !asked.command.is_reading() {
        return answer(rt, alloc, asked, &[], sink, watchers, gate);
    }
    let input = match read_all(alloc, source, MOST_BYTES) {
        Ok(input) => input,
        Err(ReadAllFault::ReadFault) => return READ_FAILURE,
        Err(ReadAllFault::TooLong) => return respond(sink, Status::TooLong, b"too long\n"),
        Err(ReadAllFault::OutOfMemory) => return NO_MEMORY,
    };
    answer(rt, alloc, asked, input.as_slice(), sink, watchers, gate)
}

/// Makes the answer to a request and its input, and writes it.
fn answer<K: Sink, G: Gate + Sync, R: Threads + Wait + Sync>(
    rt: &R,
    alloc: Global,
    request: Request,
    input: &[u8],
    sink: &mut K,
    watchers: &mut Vec<Box<dyn Watcher>>,
    gate: &G,
) -> u8
    requires in_range { IsInRange request }
    requires few { length input.now ≤ most_bytes }
    ensures ended { CallEnded (λ answer. IsReply request (map (λ w. state w) watchers.old.items) (input_of request input.now) answer
        × StayFor request (Some input.now) (map (λ w. state w) watchers.old.items) (map (λ w. state w) watchers.new.items) answer) result
        ⊥ (Rose (K.faults sink.old) (K.faults sink.new)) (K.is_flushed sink.new) (watchers.new ≡ watchers.old)
        (K.held sink.old) (K.held sink.new) }
    ensures sink_faults { result ≢ failed_write → K.faults sink.new ≡ K.faults sink.old }
{
    match reply_to(rt, alloc, request, input, watchers, gate) {
        Ok(reply) => respond(sink, reply.status, reply.text.as_slice()),
        Err(OutOfMemory) => NO_MEMORY,
    }
}

/// The answer to a request and its input, where it reads one.
fn reply_to<G: Gate + Sync, R: Threads + Wait + Sync>(
    rt: &R,
    alloc: Global,
    request: Request,
    input: &[u8],
    watchers: &mut Vec<Box<dyn Watcher>>,
    gate: &G,
) -> Mem<Reply>
    requires in_range { IsInRange request }
    requires few { length input.now ≤ most_bytes }
    ensures right { IfOk result (λ reply. IsReply request (map (λ w. state w) watchers.old.items) (input_of request input.now) (answer_of reply)) }
    ensures stay { IfOk result (λ reply. StayFor request (Some input.now) (map (λ w. state w) watchers.old.items) (map (λ w. state w) watchers.new.items) (answer_of reply)) }
    ensures no_memory { OnErr result (watchers.new ≡ watchers.old) }
{
    match request.command {
        Command::Compose => answer_compose(alloc, input),
        Command::Check => answer_check(alloc, input),
        Command::Show => answer_show(alloc, input),
        Command::Match => answer_match(
            rt,
            alloc,
            input,
            request.workers,
            request.most,
            request.explain,
            gate,
        ),
        Command::Run => answer_run(
            rt,
            alloc,
            input,
            request.steps,
            request.workers,
            request.seed,
            watchers,
            gate,
        ),
        Command::Replay => answer_replay(alloc, input),
        Command::Trial => answer_trial(rt, alloc, request.size),
    }
}

/// Writes an answer, and gives the status with which the program ends.
fn respond<K: Sink>(sink: &mut K, status: Status, text: &[u8]) -> u8
    ensures ended { CallEnded (λ answer. answer ≡ record { status = status; text = text.now }) result
        ⊥ (Rose (K.faults sink.old) (K.faults sink.new)) (K.is_flushed sink.new) ⊥ (K.held sink.old) (K.held sink.new) }
    ensures sink_faults { result ≢ failed_write → K.faults sink.new ≡ K.faults sink.old }
{
    match write_all(sink, text) {
        Ok(()) => status.number(),
        Err(SinkFault::Failed) => WRITE_FAILURE,
        Err(SinkFault::OutOfMemory) => NO_MEMORY,
    }
}
