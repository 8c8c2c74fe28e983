//! The reader of journals.
ghost use Rattle.std.specs.Prelude.{◌≡◌, ◌<◌, ◌-◌, ◌^◌, ◌++◌, ℕ, List, IfOk, IfErr, length};
ghost use Rattle.bg_base.specs.declared.history.Entry.{Entry as EntryValue};
ghost use Rattle.bg_journal.specs.JournalText.{journal_text};
ghost use Rattle.bg_journal.specs.JournalReading.{IsJournal, BeginsWithJournal, AreInFront, TellsFault, ReadsJournal};

use crate::entry::{behind, entry};
use crate::fault::JournalFault;
use bg_base::limits::MOST_STEPS;
use bg_base::{Entry, Journal};
use bg_lists::{Mem, Rows};
use std::alloc::Global;

/// Reads the journal whose text stands in front of the bytes, whatever follows, and tells how many bytes the text has.
/// Numbers are below 2,147,483,648, a map has 1 to 65,536 of them, and there are at most 100,000 entries. Where no such
/// text stands there, `Bad` tells the first line that is not of the form, counted from 1; the end of the bytes counts as
/// a line. Goes once over the text; takes memory in proportion to the journal.
pub fn read_journal(alloc: Global, bytes: &[u8]) -> Result<(Journal, u32), JournalFault>
    requires small { length bytes.now < 2 ^ 32 - 1 }
    ensures read { IfOk result (λ x. BeginsWithJournal bytes.now x.0 x.1) }
    ensures bad { IfErr result (TellsFault bytes.now) }
    ensures only { (entries : List EntryValue) (rest : List ℕ) → IsJournal entries → bytes.now ≡ journal_text entries ++ rest → ReadsJournal result entries }
{
    first_journal(alloc, bytes)
}

/// As [`read_journal`].
fn first_journal(alloc: Global, bytes: &[u8]) -> Result<(Journal, u32), JournalFault>
    requires { length bytes.now < 2 ^ 32 - 1 }
    ensures read { IfOk result (λ x. BeginsWithJournal bytes.now x.0 x.1) }
    ensures bad { IfErr result (TellsFault bytes.now) }
{
    match behind(bytes, b"journal 1\n") {
        None => Err(JournalFault::Bad { line: 1 }),
        Some(lines) => {
            let (entries, rest) = entries(alloc, lines)?;
            match behind(rest, b"end\n") {
                None => Err(JournalFault::Bad {
                    line: entries.len() as u32 + 2,
                }),
                Some(rest) => {
                    let used = bytes.len().saturating_sub(rest.len()) as u32;
                    Ok((Rows::from_vec(entries), used))
                }
            }
        }
    }
}

/// All entries whose lines stand in front, one after the other, at most as many as a journal has, and the bytes behind.
fn entries(alloc: Global, bytes: &[u8]) -> Mem<(Vec<Entry>, &[u8])>
    requires { length bytes.now < 2 ^ 32 - 1 }
    ensures { IfOk result (λ x. AreInFront bytes.now x.0.items x.1.now) }
{
    let mut entries = Vec::new(alloc);
    let mut rest = bytes;
    for _ in 0..MOST_STEPS {
        match entry(alloc, rest)? {
            None => return Ok((entries, rest)),
            Some((entry, behind)) => {
                entries.push(entry)?;
                rest = behind;
            }
        }
    }
    Ok((entries, rest))
}
