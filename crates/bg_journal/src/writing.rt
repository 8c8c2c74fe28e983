//! The writer of journals.
ghost use Rattle.std.specs.Prelude.{◌≡◌, ◌++◌, codes, OnOk, OnErr};
ghost use Rattle.std.specs.List.{flat_map};
ghost use Rattle.bg_journal.specs.JournalText.{step_text, entry_line, journal_text};

use bg_base::{Entry, Journal};
use bg_listing::{write_number, write_numbers};
use bg_lists::Mem;
use std::alloc::Global;

/// Appends the text of the journal: the line `journal 1`, for each entry a line `step` with its worker, its rule and the
/// numbers of its map, and the line `end`. After an error `out` is unchanged. Linear in the text, and holds it twice
/// while it writes.
pub fn write_journal(alloc: Global, journal: &Journal, out: &mut Vec<u8>) -> Mem<()>
    ensures ok { OnOk result (out.new.items ≡ out.old.items ++ journal_text journal.now) }
    ensures err { OnErr result (out.new.items ≡ out.old.items) }
{
    let mut text = Vec::new(alloc);
    put_journal(alloc, journal, &mut text)?;
    out.extend_from_slice(text.as_slice())?;
    Ok(())
}

/// Appends a rule, the numbers of a map, each behind a space, and the line feed. After an error `out` is unchanged.
pub fn write_step(alloc: Global, rule: u32, map: &[u32], out: &mut Vec<u8>) -> Mem<()>
    ensures ok { OnOk result (out.new.items ≡ out.old.items ++ step_text rule map.now) }
    ensures err { OnErr result (out.new.items ≡ out.old.items) }
{
    let mut text = Vec::new(alloc);
    put_step(alloc, rule, map, &mut text)?;
    out.extend_from_slice(text.as_slice())?;
    Ok(())
}

/// The text of the journal, behind what is there. After an error the bytes behind are of no use; so of the functions below.
#[tactic(auto, unfolding(crate::specs::JournalText::journal_text))]
fn put_journal(alloc: Global, journal: &Journal, out: &mut Vec<u8>) -> Mem<()>
    ensures { OnOk result (out.new.items ≡ out.old.items ++ journal_text journal.now) }
{
    out.extend_from_slice(b"journal 1\n")?;
    put_entries(alloc, journal.as_slice(), out)?;
    out.extend_from_slice(b"end\n")?;
    Ok(())
}

/// The lines of the entries.
fn put_entries(alloc: Global, entries: &[Entry], out: &mut Vec<u8>) -> Mem<()>
    ensures { OnOk result (out.new.items ≡ out.old.items ++ flat_map entry_line entries.now) }
{
    for entry in entries {
        put_entry(alloc, entry, out)?;
    }
    Ok(())
}

/// The line of the entry.
#[tactic(auto, unfolding(crate::specs::JournalText::entry_line))]
fn put_entry(alloc: Global, entry: &Entry, out: &mut Vec<u8>) -> Mem<()>
    ensures { OnOk result (out.new.items ≡ out.old.items ++ entry_line entry.now) }
{
    out.extend_from_slice(b"step ")?;
    write_number(alloc, entry.worker, out)?;
    out.push(b' ')?;
    put_step(alloc, entry.rule, entry.map.as_slice(), out)
}

/// The rule and the numbers of the map.
#[tactic(auto, unfolding(crate::specs::JournalText::step_text))]
fn put_step(alloc: Global, rule: u32, map: &[u32], out: &mut Vec<u8>) -> Mem<()>
    ensures { OnOk result (out.new.items ≡ out.old.items ++ step_text rule map.now) }
{
    write_number(alloc, rule, out)?;
    write_numbers(alloc, map, out)
}
