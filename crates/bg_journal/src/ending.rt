//! The writer of ends of runs.
ghost use Rattle.std.specs.Prelude.{◌≡◌, ◌++◌, OnOk, OnErr};
ghost use Rattle.bg_journal.specs.JournalText.{end_line};

use crate::writing::write_step;
use bg_cond::End;
use bg_lists::Mem;
use std::alloc::Global;

/// Appends the line of the end of a run: `quiet`, `limit`, or `full` with the rule and the map of the step whose result
/// passes a limit. After an error `out` is unchanged.
pub fn write_end(alloc: Global, end: &End, out: &mut Vec<u8>) -> Mem<()>
    ensures ok { OnOk result (out.new.items ≡ out.old.items ++ end_line end.now) }
    ensures err { OnErr result (out.new.items ≡ out.old.items) }
{
    let mut text = Vec::new(alloc);
    put_end(alloc, end, &mut text)?;
    out.extend_from_slice(text.as_slice())?;
    Ok(())
}

/// The line of the end, behind what is there. After an error the bytes behind are of no use.
#[tactic(auto, unfolding(crate::specs::JournalText::end_line))]
fn put_end(alloc: Global, end: &End, out: &mut Vec<u8>) -> Mem<()>
    ensures { OnOk result (out.new.items ≡ out.old.items ++ end_line end.now) }
{
    match end {
        End::Quiet => {
            out.extend_from_slice(b"quiet\n")?;
            Ok(())
        }
        End::Limit => {
            out.extend_from_slice(b"limit\n")?;
            Ok(())
        }
        End::Full { step } => {
            out.extend_from_slice(b"full ")?;
            write_step(alloc, step.rule, step.map.as_slice(), out)
        }
    }
}
