ghost use Rattle.std.specs.Prelude.{ℕ, List, ◌+◌, ◌≤◌};
ghost use Rattle.std.specs.declared.option.Option.{Option};
ghost use Rattle.std.specs.Io.{ReadsAtMost};
ghost use Rattle.std.specs.Io.KnownBytes.{ReadConsumes};
ghost use Rattle.bg_io.specs.Faults.{HasCause};

use crate::fault::Failed;

/// Where bytes come from.
///
/// In clauses a source has `left`, the bytes that it has yet to give, where it tells them; `faults`, how
/// often it has failed; and `reads`, how often it was read.
pub trait Source {
    ghost left: { Self → Option (List ℕ) };

    ghost faults: { Self → ℕ };

    ghost reads: { Self → ℕ };

    /// Moves the next bytes into the front of `buf`, and answers how many.
    ///
    /// For a `buf` that is not empty, 0 comes exactly where nothing is left. The count of faults goes on by one
    /// exactly where a read fails, and then all that was left is still left.
    fn read(&mut self, buf: &mut [u8]) -> Result<usize, Failed>
        ensures bound { ReadsAtMost result buf.new }
        ensures bytes { ReadConsumes (left self.old) (left self.new) result buf.new }
        ensures cause { HasCause (faults self.old) (faults self.new) result }
        ensures count { reads self.new ≤ reads self.old + 1 };
}
