ghost use Rattle.std.specs.Prelude.{ℕ, List, length, ◌<◌, IfOk, OnOk};
ghost use Rattle.std.specs.declared.option.Option.{Option};
ghost use Rattle.std.specs.Io.{WritesAtMost};
ghost use Rattle.std.specs.Io.KnownBytes.{Keeps, WriteAppends};
ghost use Rattle.bg_io.specs.Faults.{HasSinkCause};

use crate::fault::SinkFault;

/// Where bytes go.
///
/// In clauses a sink has `held`, the bytes that it was given, where it tells them; `faults`, how often it
/// has failed; and `is_flushed`, which only a flush that succeeds establishes.
pub trait Sink {
    ghost held: { Self → Option (List ℕ) };

    ghost faults: { Self → ℕ };

    ghost is_flushed: { Self → Type 0 };

    /// Appends the first bytes of `piece`, at least one where there is one, and answers how many.
    ///
    /// The count of faults goes on by one exactly where `Failed` comes. At a fault what was held stays as it was.
    fn write(&mut self, piece: &[u8]) -> Result<usize, SinkFault>
        ensures bound { WritesAtMost result piece.now }
        ensures moves { IfOk result (λ n. 0 < length piece.now → 0 < n) }
        ensures bytes { WriteAppends (held self.old) (held self.new) result piece.now }
        ensures cause { HasSinkCause (faults self.old) (faults self.new) result };

    /// Passes on all that is held; what is held stays as it was.
    ///
    /// The count of faults goes on by one exactly where `Failed` comes.
    fn flush(&mut self) -> Result<(), SinkFault>
        ensures bytes { Keeps (held self.old) (held self.new) }
        ensures flushed { OnOk result (is_flushed self.new) }
        ensures cause { HasSinkCause (faults self.old) (faults self.new) result };
}
