ghost use Rattle.std.specs.Prelude.{◌≡◌, ◌≤◌, ◌<◌, ◌↔◌, ◌++◌, [], Some, IsErr, IsErrOf, IfOk, OnOk, MatchResult, Contains, length, min};
ghost use Rattle.std.specs.Io.{WritesAtMost};
ghost use Rattle.std.specs.Io.KnownBytes.{Keeps, WriteAppends};
ghost use Rattle.bg_io.specs.Faults.{HasSinkCause, next_count};

use crate::calls::is_listed;
use crate::fault::SinkFault;
use crate::sink::Sink;
use std::alloc::Global;

/// A sink that keeps its bytes in memory, and can be made to fail.
///
/// Both its counts have 64 bits, start at 0 and stay at their end. Calls past number 4,294,967,295 fail
/// only for want of memory.
#[derive(Debug, Drop)]
pub struct MemorySink {
    bytes: Vec<u8>,
    piece: u32,
    failing: Vec<u32>,
    calls: u64,
    faults: u64,
    ghost moves: { 1 ≤ piece },
}

impl MemorySink {
    ghost use Rattle.bg_io.specs.MemorySink.{bytes_held, most_taken, failing_calls, calls_made, failed_calls};

    /// An empty sink, that takes at most `piece` bytes a write, and fails at the writes and flushes whose
    /// numbers, counted together from 1, are in `failing`.
    pub fn new(alloc: Global, piece: u32, failing: Vec<u32>) -> MemorySink
        requires { 1 ≤ piece }
        ensures held { bytes_held result ≡ [] }
        ensures most { most_taken result ≡ piece }
        ensures failing { failing_calls result ≡ failing.items }
        ensures calls { calls_made result ≡ 0 }
        ensures faults { failed_calls result ≡ 0 }
    {
        MemorySink {
            bytes: Vec::new(alloc),
            piece,
            failing,
            calls: 0,
            faults: 0,
        }
    }

    /// The bytes that were written, in the order that they came.
    pub fn held(&self) -> &[u8]
        ensures { result.now ≡ bytes_held self.now }
    {
        self.bytes.as_slice()
    }

    /// Counts a call, and fails where it is one of those that are to fail.
    fn begin(&mut self) -> Result<(), SinkFault>
        ensures failed { IsErr result ↔ Contains (failing_calls self.old) (calls_made self.new) }
        ensures fault { IsErr result → result ≡ Err SinkFault.Failed }
        ensures calls { calls_made self.new ≡ next_count (calls_made self.old) }
        ensures cause { HasSinkCause (failed_calls self.old) (failed_calls self.new) result }
        ensures faults { MatchResult result
            (λ _. failed_calls self.new ≡ failed_calls self.old)
            (λ _. failed_calls self.new ≡ next_count (failed_calls self.old)) }
        ensures same_held { bytes_held self.new ≡ bytes_held self.old }
        ensures same_most { most_taken self.new ≡ most_taken self.old }
        ensures same_failing { failing_calls self.new ≡ failing_calls self.old }
    {
        self.calls = self.calls.saturating_add(1);
        if is_listed(self.failing.as_slice(), self.calls) {
            self.faults = self.faults.saturating_add(1);
            return Err(SinkFault::Failed);
        }
        Ok(())
    }
}

impl Sink for MemorySink {
    ghost use Rattle.bg_io.specs.MemorySink.{bytes_held, most_taken, failing_calls, calls_made, failed_calls};

    ghost held = { λ sink. Some (bytes_held sink) };

    ghost faults = { failed_calls };

    ghost is_flushed = { λ _. Unit {0} };

    /// Each write is counted, also one that fails. A write takes as much of the piece as is allowed.
    fn write(&mut self, piece: &[u8]) -> Result<usize, SinkFault>
        ensures bound { WritesAtMost result piece.now }
        ensures moves { IfOk result (λ n. 0 < length piece.now → 0 < n) }
        ensures bytes { WriteAppends (Some (bytes_held self.old)) (Some (bytes_held self.new)) result piece.now }
        ensures cause { HasSinkCause (failed_calls self.old) (failed_calls self.new) result }

        // how much is taken, and which writes fail
        ensures taken { IfOk result (λ n. n ≡ min (length piece.now) (most_taken self.old)) }
        ensures failing { IsErrOf result SinkFault.Failed ↔ Contains (failing_calls self.old) (calls_made self.new) }

        // the counts, and what stays
        ensures calls { calls_made self.new ≡ next_count (calls_made self.old) }
        ensures fault { IsErrOf result SinkFault.Failed → failed_calls self.new ≡ next_count (failed_calls self.old) }
        ensures no_fault { ¬ IsErrOf result SinkFault.Failed → failed_calls self.new ≡ failed_calls self.old }
        ensures same_most { most_taken self.new ≡ most_taken self.old }
        ensures same_failing { failing_calls self.new ≡ failing_calls self.old }
    {
        self.begin()?;
        let count = piece.len().min(self.piece as usize);
        self.bytes.extend_from_slice(&piece[..count])?;
        Ok(count)
    }

    /// Each flush is counted, also one that fails. It has nothing else to do.
    fn flush(&mut self) -> Result<(), SinkFault>
        ensures bytes { Keeps (Some (bytes_held self.old)) (Some (bytes_held self.new)) }
        ensures flushed { OnOk result (Unit {0}) }
        ensures cause { HasSinkCause (failed_calls self.old) (failed_calls self.new) result }

        // which flushes fail: those alone
        ensures failing { IsErrOf result SinkFault.Failed ↔ Contains (failing_calls self.old) (calls_made self.new) }
        ensures memory { ¬ IsErrOf result SinkFault.OutOfMemory }

        // the counts, and what stays
        ensures calls { calls_made self.new ≡ next_count (calls_made self.old) }
        ensures faults { MatchResult result
            (λ _. failed_calls self.new ≡ failed_calls self.old)
            (λ _. failed_calls self.new ≡ next_count (failed_calls self.old)) }
        ensures same_most { most_taken self.new ≡ most_taken self.old }
        ensures same_failing { failing_calls self.new ≡ failing_calls self.old }
    {
        self.begin()
    }
}
