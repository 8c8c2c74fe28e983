ghost use Rattle.std.specs.Prelude.{◌≡◌, ◌≤◌, ◌↔◌, Some, IsErr, IfOk, MatchResult, Contains, length, min, take};
ghost use Rattle.std.specs.Io.{ReadsAtMost};
ghost use Rattle.std.specs.Io.KnownBytes.{ReadConsumes};
ghost use Rattle.bg_io.specs.Faults.{HasCause, next_count};

use crate::calls::is_listed;
use crate::fault::Failed;
use crate::source::Source;

/// A source over bytes in memory, which can be made to fail.
///
/// Both its counts have 64 bits, start at 0 and stay at their end. Reads past number 4,294,967,295 do not
/// fail.
#[derive(Debug, Drop)]
pub struct MemorySource {
    bytes: Vec<u8>,
    /// How many of the bytes were given.
    given: usize,
    piece: u32,
    failing: Vec<u32>,
    calls: u64,
    faults: u64,
    ghost within: { given ≤ length bytes.items },
    ghost moves: { 1 ≤ piece },
}

impl MemorySource {
    ghost use Rattle.bg_io.specs.MemorySource.{bytes_left, most_given, failing_reads, reads_made, failed_reads};

    /// A source of these bytes, that gives at most `piece` of them a read, and fails at the reads whose
    /// numbers, counted from 1, are in `failing`.
    pub fn new(bytes: Vec<u8>, piece: u32, failing: Vec<u32>) -> MemorySource
        requires { 1 ≤ piece }
        ensures left { bytes_left result ≡ bytes.items }
        ensures most { most_given result ≡ piece }
        ensures failing { failing_reads result ≡ failing.items }
        ensures reads { reads_made result ≡ 0 }
        ensures faults { failed_reads result ≡ 0 }
    {
        MemorySource {
            bytes,
            given: 0,
            piece,
            failing,
            calls: 0,
            faults: 0,
        }
    }
}

impl Source for MemorySource {
    ghost use Rattle.bg_io.specs.MemorySource.{bytes_left, most_given, failing_reads, reads_made, failed_reads};

    ghost left = { λ source. Some (bytes_left source) };

    ghost faults = { failed_reads };

    ghost reads = { reads_made };

    /// Each read is counted, also one that fails. A read gives as much as there is room, bytes and
    /// `piece` for, so it costs as many steps as it moves bytes and `failing` has numbers.
    fn read(&mut self, buf: &mut [u8]) -> Result<usize, Failed>
        ensures bound { ReadsAtMost result buf.new }
        ensures bytes { ReadConsumes (Some (bytes_left self.old)) (Some (bytes_left self.new)) result buf.new }
        ensures cause { HasCause (failed_reads self.old) (failed_reads self.new) result }

        // how much is given, and which reads fail
        ensures given { IfOk result (λ n. n ≡ min (min (length (bytes_left self.old)) (length buf.new)) (most_given self.old)) }
        ensures failing { IsErr result ↔ Contains (failing_reads self.old) (reads_made self.new) }

        // the counts, and what stays
        ensures count { reads_made self.new ≡ next_count (reads_made self.old) }
        ensures same_most { most_given self.new ≡ most_given self.old }
        ensures same_failing { failing_reads self.new ≡ failing_reads self.old }
    {
        self.calls = self.calls.saturating_add(1);
        if is_listed(self.failing.as_slice(), self.calls) {
            self.faults = self.faults.saturating_add(1);
            return Err(Failed);
        }
        let count = copy_front(&self.bytes[self.given..], buf, self.piece as usize);
        self.given += count;
        Ok(count)
    }
}

/// Copies the front of `from` over the front of `into`, at most `most` bytes, and answers how many.
fn copy_front(from: &[u8], into: &mut [u8], most: usize) -> usize
    ensures count { result ≡ min (min (length from.now) (length into.new)) most }
    ensures front { take result into.new ≡ take result from.now }
{
    let count = from.len().min(into.len()).min(most);
    into[..count].copy_from_slice(&from[..count]);
    count
}
