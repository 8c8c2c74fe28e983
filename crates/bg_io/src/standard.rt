ghost use Rattle.std.specs.Prelude.{◌≡◌, ◌<◌, IfOk, MatchResult, length, OnOk};
ghost use Rattle.std.specs.Io.{ReadsAtMost, WritesAtMost};
ghost use Rattle.std.specs.Io.KnownBytes.{Keeps, ReadConsumes, WriteAppends};
ghost use Rattle.bg_io.specs.Faults.{HasCause, HasSinkCause, next_count};

use crate::fault::{Failed, SinkFault};
use crate::sink::Sink;
use crate::source::Source;
use std::io;
use std::io::{Read, Write};

/// A source over a reader of std, as the standard input. It tells what is left where the reader does.
///
/// Both its counts have 64 bits, start at 0 and stay at their end: of the reads, and of those that failed.
#[derive(Debug, Drop)]
pub struct StdSource<R> {
    reader: R,
    calls: u64,
    faults: u64,
}

impl<R: Read> StdSource<R> {
    ghost use Rattle.std.specs.Prelude.{◌≡◌, Ok, IfOk, OnErr, IsErr};
    ghost use Rattle.bg_io.specs.Faults.{HasCause};
    ghost use Rattle.bg_io.specs.Standard.{reader_of, reads_made, failed_reads};

    /// A source that was not read yet.
    pub fn new(reader: R) -> StdSource<R>
        ensures reader { reader_of result ≡ reader }
        ensures reads { reads_made result ≡ 0 }
        ensures faults { failed_reads result ≡ 0 }
    {
        StdSource {
            reader,
            calls: 0,
            faults: 0,
        }
    }

    /// What a read of the reader came to: how many bytes, or a failure, which is counted.
    fn told(&mut self, read: io::Result<usize>) -> Result<usize, Failed>
        ensures given { IfOk read (λ n. result ≡ Ok n) }
        ensures failed { OnErr read (IsErr result) }
        ensures cause { HasCause (failed_reads self.old) (failed_reads self.new) result }
        ensures same_reader { reader_of self.new ≡ reader_of self.old }
        ensures same_reads { reads_made self.new ≡ reads_made self.old }
    {
        match read {
            Ok(count) => Ok(count),
            Err(_) => {
                self.faults = self.faults.saturating_add(1);
                Err(Failed)
            }
        }
    }
}

impl<R: Read> Source for StdSource<R> {
    ghost use Rattle.bg_io.specs.Standard.{reader_of, reads_made, failed_reads};

    ghost left = { λ source. R.remaining source.reader };

    ghost faults = { λ source. failed_reads source };

    ghost reads = { λ source. reads_made source };

    /// Reads the reader once; a read that fails is counted.
    fn read(&mut self, buf: &mut [u8]) -> Result<usize, Failed>
        ensures bound { ReadsAtMost result buf.new }
        ensures bytes { ReadConsumes (R.remaining (reader_of self.old)) (R.remaining (reader_of self.new)) result buf.new }
        ensures cause { HasCause (failed_reads self.old) (failed_reads self.new) result }
        ensures count { reads_made self.new ≡ next_count (reads_made self.old) }
    {
        self.calls = self.calls.saturating_add(1);
        let read = self.reader.read(buf);
        self.told(read)
    }
}

/// A sink over a writer of std, as the standard output. It tells what is held where the writer does.
///
/// Its count of faults starts at 0, has 64 bits and stays at its end. It rises at each write or flush that
/// fails, and at each write of a piece that is not empty of which nothing is taken.
#[derive(Debug, Drop)]
pub struct StdSink<W> {
    writer: W,
    faults: u64,
}

impl<W: Write> StdSink<W> {
    ghost use Rattle.std.specs.Prelude.{◌≡◌, ◌<◌, Ok, Err, IfOk, OnErr, IsTrue, IsFalse};
    ghost use Rattle.bg_io.specs.Faults.{HasSinkCause, next_count};
    ghost use Rattle.bg_io.specs.Standard.{writer_of, failed_writes};

    /// A sink that has not failed yet.
    pub fn new(writer: W) -> StdSink<W>
        ensures writer { writer_of result ≡ writer }
        ensures faults { failed_writes result ≡ 0 }
    {
        StdSink { writer, faults: 0 }
    }

    /// What a write to the writer came to: how many bytes, or a failure, which is counted. Nothing taken is a failure,
    /// unless there was nothing to take.
    fn told(&mut self, written: io::Result<usize>, is_nothing: bool) -> Result<usize, SinkFault>
        ensures taken { IfOk written (λ n. 0 < n → result ≡ Ok n) }
        ensures nothing { IfOk written (λ n. IsTrue is_nothing → result ≡ Ok n) }
        ensures none { IfOk written (λ n. IsFalse is_nothing → n ≡ 0 → result ≡ Err SinkFault.Failed) }
        ensures failed { OnErr written (result ≡ Err SinkFault.Failed) }
        ensures cause { HasSinkCause (failed_writes self.old) (failed_writes self.new) result }
        ensures same_writer { writer_of self.new ≡ writer_of self.old }
    {
        match written {
            Ok(count) if count > 0 || is_nothing => Ok(count),
            _ => Err(self.fail()),
        }
    }

    /// Counts a failure.
    fn fail(&mut self) -> SinkFault
        ensures fault { result ≡ SinkFault.Failed }
        ensures counted { failed_writes self.new ≡ next_count (failed_writes self.old) }
        ensures same_writer { writer_of self.new ≡ writer_of self.old }
    {
        self.faults = self.faults.saturating_add(1);
        SinkFault::Failed
    }
}

impl<W: Write> Sink for StdSink<W> {
    ghost use Rattle.bg_io.specs.Standard.{writer_of, failed_writes};

    ghost held = { λ sink. W.contents sink.writer };

    ghost faults = { λ sink. failed_writes sink };

    ghost is_flushed = { λ _. Unit {0} };

    /// Writes to the writer once; a write that fails, or takes nothing of a piece that is not empty, is counted.
    fn write(&mut self, piece: &[u8]) -> Result<usize, SinkFault>
        ensures bound { WritesAtMost result piece.now }
        ensures moves { IfOk result (λ n. 0 < length piece.now → 0 < n) }
        ensures bytes { WriteAppends (W.contents (writer_of self.old)) (W.contents (writer_of self.new)) result piece.now }
        ensures cause { HasSinkCause (failed_writes self.old) (failed_writes self.new) result }
    {
        let written = self.writer.write(piece);
        self.told(written, piece.is_empty())
    }

    /// Flushes the writer; a flush that fails is counted.
    fn flush(&mut self) -> Result<(), SinkFault>
        ensures bytes { Keeps (W.contents (writer_of self.old)) (W.contents (writer_of self.new)) }
        ensures flushed { OnOk result (Unit {0}) }
        ensures cause { HasSinkCause (failed_writes self.old) (failed_writes self.new) result }
    {
        match self.writer.flush() {
            Ok(()) => Ok(()),
            Err(_) => Err(self.fail()),
        }
    }
}
