ghost use Rattle.std.specs.Prelude.{◌≡◌, ℕ, ◌+◌, ◌≤◌, ◌<◌, List, length, take, IfOk, OnOk, OnErr, IsErrOf, IfSome};
ghost use Rattle.std.specs.Io.{ReadsAtMost};
ghost use Rattle.std.specs.Io.KnownBytes.{Appends, Consumes, IsAtEnd};
ghost use Rattle.bg_io.specs.Faults.{Rose, HasCause, HasSinkCause};
ghost use Rattle.bg_io.specs.Transfers.{AppendsPrefix, ConsumesExactly, ConsumesAtMost};

use crate::fault::{Failed, ReadAllFault, SinkFault};
use crate::sink::Sink;
use crate::source::Source;
use std::alloc::Global;

/// Reads a source to its end, and answers all that it had left.
///
/// The memory is taken first, `limit + 1` bytes of it. `TooLong` comes exactly where the source gave
/// `limit + 1` bytes; it is read no further. Each read but the last gives at least one byte.
pub fn read_all<S: Source>(
    alloc: Global,
    source: &mut S,
    limit: u32,
) -> Result<Vec<u8>, ReadAllFault>
    requires { limit < 4294967294 }

    // the bytes: all that was left, within the limit
    ensures given { IfOk result (λ bytes. Consumes (S.left source.old) (S.left source.new) bytes.items) }
    ensures end { OnOk result (IsAtEnd (S.left source.new)) }
    ensures all { IfOk result (λ bytes. IfSome (S.left source.old) (λ left. bytes.items ≡ left)) }
    ensures few { IfOk result (λ bytes. length bytes.items ≤ limit) }

    // the faults
    ensures too_long { IsErrOf result ReadAllFault.TooLong →
        ConsumesExactly (S.left source.old) (S.left source.new) (limit + 1) }
    ensures read_fault { IsErrOf result ReadAllFault.ReadFault → Rose (S.faults source.old) (S.faults source.new) }
    ensures no_fault { ¬ IsErrOf result ReadAllFault.ReadFault → S.faults source.new ≡ S.faults source.old }
    ensures fault_within { IsErrOf result ReadAllFault.ReadFault →
        ConsumesAtMost (S.left source.old) (S.left source.new) limit }
    ensures memory_first { IsErrOf result ReadAllFault.OutOfMemory → source.new ≡ source.old }

    // the reads
    ensures reads { S.reads source.new ≤ S.reads source.old + limit + 1 }
{
    let room = limit as usize + 1;
    let mut bytes = vec![in alloc; 0u8; room]?;
    let count = fill(source, bytes.as_mut_slice())?;
    if count == room {
        return Err(ReadAllFault::TooLong);
    }
    bytes.truncate(count);
    Ok(bytes)
}

/// Reads until `buf` is full or the source is at its end, and answers how many bytes were given.
fn fill<S: Source>(source: &mut S, buf: &mut [u8]) -> Result<usize, Failed>
    ensures bound { ReadsAtMost result buf.new }
    ensures given { IfOk result (λ n. Consumes (S.left source.old) (S.left source.new) (take n buf.new)) }
    ensures end { IfOk result (λ n. n < length buf.new → IsAtEnd (S.left source.new)) }
    ensures fault_within { OnErr result ((bytes : List ℕ) × Consumes (S.left source.old) (S.left source.new) bytes × (length bytes < length buf.new)) }
    ensures cause { HasCause (S.faults source.old) (S.faults source.new) result }
    ensures reads { S.reads source.new ≤ S.reads source.old + length buf.new }
{
    let mut count = 0;
    while count < buf.len() {
        let given = source.read(&mut buf[count..])?;
        if given == 0 {
            break;
        }
        count += given;
    }
    Ok(count)
}

/// Writes all the bytes, in as many pieces as the sink takes them in, and flushes the sink.
pub fn write_all<K: Sink>(sink: &mut K, bytes: &[u8]) -> Result<(), SinkFault>
    ensures all { OnOk result (Appends (K.held sink.old) (K.held sink.new) bytes.now) }
    ensures flushed { OnOk result (K.is_flushed sink.new) }
    ensures prefix { OnErr result (AppendsPrefix (K.held sink.old) (K.held sink.new) bytes.now) }
    ensures cause { HasSinkCause (K.faults sink.old) (K.faults sink.new) result }
{
    let mut count = 0;
    while count < bytes.len() {
        count += sink.write(&bytes[count..])?;
    }
    sink.flush()
}
