use bg_io::{
    Failed, MemorySink, MemorySource, ReadAllFault, Sink, SinkFault, Source, StdSink, StdSource,
    read_all, write_all,
};
use std::io;
use std::io::{Read, Write};

/// A reader that always fails.
#[derive(Drop)]
struct Broken;

impl Read for Broken {
    fn read(&mut self, _buf: &mut [u8]) -> io::Result<usize> {
        Err(io::ErrorKind::BrokenPipe.into())
    }
}

/// A writer that takes nothing, and cannot be flushed.
#[derive(Drop)]
struct Full;

impl Write for Full {
    fn write(&mut self, _buf: &[u8]) -> io::Result<usize> {
        Ok(0)
    }

    fn flush(&mut self) -> io::Result<()> {
        Err(io::ErrorKind::StorageFull.into())
    }
}

/// Whether the output failed; want of memory is passed on.
fn has_failed(written: Result<(), SinkFault>) -> Result<bool, SinkFault> {
    match written {
        Ok(()) => Ok(false),
        Err(SinkFault::Failed) => Ok(true),
        Err(SinkFault::OutOfMemory) => Err(SinkFault::OutOfMemory),
    }
}

/// Why a source was not read whole, if it was not; want of memory is passed on.
fn fault_of(read: &Result<Vec<u8>, ReadAllFault>) -> Result<Option<ReadAllFault>, ReadAllFault> {
    match read {
        Ok(_) => Ok(None),
        Err(ReadAllFault::OutOfMemory) => Err(ReadAllFault::OutOfMemory),
        Err(fault) => Ok(Some(*fault)),
    }
}

#[test]
fn a_source_is_read_whole_in_pieces(rt: HostRuntime) -> Result<(), ReadAllFault> {
    let alloc = rt.alloc();
    let mut source = MemorySource::new(b"a room in a building".to_vec(alloc)?, 3, Vec::new(alloc));
    let bytes = read_all(alloc, &mut source, 20)?;
    assert!(rt; bytes.as_slice() == b"a room in a building".as_slice());
    Ok(())
}

#[test]
fn a_source_past_the_limit_is_too_long(rt: HostRuntime) -> Result<(), ReadAllFault> {
    let alloc = rt.alloc();
    let mut source = MemorySource::new(b"a room in a building".to_vec(alloc)?, 3, Vec::new(alloc));
    let result = read_all(alloc, &mut source, 19);
    assert!(rt; fault_of(&result)? == Some(ReadAllFault::TooLong));
    Ok(())
}

#[test]
fn a_read_that_fails_leaves_the_rest(rt: HostRuntime) -> Result<(), ReadAllFault> {
    let alloc = rt.alloc();
    let mut source = MemorySource::new(b"room".to_vec(alloc)?, 1, [3].to_vec(alloc)?);
    let first = read_all(alloc, &mut source, 100);
    assert!(rt; fault_of(&first)? == Some(ReadAllFault::ReadFault));
    let rest = read_all(alloc, &mut source, 100)?;
    assert!(rt; rest.as_slice() == b"om".as_slice());
    Ok(())
}

#[test]
fn a_sink_is_given_all(rt: HostRuntime) -> Result<(), SinkFault> {
    let alloc = rt.alloc();
    let mut sink = MemorySink::new(alloc, 2, Vec::new(alloc));
    write_all(&mut sink, b"agents")?;
    assert!(rt; sink.held() == b"agents".as_slice());
    Ok(())
}

#[test]
fn a_write_that_fails_leaves_a_prefix(rt: HostRuntime) -> Result<(), SinkFault> {
    let alloc = rt.alloc();
    let mut sink = MemorySink::new(alloc, 1, [4].to_vec(alloc)?);
    let result = write_all(&mut sink, b"agents");
    assert!(rt; has_failed(result)?);
    assert!(rt; sink.held() == b"age".as_slice());
    Ok(())
}

#[test]
fn a_flush_that_fails_leaves_all(rt: HostRuntime) -> Result<(), SinkFault> {
    let alloc = rt.alloc();
    let mut sink = MemorySink::new(alloc, 100, [2].to_vec(alloc)?);
    let result = write_all(&mut sink, b"agents");
    assert!(rt; has_failed(result)?);
    assert!(rt; sink.held() == b"agents".as_slice());
    Ok(())
}

#[test]
fn a_standard_source_passes_bytes_on(rt: HostRuntime) -> Result<(), ReadAllFault> {
    let mut source = StdSource::new(b"a link".as_slice());
    let bytes = read_all(rt.alloc(), &mut source, 100)?;
    assert!(rt; bytes.as_slice() == b"a link".as_slice());
    Ok(())
}

/// A list of bytes that finds no memory is a writer that fails, and a sink says no more.
#[test]
fn a_standard_sink_passes_bytes_on(rt: HostRuntime) -> Result<(), SinkFault> {
    let mut held: Vec<u8> = Vec::with_capacity(rt.alloc(), 10)?;
    let mut sink = StdSink::new(&mut held);
    write_all(&mut sink, b"a link")?;
    assert!(rt; held.as_slice() == b"a link".as_slice());
    Ok(())
}

#[test]
fn standard_ends_answer_failures(rt: HostRuntime) {
    let mut source = StdSource::new(Broken);
    let mut buf = [0u8; 4];
    assert!(rt; source.read(&mut buf) == Err(Failed));
    let mut sink = StdSink::new(Full);
    assert!(rt; sink.write(b"a link") == Err(SinkFault::Failed));
    assert!(rt; sink.write(b"") == Ok(0));
    assert!(rt; sink.flush() == Err(SinkFault::Failed));
}
