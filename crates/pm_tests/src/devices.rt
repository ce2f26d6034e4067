//! Sources and sinks, and errors that are turned into others.

use pm_check::CheckFault;
use pm_dtext::{Fault, ReadFault};
use pm_io::{
    Failed, MemSink, MemSource, SendFault, Source, StdSink, StdSource, SureSource, TakeFault,
    read_all, write_all,
};
use pm_logic::Memory;
use pm_terms::TextFault;
use std::alloc::{AllocError, AllocFailed};
use std::io::{self, ErrorKind, Read, Write};
use std::test::Fail;

/// Passes on at most three bytes a call, and fails at the second call.
#[derive(Drop)]
struct Halting<T> {
    inner: T,
    calls: u8,
}

impl<T> Halting<T> {
    fn turn(&mut self, len: usize) -> io::Result<usize> {
        self.calls = self.calls.saturating_add(1);
        if self.calls == 2 {
            return Err(io::Error::from(ErrorKind::WouldBlock));
        }
        Ok(len.min(3))
    }
}

impl<T: Read> Read for Halting<T> {
    fn read(&mut self, buf: &mut [u8]) -> io::Result<usize> {
        let len = self.turn(buf.len())?.min(buf.len());
        self.inner.read(&mut buf[..len])
    }
}

impl<T: Write> Write for Halting<T> {
    fn write(&mut self, buf: &[u8]) -> io::Result<usize> {
        let len = self.turn(buf.len())?.min(buf.len());
        self.inner.write(&buf[..len])
    }

    fn flush(&mut self) -> io::Result<()> {
        self.inner.flush()
    }
}

#[test]
fn a_listed_read_fails(rt: HostRuntime) -> Result<(), Fail> {
    let mut source = MemSource::new(rt.alloc(), b"hello", &[2])?;
    let mut buf = [0u8; 3];
    assert!(rt; source.read(&mut buf) == Ok(3));
    assert!(rt; source.read(&mut buf) == Err(Failed));
    assert!(rt; source.read(&mut buf) == Ok(2));
    assert!(rt; buf.as_slice() == b"lol".as_slice());
    assert!(rt; source.read(&mut buf) == Ok(0));
    Ok(())
}

#[test]
fn up_to_the_limit(rt: HostRuntime) -> Result<(), Fail> {
    let mut source = SureSource::new(rt.alloc(), b"hello")?;
    let all = read_all(rt.alloc(), &mut source, 5)?;
    assert!(rt; all.as_slice() == b"hello".as_slice());
    let mut source = SureSource::new(rt.alloc(), b"hello")?;
    let long = read_all(rt.alloc(), &mut source, 4);
    assert!(rt; long.err() == Some(TakeFault::Long));
    let mut source = MemSource::new(rt.alloc(), b"hello", &[2])?;
    let failed = read_all(rt.alloc(), &mut source, 9);
    assert!(rt; failed.err() == Some(TakeFault::Read));
    Ok(())
}

#[test]
fn a_listed_write_leaves_the_front(rt: HostRuntime) -> Result<(), Fail> {
    let mut sink = MemSink::new(rt.alloc(), 1, &[3])?;
    assert!(rt; write_all(&mut sink, b"hello") == Err(SendFault::Write));
    assert!(rt; sink.bytes() == b"he".as_slice());
    assert!(rt; write_all(&mut sink, b"llo") == Ok(()));
    assert!(rt; sink.bytes() == b"hello".as_slice());
    Ok(())
}

#[test]
fn over_std(rt: HostRuntime) -> Result<(), Fail> {
    let mut source = StdSource::new(b"hello".as_slice());
    let all = read_all(rt.alloc(), &mut source, 5)?;
    assert!(rt; all.as_slice() == b"hello".as_slice());
    let mut room = [0u8; 4];
    let mut sink = StdSink::new(room.as_mut_slice());
    assert!(rt; write_all(&mut sink, b"hello") == Err(SendFault::Write));
    assert!(rt; room.as_slice() == b"hell".as_slice());
    Ok(())
}

#[test]
fn a_reader_fails_in_mid_stream(rt: HostRuntime) {
    let inner = b"hello".as_slice();
    let mut source = StdSource::new(Halting { inner, calls: 0 });
    let mut buf = [0u8; 5];
    assert!(rt; source.read(&mut buf) == Ok(3));
    assert!(rt; source.read(&mut buf) == Err(Failed));
    assert!(rt; source.read(&mut buf) == Ok(2));
    assert!(rt; buf.as_slice() == b"lol\0\0".as_slice());
}

#[test]
fn a_writer_fails_in_mid_stream(rt: HostRuntime) {
    let mut room = [b'.'; 5];
    let inner = room.as_mut_slice();
    let mut sink = StdSink::new(Halting { inner, calls: 0 });
    assert!(rt; write_all(&mut sink, b"hello") == Err(SendFault::Write));
    assert!(rt; write_all(&mut sink, b"p") == Ok(()));
    assert!(rt; room.as_slice() == b"help.".as_slice());
}

fn turned<A: Drop, B: From<A>>(error: A) -> B {
    B::from(error)
}

#[test]
fn errors_are_turned(rt: HostRuntime) {
    assert!(rt; turned::<AllocError, Memory>(AllocError) == Memory);
    assert!(rt; turned::<AllocFailed<u8>, Memory>(AllocFailed { value: 1 }) == Memory);
    assert!(rt; turned::<AllocError, TextFault>(AllocError) == TextFault::Memory);
    assert!(rt;
        turned::<AllocFailed<u8>, TextFault>(AllocFailed { value: 1 }) == TextFault::Memory
    );
    assert!(rt; turned::<Memory, TextFault>(Memory) == TextFault::Memory);
    assert!(rt; turned::<AllocError, CheckFault>(AllocError) == CheckFault::Memory);
    assert!(rt;
        turned::<AllocFailed<u8>, CheckFault>(AllocFailed { value: 1 }) == CheckFault::Memory
    );
    assert!(rt; turned::<Memory, CheckFault>(Memory) == CheckFault::Memory);
    assert!(rt; turned::<AllocError, ReadFault>(AllocError) == ReadFault::Memory);
    assert!(rt; turned::<Memory, ReadFault>(Memory) == ReadFault::Memory);
    let fault = Fault::Syntax(5);
    assert!(rt; turned::<Fault, ReadFault>(fault) == ReadFault::Fault(fault));
}
