ghost use Rattle.std.specs.Prelude.{◌≡◌, IfOk, false};

use byte_io::{
    DeviceFault, MemSink, MemSource, OutOfMemory, Sink, SinkFault, Source, StdSink, StdSource,
    read_to, write_all,
};
use std::alloc::Global;
use std::io;
use std::io::{BufWriter, Cursor};
use std::test::Fail;

fn source(alloc: Global, bytes: &[u8]) -> Result<MemSource, OutOfMemory>
    ensures { IfOk result (λ s. s.broken ≡ false) }
{
    Ok(MemSource::new(Vec::from_slice(alloc, bytes)?))
}

#[test]
fn gives_bytes_in_pieces(rt: HostRuntime) -> Result<(), Fail> {
    let mut input = source(rt.alloc(), b"hello")?;
    let mut buffer = [0u8; 3];
    assert!(rt; input.read(&mut buffer) == Ok(3));
    assert!(rt; buffer.as_slice() == b"hel".as_slice());
    assert!(rt; input.read(&mut buffer) == Ok(2));
    assert!(rt; buffer.as_slice() == b"lol".as_slice());
    assert!(rt; input.read(&mut buffer) == Ok(0));
    assert!(rt; !input.has_failed());
    Ok(())
}

#[test]
fn reads_up_to_a_limit(rt: HostRuntime) -> Result<(), Fail> {
    let mut input = source(rt.alloc(), b"hello")?;
    assert!(rt; read_to(rt.alloc(), &mut input, 4)?.as_slice() == b"hell".as_slice());
    assert!(rt; read_to(rt.alloc(), &mut input, 4)?.as_slice() == b"o".as_slice());
    assert!(rt; read_to(rt.alloc(), &mut input, 4)?.as_slice() == b"".as_slice());
    Ok(())
}

#[test]
fn fails_in_mid_stream(rt: HostRuntime) -> Result<(), Fail> {
    let mut input = MemSource::new(vec![in rt.alloc(); 7u8; 20000]?);
    input.fail_at(1);
    match read_to(rt.alloc(), &mut input, 20000) {
        Ok(_) => assert!(rt; false, "the second read fails"),
        Err(fault) => assert!(rt; fault == DeviceFault::Broken),
    }
    assert!(rt; input.has_failed());
    assert!(rt; input.read(&mut [0u8; 4]) == Err(DeviceFault::Broken));
    Ok(())
}

#[test]
fn takes_bytes_in_pieces(rt: HostRuntime) -> Result<(), Fail> {
    let mut out = MemSink::new(rt.alloc(), 5)?;
    out.piece(3);
    assert!(rt; out.write(b"hello") == Ok(3));
    assert!(rt; write_all(&mut out, b"lo") == Ok(()));
    assert!(rt; write_all(&mut out, b", there") == Ok(()));
    assert!(rt; out.bytes() == b"hello, there".as_slice());
    assert!(rt; !out.has_failed());
    Ok(())
}

#[test]
fn keeps_a_front_where_a_write_fails(rt: HostRuntime) -> Result<(), Fail> {
    let mut out = MemSink::new(rt.alloc(), 0)?;
    out.piece(3);
    out.fail_at(2);
    let fault = SinkFault::Device(DeviceFault::Broken);
    assert!(rt; write_all(&mut out, b"hello, there") == Err(fault));
    assert!(rt; out.bytes() == b"hello,".as_slice());
    assert!(rt; out.has_failed());
    assert!(rt; out.write(b"!") == Err(DeviceFault::Broken));
    assert!(rt; out.bytes() == b"hello,".as_slice());
    Ok(())
}

#[test]
fn tells_where_no_byte_was_taken(rt: HostRuntime) -> Result<(), Fail> {
    let mut out = MemSink::new(rt.alloc(), 8)?;
    out.piece(0);
    assert!(rt; write_all(&mut out, b"") == Ok(()));
    assert!(rt; write_all(&mut out, b"hello") == Err(SinkFault::TookNothing));
    assert!(rt; !out.has_failed());
    Ok(())
}

#[test]
fn reads_a_reader_of_std(rt: HostRuntime) -> Result<(), Fail> {
    let mut input = StdSource::new(Cursor::new(b"hello"));
    assert!(rt; read_to(rt.alloc(), &mut input, 100)?.as_slice() == b"hello".as_slice());
    assert!(rt; !input.has_failed());
    Ok(())
}

#[test]
fn writes_to_a_writer_of_std(rt: HostRuntime) -> Result<(), Fail> {
    let mut written = Vec::new(rt.alloc());
    let mut out = StdSink::new(BufWriter::new(rt.alloc(), &mut written)?);
    assert!(rt; write_all(&mut out, b"hello") == Ok(()));
    assert!(rt; out.flush() == Ok(()));
    assert!(rt; !out.has_failed());
    drop(out);
    assert!(rt; written.as_slice() == b"hello".as_slice());
    Ok(())
}

/// A reader and writer that answers one call and then fails.
#[derive(Drop)]
struct Once {
    done: bool,
}

impl Once {
    fn call(&mut self, n: usize) -> io::Result<usize>
        ensures { IfOk result (λ m. m ≡ n) }
    {
        if self.done {
            return Err(io::Error::from(io::ErrorKind::Other));
        }
        self.done = true;
        Ok(n)
    }
}

impl io::Read for Once {
    fn read(&mut self, buffer: &mut [u8]) -> io::Result<usize> {
        self.call(buffer.len())
    }
}

impl io::Write for Once {
    fn write(&mut self, bytes: &[u8]) -> io::Result<usize> {
        self.call(bytes.len())
    }

    fn flush(&mut self) -> io::Result<()> {
        self.call(0)?;
        Ok(())
    }
}

#[test]
fn passes_on_an_error_of_std(rt: HostRuntime) {
    let mut input = StdSource::new(Once { done: false });
    let mut buffer = [0u8; 4];
    assert!(rt; input.read(&mut buffer) == Ok(4));
    for _ in 0..2 {
        assert!(rt; input.read(&mut buffer) == Err(DeviceFault::Broken));
        assert!(rt; input.has_failed());
    }

    let mut out = StdSink::new(Once { done: false });
    assert!(rt; out.write(b"four") == Ok(4));
    assert!(rt; out.flush() == Err(DeviceFault::Broken));
    assert!(rt; out.has_failed());
    assert!(rt; out.write(b"four") == Err(DeviceFault::Broken));
}
