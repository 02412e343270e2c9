//! Readers and writers of the standard library as sources and sinks.
use byte_streams::{Failed, Sink, StdSink, StdSource, read_all, write_all};
use std::test::Fail;

#[test]
fn readers_give_their_bytes(rt: HostRuntime) -> Result<(), Fail> {
    let mut source = StdSource::new(b"12345".as_slice());
    let read = read_all(rt.alloc(), &mut source, 9)?;
    assert!(rt; read.as_slice() == b"12345".as_slice());
    Ok(())
}

#[test]
fn writers_take_their_bytes(rt: HostRuntime) -> Result<(), Fail> {
    let mut room = [0u8; 7];
    let mut sink = StdSink::new(room.as_mut_slice());
    write_all(&mut sink, b"12345")?;
    write_all(&mut sink, b"67")?;
    assert!(rt; room == *b"1234567");
    Ok(())
}

#[test]
fn a_writer_that_takes_nothing_has_failed(rt: HostRuntime) {
    let mut room = [0u8; 3];
    let mut sink = StdSink::new(room.as_mut_slice());
    let writes = (sink.write(b"12345"), sink.write(b"45"), sink.write(b""));
    assert!(rt; writes == (Ok(3), Err(Failed), Ok(0)));
    assert!(rt; room == *b"123");
}
