//! Streams in memory fail where they are told to.
use byte_streams::{Failed, MemorySink, MemorySource, ReadStop, Sink, Source, read_all, write_all};
use std::test::Fail;

#[test]
fn a_source_in_memory_fails_at_the_listed_calls(rt: HostRuntime) -> Result<(), Fail> {
    let alloc = rt.alloc();
    for failing in 1..4u32 {
        let bytes = vec![in alloc; 7u8; 5000]?;
        let mut source = MemorySource::new(bytes, vec![in alloc; failing]?);
        let got = read_all(alloc, &mut source, 5000);
        assert!(rt; matches!(got, Err(ReadStop::Fault)), "at {failing}");
    }
    let mut source = MemorySource::new(vec![in alloc; 7u8; 5000]?, vec![in alloc; 4u32]?);
    assert!(rt; read_all(alloc, &mut source, 5000)?.len() == 5000);
    let later = (source.read(&mut [0]), source.read(&mut [0]));
    assert!(rt; later == (Err(Failed), Ok(0)));
    Ok(())
}

#[test]
fn a_sink_in_memory_keeps_its_room(rt: HostRuntime) -> Result<(), Fail> {
    let alloc = rt.alloc();
    let mut sink = MemorySink::new(alloc, 10, Vec::new(alloc))?;
    let more = write_all(&mut sink, b"calendrica 1 depth 40\n");
    let nothing = sink.write(b"");
    assert!(rt; (more, nothing) == (Err(Failed), Ok(0)));
    assert!(rt; sink.written() == b"calendrica".as_slice());
    let mut sink = MemorySink::new(alloc, 10, vec![in alloc; 2u32]?)?;
    let writes = (sink.write(b"ab"), sink.write(b"cd"), sink.write(b"ef"));
    assert!(rt; writes == (Ok(2), Err(Failed), Ok(2)));
    assert!(rt; sink.written() == b"abef".as_slice());
    Ok(())
}
