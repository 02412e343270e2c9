//! Bytes that come and go a few at a time, and calls that fail.
use super::kept::{Given, Kept};
use byte_streams::{Failed, ReadStop, read_all, write_all};
use std::alloc::Global;
use std::test::Fail;

/// How reading five bytes ends, so many at a call at most, where this call fails and at most the limit are allowed; and how
/// many calls failed.
fn read_five(alloc: Global, most: usize, failing: u32, limit: usize) -> (Option<ReadStop>, u64) {
    let mut source = Given {
        left: b"12345",
        most,
        failing,
        calls: 0,
        faults: 0,
    };
    let stop = match read_all(alloc, &mut source, limit) {
        Ok(bytes) if bytes.as_slice() == b"12345".as_slice() => None,
        // No other bytes are read.
        Ok(_) => Some(ReadStop::Memory),
        Err(stop) => Some(stop),
    };
    (stop, source.faults)
}

#[test]
fn short_reads_are_no_end(rt: HostRuntime) {
    let alloc = rt.alloc();
    for (failing, most) in (1..7u32).zip(1..7usize) {
        assert!(rt;
            read_five(alloc, most, 0, 5) == (None, 0),
            "{most} at a call"
        );
        let past = (Some(ReadStop::TooLarge), 0);
        assert!(rt; read_five(alloc, most, 0, 4) == past, "{most} at a call");
        let failed = (Some(ReadStop::Fault), 1);
        assert!(rt;
            read_five(alloc, 1, failing, 5) == failed,
            "at call {failing}"
        );
    }
    assert!(rt; read_five(alloc, 1, 7, 5) == (None, 0));
}

#[test]
fn short_writes_go_on_until_the_sink_is_full(rt: HostRuntime) -> Result<(), Fail> {
    for most in 1..7usize {
        let mut sink = Kept::new(rt.alloc(), 5, most);
        write_all(&mut sink, b"123")?;
        write_all(&mut sink, b"")?;
        let last = (write_all(&mut sink, b"456"), sink.faults);
        assert!(rt; last == (Err(Failed), 1), "{most} at a call");
        assert!(rt;
            sink.bytes.as_slice() == b"12345".as_slice(),
            "{most} at a call"
        );
    }
    Ok(())
}
