//! Texts of parts, gathered in memory.
use byte_streams::{Gathered, decimal, write_parts, write_two_counts};
use itoa::Buffer;
use std::test::Fail;

#[test]
fn parts_are_gathered_until_they_are_forgotten(rt: HostRuntime) -> Result<(), Fail> {
    let mut gathered = Gathered::new(rt.alloc());
    let mut buffer = Buffer::new();
    let number = decimal(&mut buffer, -70_123i32);
    write_parts(&mut gathered, &[b"day ", number, b"\n"])?;
    write_two_counts(&mut gathered, b"lines ", 2, b" facts ", u32::MAX)?;
    let want = b"day -70123\nlines 2 facts 4294967295\n";
    assert!(rt; gathered.bytes() == want.as_slice());
    gathered.clear();
    write_parts(&mut gathered, &[b"", b"end"])?;
    assert!(rt; gathered.into_bytes().as_slice() == b"end".as_slice());
    Ok(())
}
