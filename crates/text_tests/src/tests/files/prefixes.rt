//! Prefixes of a file.
use super::assert_breaks;
use std::test::Fail;

/// A file of a fact and two lines.
const WHOLE: &[u8] = b"calendrica 1 depth 40\n\
    fact 1 dt - 738926 73871\n\
    line 1 gregorian 2024-02-10 dt 73871 facts 1\n\
    line 2 refused 3\n\
    end lines 2 facts 1\n";

/// The rule and the line that prefixes break, from one length to before another. Without its last line feed it is a file still.
const PREFIXES: [(usize, usize, Option<(usize, u8)>); 12] = [
    (0, 21, Some((1, 1))),
    (21, 23, Some((2, 6))),
    (23, 42, Some((2, 2))),
    (42, 48, Some((3, 6))),
    (48, 89, Some((3, 2))),
    (89, 90, Some((4, 6))),
    (90, 91, Some((3, 2))),
    (91, 93, Some((4, 6))),
    (93, 108, Some((4, 2))),
    (108, 110, Some((5, 6))),
    (110, 128, Some((5, 2))),
    (128, 130, None),
];

#[test]
fn a_prefix_of_a_file_is_no_file(rt: HostRuntime) -> Result<(), Fail> {
    for (from, to, want) in PREFIXES {
        for length in from..to {
            let prefix = &WHOLE[..length.min(WHOLE.len())];
            assert_breaks(&rt, rt.alloc(), prefix, want, "a front")?;
        }
    }
    Ok(())
}
