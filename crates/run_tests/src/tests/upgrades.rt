//! Upgrades: what becomes of each kind of line.
use super::{Streams, assert_run};
use run_core::Status;
use std::test::Fail;

/// A file of version 1 whose only line is out of range there.
pub const OLDER_TEXT: &str = "calendrica 1 depth 40\n\
    fact 1 nowruz - 747911 747731\n\
    line 1 persian 1427-10-12 gregorian refused 4 748018 facts 1\n\
    end lines 1 facts 1\n";

/// What `upgrade` makes of it: the date is in range by version 2, and its own day's date confirms it.
pub const NEWER_TEXT: &str = "calendrica 2 depth 40\n\
    fact 1 nowruz - 747911 747731\n\
    fact 2 nowruz - 748018 747731\n\
    line 1 persian 1427-10-12 gregorian 2049-01-01 facts 1 2\n\
    end lines 1 facts 2\n";

/// A file of version 1 with a line of each form. The first names wrong facts and a wrong result.
pub const EACH_FORM: &str = "calendrica 1 depth 40\n\
    fact 1 dt - 738926 1\n\
    fact 2 nowruz - 747911 747731\n\
    line 1 gregorian 2024-02-10 dt 1 facts 1\n\
    line 2 persian 1427-10-12 gregorian refused 4 748018 facts 2\n\
    line 3 gregorian 2024-02-10 mayan 5 facts 1\n\
    line 4 persian 1402-12-30 gregorian refused 5 1403-1-1 facts\n\
    line 5 refused 4\n\
    line 6 undecided year 2 -1 1 fact dt - 738926\n\
    line 7 void year fact dt - 738926\n\
    line 8 gregorian 1750-06-01 dt 5 facts\n\
    end lines 8 facts 2\n";

/// What `upgrade` makes of each.
pub const EACH_RENEWED: &str = "calendrica 2 depth 40\n\
    fact 1 dt - 738926 73871\n\
    line 1 gregorian 2024-02-10 dt 73871 facts 1\n\
    fact 2 nowruz - 747911 747731\n\
    fact 3 nowruz - 748018 747731\n\
    line 2 persian 1427-10-12 gregorian 2049-01-01 facts 2 3\n\
    line 3 refused 2\n\
    fact 4 nowruz - 738780 738600\n\
    fact 5 nowruz - 738965 738965\n\
    fact 6 nowruz - 739145 738965\n\
    line 4 persian 1402-12-30 gregorian refused 5 1403-1-1 facts 4 5 6\n\
    line 5 refused 4\n\
    line 6 undecided year 2 -1 1 fact dt - 738926\n\
    line 7 void year fact dt - 738926\n\
    fact 7 dt - 638961 12873\n\
    line 8 gregorian 1750-06-01 dt 12873 facts 7\n\
    end lines 8 facts 7\n";

const WORDS: [&[&str]; 3] = [
    &["upgrade"],
    &["upgrade", "--jobs", "2"],
    &["upgrade", "--jobs", "64"],
];

/// Inputs, how their upgrade ends, and what it writes.
const UPGRADES: [(&str, Status, &str); 6] = [
    (OLDER_TEXT, Status::Done, NEWER_TEXT),
    (EACH_FORM, Status::Mixed, EACH_RENEWED),
    // A file of version 2 is refused by its first line, whatever follows.
    (NEWER_TEXT, Status::BadText, "bad 1 1\n"),
    ("calendrica 2 depth 40\n\nx\n", Status::BadText, "bad 1 1\n"),
    ("", Status::BadText, "bad 1 1\n"),
    ("calendrica 1 depth 40\nx\n", Status::BadText, "bad 2 2\n"),
];

#[test]
fn an_upgrade_renews_each_form_of_line(rt: HostRuntime) -> Result<(), Fail> {
    for words in WORDS {
        for (input, status, text) in UPGRADES {
            let streams = Streams {
                input: input.as_bytes(),
                read: 0,
                write: 0,
                room: 1000,
            };
            assert_run(&rt, rt.alloc(), words, streams, status, text)?;
        }
    }
    Ok(())
}
