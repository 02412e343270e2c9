//! Numbers that fit and numbers that don't: at the bounds of their ranges, and of 10, 20 and 40 digits.

/// The bounds of the ranges of days, values and bounds of undecided tests.
pub const FITTING: &[&str] = &[
    "fact 1 dt - 40000000 -10000000\nend lines 0 facts 1",
    "fact 1 dt - -40000000 10000000\nend lines 0 facts 1",
    "fact 1 dt - 0 0\nend lines 0 facts 1",
    "line 1 a b c refused 4 40000000 facts\nend lines 1 facts 0",
    "line 1 void year fact dt - 40000000\nend lines 1 facts 0",
    "line 1 undecided round 4294967295 0 0 fact dt - 1\nend lines 1 facts 0",
    "line 1 undecided year 1 -1234567890 1234567890 fact dt - 1\nend lines 1 facts 0",
    "line 1 undecided year 1 -12345678901234567890 0 fact dt - 1\nend lines 1 facts 0",
    "line 1 undecided year 1 -170141183460469231731687303715884105728 \
        170141183460469231731687303715884105727 fact dt - 1\nend lines 1 facts 0",
];

/// Counters that are none, since they don't fit or have another spelling.
pub const COUNTERS: &[&str] = &[
    "line 4294967296 refused 3",
    "line 12345678901234567890 refused 3",
    "line 1000000000000000000000000000000000000007 refused 3",
    "line -1 refused 3",
    "line -1234567890 refused 3",
    "line -1000000000000000000000000000000000000007 refused 3",
    "line -0 refused 3",
    "line 01 refused 3",
    "line 00 refused 3",
    "line 012345678901234567890 refused 3",
    "line +1 refused 3",
    "line 1a refused 3",
    "line 1 a b c d facts 12345678901234567890",
    "fact 1 dt - 1 1\nline 1 a b c d facts 01",
    "line 1 undecided round 4294967296 0 1 fact dt - 1",
    "line 1 undecided round -1 0 1 fact dt - 1",
    "end lines 00 facts 0",
    "end lines 0 facts -0",
];

/// Counters that fit, and are out of order.
pub const LARGE_COUNTERS: &[&str] = &[
    "line 1234567890 refused 3",
    "line 4294967295 refused 3",
    "fact 4294967295 dt - 1 1",
];

/// Days and values out of their ranges or in another spelling.
pub const DAYS_AND_VALUES: &[&str] = &[
    "fact 1 dt - 40000001 1",
    "fact 1 dt - -40000001 1",
    "fact 1 dt - 1234567890 1",
    "fact 1 dt - -12345678901234567890 1",
    "fact 1 dt - 1000000000000000000000000000000000000007 1",
    "fact 1 dt - -0 1",
    "fact 1 dt - 0738926 1",
    "fact 1 dt - -01 1",
    "fact 1 dt - - 1",
    "fact 1 dt - --1 1",
    "fact 1 dt - +1 1",
    "fact 1 dt - 1 10000001",
    "fact 1 dt - 1 -10000001",
    "fact 1 dt - 1 1234567890",
    "fact 1 dt - 1 12345678901234567890",
    "fact 1 dt - 1 -1000000000000000000000000000000000000007",
    "fact 1 dt - 1 -0",
    "fact 1 dt - 1 01",
    "line 1 a b c refused 4 40000001 facts",
    "line 1 void year fact dt - 40000001",
    "line 1 undecided year 1 0 0 fact dt - -40000001",
];

/// Bounds of undecided tests that don't fit or have another spelling.
pub const BOUNDS: &[&str] = &[
    "line 1 undecided year 1 -170141183460469231731687303715884105729 0 fact dt - 1",
    "line 1 undecided year 1 0 170141183460469231731687303715884105728 fact dt - 1",
    "line 1 undecided year 1 0 1000000000000000000000000000000000000007 fact dt - 1",
    "line 1 undecided year 1 -1000000000000000000000000000000000000007 0 fact dt - 1",
    "line 1 undecided year 1 -0 0 fact dt - 1",
    "line 1 undecided year 1 0 012345678901234567890 fact dt - 1",
    "line 1 undecided year 1 -012345678901234567890 0 fact dt - 1",
    "line 1 undecided year 1 0 000000000000000000000000000000000000000 fact dt - 1",
    "line 1 undecided year 1 +5 7 fact dt - 1",
];
