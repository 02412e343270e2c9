//! The rules from the third on: order of numbers, places, facts, lists and the end line.

/// Files that come close to breaking a rule.
pub const FILES: &[&str] = &[
    "fact 1 dt - 1 1\nline 1 refused 1\nfact 2 dt - 2 1\nline 2 refused 1\nend lines 2 facts 2",
    "fact 1 dt - 1 1\nend lines 0 facts 1",
    "fact 1 dt - 1 1\nfact 2 dt - 2 1\nline 1 a b c d facts 2 1\nend lines 1 facts 2",
    "fact 1 dt - 1 1\nline 1 a b c d facts 1\nline 2 a b c d facts 1\nend lines 2 facts 1",
    "line 1 undecided round 1 0 0 fact dt - 1\nfact 1 dt - 1 1\nend lines 1 facts 1",
];

/// A number out of order.
pub const NUMBERS: &[&str] = &[
    "fact 0 dt - 1 1",
    "fact 2 dt - 1 1",
    "line 0 refused 1",
    "line 2 refused 1",
    "fact 1 dt - 1 1\nfact 1 dt - 2 1",
    "fact 1 dt - 1 1\nfact 3 dt - 2 1",
    "line 1 refused 1\nline 1 refused 1",
    "line 2 undecided round 1 0 0 fact dt - 1",
    "line 2 void year fact dt - 1",
];

/// A place that isn't one of the kind's places.
pub const PLACES: &[&str] = &[
    "fact 1 dt cairo 1 1",
    "line 1 undecided round 3 1 2 fact dt ujjain 1",
    "line 1 void year fact dt tehran 1",
];

/// A fact twice.
pub const FACTS: &[&str] = &[
    "fact 1 dt - 1 1\nfact 2 dt - 1 1",
    "fact 1 dt - 1 1\nfact 2 dt - 1 2",
    "fact 1 dt - 1 1\nfact 2 dt - 2 1\nfact 3 dt - 1 1",
];

/// A listed number that is 0, of a later fact or there twice.
pub const LISTS: &[&str] = &[
    "line 1 a b c d facts 1",
    "fact 1 dt - 1 1\nline 1 a b c d facts 0",
    "fact 1 dt - 1 1\nline 1 a b c d facts 1 2",
    "fact 1 dt - 1 1\nline 1 a b c d facts 1 1",
    "fact 1 dt - 1 1\nfact 2 dt - 2 1\nline 1 a b c d facts 2 1 2",
    "fact 1 dt - 1 1\nline 1 a b c refused 4 5 facts 1 1",
    "fact 1 dt - 1 1\nline 1 a b c refused 5 d facts 1 1",
];

/// Wrong counts, and lines after the end line.
pub const ENDPOINTS: &[&str] = &[
    "line 1 refused 1\nend lines 0 facts 0",
    "line 1 refused 1\nend lines 2 facts 0",
    "fact 1 dt - 1 1\nend lines 0 facts 0",
    "fact 1 dt - 1 1\nend lines 0 facts 2",
    "fact 1 dt - 1 1\nend lines 1 facts 0",
    "end lines 0 facts 0\nend lines 0 facts 0",
    "end lines 0 facts 0\nline 1 refused 1",
    "end lines 0 facts 0\nfact 1 dt - 1 1",
    "end lines 0 facts 0\nline 1 undecided round 1 0 0 fact dt - 1",
    "end lines 0 facts 0\nline 1 void year fact dt - 1",
];
