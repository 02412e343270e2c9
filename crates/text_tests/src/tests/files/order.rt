//! Lines that break two rules: the one that is tried first is answered.

/// The forms come before all other rules.
pub const FORM_FIRST: &[&str] = &[
    "line 2 refused 9",
    "fact 1 dt cairo 1 1 1",
    "end lines 0 facts 0\nline 1",
];

/// The numbers of facts and lines come next.
pub const NUMBER_FIRST: &[&str] = &[
    "fact 2 dt cairo 1 1",
    "line 2 void year fact dt cairo 1",
    "line 2 undecided round 1 0 0 fact dt cairo 1",
    "fact 1 dt - 1 1\nfact 3 dt - 1 1",
    "line 2 a b c d facts 1",
    "end lines 0 facts 0\nline 2 refused 1",
];

/// Then places, before the end line.
pub const PLACE_FIRST: &[&str] = &[
    "end lines 0 facts 0\nfact 1 dt cairo 1 1",
    "end lines 0 facts 0\nline 1 void year fact dt cairo 1",
    "end lines 0 facts 0\nline 1 undecided round 1 0 0 fact dt cairo 1",
];

/// A fact twice, after the end line.
pub const FACT_FIRST: &[&str] = &["fact 1 dt - 1 1\nend lines 0 facts 1\nfact 2 dt - 1 1"];

/// A list, after the end line.
pub const LIST_FIRST: &[&str] = &["end lines 0 facts 0\nline 1 a b c d facts 1"];
