//! The seven forms of lines and the end line, and lines that have none of the forms.

/// Each form, with the least and the greatest that it may hold, and words that other forms begin with.
pub const FILES: &[&str] = &[
    "fact 1 dt - 738926 73871\nend lines 0 facts 1",
    "line 1 gregorian 2024-02-10 dt 73871 facts\nend lines 1 facts 0",
    "line 1 a b c ! facts\nline 2 a b c ~ facts\nend lines 2 facts 0",
    "line 1 persian 1427-10-12 gregorian refused 4 748018 facts\nend lines 1 facts 0",
    "line 1 persian 1402-12-30 gregorian refused 5 1403-1-1 facts\nend lines 1 facts 0",
    "line 1 refused 1\nline 2 refused 4\nend lines 2 facts 0",
    "line 1 undecided round 2 -5 7 fact dt - 738926\nend lines 1 facts 0",
    "line 1 undecided year 0 7 -5 fact dt - 738926\nend lines 1 facts 0",
    "line 1 void bisect-end fact dt - -5\nend lines 1 facts 0",
    "line 1 a b c refused facts\nend lines 1 facts 0",
    "line 1 undecided void refused fact facts\nend lines 1 facts 0",
    "line 1 a b c refused 5 facts facts\nend lines 1 facts 0",
];

/// Words too few, too many or unknown.
pub const WORDS: &[&str] = &[
    "facts 1 dt - 1 1",
    "fact 1 dt - 1",
    "fact 1 dt - 1 1 1",
    "fact 1 moon - 1 1",
    "fact 1 dt paris 1 1",
    "line",
    "line 1",
    "line 1 a b c facts",
    "line 1 a b c d",
    "line 1 a b c d e facts",
    "line 1 a b c d facts x",
    "line 1 a b c refused 4 facts",
    "line 1 a b c refused 4 1-1-1 facts",
    "line 1 a b c refused 3 1-1-1 facts",
    "line 1 a b c refused 5 facts",
    "line 1 refused 0",
    "line 1 refused 5",
    "line 1 refused 3 facts",
    "line 1 undecided floor 2 -5 7 fact dt - 738926",
    "line 1 undecided round 2 -5 7 fact dt - 738926 1",
    "line 1 undecided round 2 -5 fact dt - 738926",
    "line 1 void bisect_end fact dt - -5",
    "line 1 void bisect-end dt - -5",
    "line 1 void year fact dt paris 1",
    "end lines 0",
    "end lines 0 facts 0 0",
];

/// Spaces where there should be none, and bytes that no word holds.
pub const BYTES: &[&str] = &[
    "line 1  refused 3",
    " line 1 refused 3",
    "line 1 refused 3 ",
    "line 1\trefused 3",
    "line 1 a b c \x7f facts",
    "line 1 a b c \0 facts",
];
