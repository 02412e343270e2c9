//! Months of a sui, in an array of fixed size.
ghost use Rattle.std.specs.Prelude.{◌≡◌, ◌<◌, ◌≤◌, ℤ, List, [], ◌∷◌, All, drop, length};
ghost use Rattle.chinese_cal.specs.Days.{IsNearDay};

use std::marker::Model;

// The definition's recursion makes at most so many calls, the outermost counted as the first, so that it ends over
// tables of false facts too.
/// How many months there may be: a sui has thirteen at most.
pub(crate) const MOST_MONTHS: usize = 15;

/// Months by the days on which they begin, the earliest first, in the places from one on. Contracts see them as a list.
#[derive(Drop)]
pub(crate) struct Months {
    days: [i64; MOST_MONTHS],
    from: usize,
}

impl Model for Months {
    ghost Value = { List ℤ };

    ghost view = { λ m. drop m.from m.days };

    ghost invariant = { λ m. (m.from ≤ 15) × All IsNearDay (drop m.from m.days) };
}

impl Months {
    /// No months.
    pub(crate) fn new() -> Self
        ensures empty { result ≡ [] }
    {
        Months {
            days: [0; MOST_MONTHS],
            from: MOST_MONTHS,
        }
    }

    /// These months, and one before them.
    pub(crate) fn with_earlier(self, month: i64) -> Self
        requires room { length self < 15 }
        requires near { IsNearDay month }
        ensures months { result ≡ month ∷ self }
    {
        let mut months = self;
        months.from -= 1;
        months.days[months.from] = month;
        months
    }

    /// The months as a slice.
    pub(crate) fn days(&self) -> &[i64]
        ensures days { result.now ≡ self.now }
        ensures near { All IsNearDay result.now }
    {
        &self.days[self.from..]
    }
}
