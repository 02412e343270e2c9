//! Which facts the outcomes of a text list, and how a table of them is made.
ghost use Rattle.std.specs.Prelude.{◌≤◌};

use crate::hashing::{RowHashing, row_number};
use book_model::{FIRST_DAY, Fact, LAST_DAY};
use jobs_core::{LineFacts, Outcome};

/// Where so few facts are listed, a table grows by itself.
const FEW: usize = 1024;

/// How many slots a group of indexmap's table has, and how many of them may be taken, on average over the groups.
const GROUP_SLOTS: u64 = 12;

const GROUP_LOAD: usize = 9;

/// So many bits have the numbers of a row's groups at most: a group for each twelfth of the days of which facts may have a value.
const MOST_BITS: u32 = 14;

// A stranger chooses the facts of a text, by the days of the lines that `convert` is given. The table
// goes on from a full group to the next, and where the hash is known facts can be chosen that begin
// in few groups side by side: of 20,000 such a look-up went through 814 groups on the average. Here
// no choice overfills a group. Each row that is used has 2^bits groups of its own. Of n days that
// follow one another at most n / 2^bits, rounded up, leave one remainder by 2^bits, and the days from
// the first that is listed to the last are 12 * 2^bits at most: so a group's 12 slots are enough. The
// facts that have a value stand on 164,178 days, and 12 * 2^14 is 196,608. Where the table grows, the
// group of a fact stays the same. Of 1,024 facts, in a table that grew by itself, a look-up goes
// through 1,024 / 12 groups at most, 86.
/// Which facts the outcomes of a text list: how many, those that are listed again among them, their rows, a bit for each, and
/// their first and last day. A table by these has room for all facts of these rows between these days, a group for each twelve.
#[derive(Clone, Copy)]
pub(crate) struct ListedFacts {
    count: usize,
    rows: u128,
    first: i64,
    last: i64,
}

/// How many bits the numbers of a row's groups have, where its first and last days are so far apart.
fn group_bits(apart: u64) -> u32
    ensures few { result ≤ MOST_BITS }
{
    for bits in 0..MOST_BITS {
        if apart < GROUP_SLOTS << bits {
            return bits;
        }
    }
    MOST_BITS
}

impl ListedFacts {
    /// Adds a fact.
    fn add(&mut self, fact: Fact) {
        self.count = self.count.saturating_add(1);
        self.rows |= 1u128 << row_number(fact.kind().number() as u64, fact.place().number() as u64);
        self.first = self.first.min(fact.day());
        self.last = self.last.max(fact.day());
    }

    /// Adds facts.
    fn add_all(&mut self, facts: &LineFacts) {
        for index in 0..facts.len() {
            self.add(facts.pair(index).0);
        }
    }

    /// The facts that outcomes list.
    pub(crate) fn of(outcomes: &[Outcome]) -> ListedFacts {
        let mut listed = ListedFacts {
            count: 0,
            rows: 0,
            first: LAST_DAY,
            last: FIRST_DAY,
        };
        for outcome in outcomes.iter() {
            match outcome {
                Outcome::Found(finding) => listed.add_all(&finding.facts),
                Outcome::Shown(shown) => listed.add(shown.entry().0),
                Outcome::Refused(_) | Outcome::Halted(_) => {}
            }
        }
        listed
    }

    /// How many bits the numbers of a row's groups have.
    fn bits(self) -> u32
        ensures few { result ≤ MOST_BITS }
    {
        group_bits(self.last.abs_diff(self.first))
    }

    /// For how many facts a table is to have room, so that it has all groups from the beginning.
    pub(crate) fn room(self) -> usize {
        if self.count <= FEW {
            return 0;
        }
        let groups = (self.rows.count_ones() as usize) << self.bits();
        groups.saturating_mul(GROUP_LOAD)
    }

    /// By what such a table hashes.
    pub(crate) fn hashing(self) -> RowHashing {
        RowHashing {
            rows: self.rows,
            bits: self.bits(),
        }
    }
}
