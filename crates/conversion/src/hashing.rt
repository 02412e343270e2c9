//! A hasher of facts by their rows and days, which leaves no group of a table more facts than it has room for.
ghost use Rattle.std.specs.Prelude.{◌≡◌, ◌<◌, ◌^◌, ◌%◌, get_or};
ghost use Rattle.conversion.specs.Hashing as spec;

use std::hash::{BuildHasher, Hasher};

// indexmap takes the low bits of a hash for the number of a group, which are fewer than these, and
// the highest eight for what it compares in a group.
/// What the place of a day among those of its group is multiplied by in a hash, to stand above the number of the group.
const ABOVE_GROUPS: u64 = 16_777_216;

// Kinds have one place, or two, three or four of these nine. So all rows have a bit in 128.
/// The number of the row of a kind and a place: one of four of the kind's, and another for each of the kind's places.
#[inline(always)]
#[tactic(auto, unfolding(crate::specs::Hashing::row_number))]
pub(crate) fn row_number(kind: u64, place: u64) -> u64
    ensures row { result ≡ spec.row_number kind place }
    ensures few { result < 128 }
{
    kind % 32 * 4 + (place % 16 + place % 16 / 5) % 4
}

/// How many of the rows that are used, a bit for each, have a lesser number.
#[inline(always)]
#[tactic(auto, unfolding(crate::specs::Hashing::rank_of))]
fn rank_of(rows: u128, row: u64) -> u64
    requires few { row < 128 }
    ensures rank { result ≡ spec.rank_of rows row }
{
    u64::from((rows & ((1u128 << row) - 1)).count_ones())
}

/// How many numbers have so many bits.
#[inline(always)]
fn power_of_two(bits: u32) -> u64
    requires few { bits < 64 }
    ensures power { result ≡ 2 ^ bits }
    ensures some { 0 < result }
{
    1 << bits
}

/// The hash of a day, of a row that comes behind so many others that are used: the day's group among those of its row, which are
/// as many as numbers of so many bits, and its place among the days of that group.
#[inline(always)]
#[tactic(auto, unfolding(crate::specs::Hashing::day_hash))]
fn day_hash(rank: u64, bits: u32, day: u64) -> u64
    requires few { bits < 64 }
    ensures hash { result ≡ spec.day_hash rank bits day }
{
    let groups = power_of_two(bits);
    rank << bits | day % groups | (day / groups % 16 + 1) * ABOVE_GROUPS
}

/// A byte, or 0 where there is none.
#[inline(always)]
fn byte_at(bytes: &[u8], at: usize) -> u64
    ensures byte { result ≡ get_or bytes.now at 0 }
    ensures few { result < 256 }
{
    match bytes.get(at) {
        Some(byte) => u64::from(*byte),
        None => 0,
    }
}

/// The number of the first three bytes, the lowest first.
#[inline(always)]
#[tactic(auto, unfolding(crate::specs::Hashing::low_number))]
fn low_number(bytes: &[u8]) -> u64
    ensures number { result ≡ spec.low_number bytes.now }
{
    byte_at(bytes, 0) + 256 * byte_at(bytes, 1) + 65_536 * byte_at(bytes, 2)
}

/// Hashes facts by the rows that are used, a bit for each, and the number of bits for the groups of a row.
#[derive(Clone, Copy)]
pub(crate) struct RowHashing {
    pub(crate) rows: u128,
    pub(crate) bits: u32,
}

// A derived hash of a fact writes three numbers.
/// The last three numbers that were written: of a fact its kind, its place and its day.
#[derive(Clone, Copy)]
pub(crate) struct RowHasher {
    hashing: RowHashing,
    kind: u64,
    place: u64,
    day: u64,
}

impl Hasher for RowHasher {
    ghost write = { λ h bytes. record h { kind = h.place; place = h.day; day = spec.low_number bytes } };

    ghost finish = { λ h. spec.day_hash (spec.rank_of h.hashing.rows (spec.row_number h.kind h.place)) (h.hashing.bits % 64) h.day };

    #[inline(always)]
    fn finish(&self) -> u64 {
        let rank = rank_of(self.hashing.rows, row_number(self.kind, self.place));
        day_hash(rank, self.hashing.bits % 64, self.day)
    }

    #[inline(always)]
    fn write(&mut self, bytes: &[u8]) {
        self.kind = self.place;
        self.place = self.day;
        self.day = low_number(bytes);
    }
}

impl BuildHasher for RowHashing {
    type Hasher = RowHasher;

    ghost build_hasher = { λ b. record { hashing = b; kind = 0; place = 0; day = 0 } };

    #[inline(always)]
    fn build_hasher(&self) -> RowHasher {
        RowHasher {
            hashing: *self,
            kind: 0,
            place: 0,
            day: 0,
        }
    }
}
