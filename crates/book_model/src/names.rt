//! Values that are looked up by their names.
ghost use lib.Pointwise.{pointwise};
ghost use Rattle.std.specs.Prelude.{◌≡◌, ◌<◌, [], length, map, nat_eq, slice_index_or};
ghost use Rattle.book_model.specs.declared.version.Version.TheVariants.{One};
ghost use Rattle.book_model.specs.sky.Names.{first_named as first_of};

use crate::Version;

/// Whether a word is a name. Of most names of a table the length alone tells that it isn't: it is compared here, since the
/// comparison of bytes is a call.
#[inline(always)]
#[tactic(auto, using(crate::proofs::NameLengths::other_length))]
fn is_name(word: &[u8], name: &str) -> bool
    ensures { result ≡ pointwise nat_eq word.now name.now }
{
    word.len() == name.len() && word == name.as_bytes()
}

/// The first value of the rows that has this name.
pub(crate) fn first_named<T: Copy>(mut rows: &[(T, &str)], word: &[u8]) -> Option<T>
    ensures { result ≡ first_of (map (λ row. (row.0, row.1.now)) rows.entry.now) word.now }
{
    while let [row, rest @ ..] = rows {
        if is_name(word, row.1) {
            return Some(row.0);
        }
        rows = rest;
    }
    None
}

/// The same, where a row holds more.
pub(crate) fn first_row_named<T: Copy, W>(mut rows: &[(T, &str, W)], word: &[u8]) -> Option<T>
    ensures { result ≡ first_of (map (λ row. (row.0, row.1.now)) rows.entry.now) word.now }
{
    while let [first, rest @ ..] = rows {
        if is_name(word, first.1) {
            return Some(first.0);
        }
        rows = rest;
    }
    None
}

/// The name in the row at a place.
pub(crate) fn name_at<T, W>(rows: &[(T, &'static str, W)], place: usize) -> &'static str
    requires within { place < length rows.now }
    ensures { result.now ≡ slice_index_or (map (λ row. row.1.now) rows.now) place [] }
{
    rows[place].1
}

/// The list in the row at a place.
pub(crate) fn list_at<T, N, U, V, W>(
    rows: &[(T, N, (&'static [U], V, W))],
    place: usize,
) -> &'static [U]
    requires within { place < length rows.now }
    ensures { result.now ≡ slice_index_or (map (λ row. row.2.0.now) rows.now) place [] }
{
    rows[place].2.0
}

/// The first version of certificates that has what is in the row at a place.
pub(crate) fn since_at<T, N, U, V>(rows: &[(T, N, (U, V, Version))], place: usize) -> Version
    requires within { place < length rows.now }
    ensures { result ≡ slice_index_or (map (λ row. row.2.2) rows.now) place One }
{
    rows[place].2.2
}
