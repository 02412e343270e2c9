//! Facts with their values that are cached for the length of a call.
ghost use Rattle.std.specs.Prelude.{◌≡◌, ◌⊎◌, length, slice_set, Some};
ghost use Rattle.chinese_cal.specs.Keeping.{AreEmpty, kept_value};

use book_model::Fact;

// At most 129 facts for the date of a day, and 26 more for the day of a date. Were it full, the
// oracle would be asked again, which changes no answer.
/// How many facts are cached at most: one call asks fewer.
const MOST: usize = 160;

// So a call asks the oracle nothing twice. An array takes no memory from the system, and is looked
// through from its beginning.
/// Facts with their values, in order of first use, in places of which those behind the first so many hold nothing.
#[derive(Drop)]
pub(crate) struct Kept {
    pub(crate) places: [Option<(Fact, i64)>; MOST],
    pub(crate) count: usize,
}

/// The value beside a fact.
fn find(mut places: &[Option<(Fact, i64)>], fact: Fact) -> Option<i64>
    ensures found { result ≡ kept_value places.entry.now fact }
{
    while let [first, rest @ ..] = places {
        let Some((kept, value)) = first else {
            return None;
        };
        if *kept == fact {
            return Some(*value);
        }
        places = rest;
    }
    None
}

impl Kept {
    /// Nothing is cached.
    pub(crate) fn new() -> Kept
        ensures empty { AreEmpty result.places }
    {
        Kept {
            places: [None; MOST],
            count: 0,
        }
    }

    /// The value that is cached of a fact.
    pub(crate) fn find(&self, fact: Fact) -> Option<i64>
        ensures found { result ≡ kept_value self.now.places fact }
    {
        find(&self.places, fact)
    }

    /// Caches a fact with its value, where there is room.
    pub(crate) fn keep(&mut self, fact: Fact, value: i64)
        ensures kept { (self.new.places ≡
            slice_set self.old.places self.old.count (Some (fact, value)))
            ⊎ (self.new.places ≡ self.old.places) }
    {
        if self.count < MOST {
            self.places[self.count] = Some((fact, value));
            self.count += 1;
        }
    }
}
