//! What a run may ask again.
ghost use Rattle.std.specs.Prelude.{◌<◌};

/// What a run may ask again, and a trail caches.
#[derive(Clone, Copy, PartialEq)]
pub enum Asked {
    /// The moment of the new moon of a number, counted from that of January of the year 1.
    NewMoon(i64),
    /// ΔT of a year.
    Correction(i64),
}

impl Asked {
    // A walk to the new moon before a moment names four or five of three neighbouring numbers (that about
    // the moment, those that it tries, and its answer): by three places each is evaluated once, where
    // one place for the last of them had two evaluated twice.
    /// Its place among the five of a trail. The new moon of number 0, which every walk asks first, has one of its own, and so has ΔT of
    /// the last year. The other new moons share three, by the remainder of their number by 3.
    pub(crate) fn place(self) -> usize
        ensures few { result < 5 }
    {
        match self {
            Asked::NewMoon(0) => 0,
            Asked::NewMoon(number) => 1 + number.rem_euclid(3) as usize,
            Asked::Correction(_) => 4,
        }
    }
}
