//! A request that breaks no rule of a version by itself, with what was found when that was seen.
ghost use Rattle.std.specs.Prelude.{◌≡◌, IsTrue};
ghost use Rattle.book_model.specs.lines.Reach as reaches;
ghost use Rattle.book_model.specs.lines.Requests.{is_possible, is_in_reach};
ghost use Rattle.book_model.specs.lines.Words.{calendar_of};
ghost use Rattle.line_core.specs.Days as days;

use book_model::{Request, Version};

/// A request that breaks no rule of a version by itself. With it stand the day (R.D.) that its date names, where that is known
/// without any fact, and the first and the last day that its line may name: they are found where it is checked, and serve where
/// it is resolved.
#[derive(Clone, Copy)]
pub struct Checked {
    pub request: Request,
    pub version: Version,
    pub(crate) day: i64,
    pub(crate) reach: (i64, i64),
    ghost possible: { IsTrue (is_possible request) },
    ghost answered: { IsTrue (is_in_reach version request) },
    ghost known: { day ≡ days.known_day (calendar_of request.from) request.date },
    ghost reached: { reach ≡ reaches.reach_of version request.from request.to },
}
