//! Laws of the definitions, each carried by a function that does nothing.
ghost use Rattle.std.specs.Prelude.{◌≡◌, ℕ, Ok};
ghost use Rattle.book_model.specs.calendars.Versions.{IsAlmanacYear};
ghost use Rattle.book_model.specs.declared.version.TheConstants.{WRITTEN};
ghost use Rattle.book_model.specs.lines.Requests.{AreSpelled, checked_request};
ghost use Rattle.almanac_core.specs.Almanac.{almanac_requests};
ghost use Rattle.almanac_core.specs.East.{east_requests};
ghost use Rattle.almanac_core.specs.Sample.{sample_line_of, sample_requests};

/// Lines can spell the requests of each almanac, of each year in the eastern calendars and of each sample: a date is as many numbers as its calendar has fields,
/// each of at most seven digits.
#[tactic(auto, using(crate::proofs::SpelledRequests::almanac_spelled, crate::proofs::SpelledRequests::east_spelled, crate::proofs::SpelledRequests::sample_spelled))]
pub fn spelled()
    ensures almanac { (year : ℕ) → IsAlmanacYear year → AreSpelled (almanac_requests year) }
    ensures east { (year : ℕ) → IsAlmanacYear year → AreSpelled (east_requests year) }
    ensures sample { (count seed : ℕ) → AreSpelled (sample_requests count seed) }
{}

/// No request of a sample breaks a rule of the version that is written.
#[tactic(auto, using(crate::proofs::SampleDays::sample_checked))]
pub fn sample_asks()
    ensures asks { (state index : ℕ) → checked_request WRITTEN (sample_line_of state index)
        ≡ Ok (sample_line_of state index) }
{}
