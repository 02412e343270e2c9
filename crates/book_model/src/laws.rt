//! Laws of the definitions, each carried by a function that does nothing.
ghost use Rattle.std.specs.Prelude.{◌≡◌, ◌↔◌, ◌≤◌, ℤ, ℕ, suc, Bool, true, map, Some, IsTrue};
ghost use Rattle.exact_math.specs.Fraction.{Fraction, ◌≤F◌, plus, opposite, size, times, reciprocal, smaller, larger, power};
ghost use Rattle.exact_math.specs.Interval.{Interval, between, IsMember, one, minus_one, excludes_zero, sum, negative, product, quotient, power as power_of_all, minimum, maximum, hull, clamp, widen};
ghost use Rattle.exact_math.specs.Smallest.{IsSmallest, IsSmallestOfTwo, IsSmallestAround};
ghost use Rattle.exact_math.specs.Sums.{one_over};
ghost use Rattle.book_model.specs.numbers.Expressions.{Expression};
ghost use Rattle.book_model.specs.numbers.Series.{pi_at, sine_series, cosine_series, arctan_at};
ghost use Rattle.book_model.specs.numbers.Octants.{sine_of_degrees, cosine_of_degrees, tangent_of_degrees};
ghost use Rattle.book_model.specs.numbers.Roots.{IsGreatestRoot, IsLeastRoot, not_negative, root_low, root_high, root_of};
ghost use Rattle.book_model.specs.numbers.Arcs.{half, minus_half, arctan_series, arctangent_of, arcsine_of, arccosine_of, arctangent_of_two};
ghost use Rattle.book_model.specs.programs.Nesting.{ValuesNest, RunsNest, IsNested, IsNestedByDepth, IsNestedOfTwo, AreOctantsMet};
ghost use Rattle.book_model.specs.calendars.Gregorian.{year_of_day, IsYearOfDay};
ghost use Rattle.book_model.specs.programs.Programs.{Grid, CellsCut, bind, outcome, void_at};
ghost use Rattle.book_model.specs.sky.Correction.{corrections, year_of};
ghost use Rattle.book_model.specs.sky.Facts.{run_of};
ghost use Rattle.book_model.specs.sky.Kinds.{dt_of};
ghost use Rattle.book_model.specs.sky.Noon.{StartsNear};
ghost use Rattle.book_model.specs.sky.Older.{over_years, rows_in, has_correction, run_by, AreComposed, correction_by_version, dt_by_version};
ghost use Rattle.book_model.specs.sky.Time.{correction_at};
ghost use Rattle.book_model.specs.calendars.Dates.{row_of};
ghost use Rattle.book_model.specs.calendars.Inquiries.{Inquiry, facts_over, result_over};
ghost use Rattle.book_model.specs.calendars.Moving.{at_place, moved_fact};
ghost use Rattle.book_model.specs.calendars.Versions.{days_in, fact_days_in, header_line, version_named, kind_in, place_in, site_in};
ghost use Rattle.book_model.specs.lines.Reach.{reach_of, is_reached};
ghost use Rattle.book_model.specs.lines.Requests.{has_words, is_in_reach};
ghost use Rattle.book_model.specs.lines.Words.{from_word_of, to_word_of, text_of_from, text_of_to, from_words, to_words, are_distinct_words, named_by, shown_by};
ghost use Rattle.book_model.specs.sky.Names.{has_place, kind_name, kind_named, place_name, place_named, site_name, site_named};
ghost use Rattle.book_model.specs.declared.fact.Kind.{Kind};
ghost use Rattle.book_model.specs.declared.fact.Place.{Place};
ghost use Rattle.book_model.specs.declared.site.Site.{Site};
ghost use Rattle.book_model.specs.declared.site.Site.TheVariants.{Year};

use crate::{
    Calendar, FIRST_DAY, Fact, FromWord, LAST_DAY, Meaning, Request, ToWord, Version, WRITTEN,
};

/// Nesting: at a greater depth, with narrower arguments, each expression's value lies within its value here, and
/// each program makes the same tests as far as they are decided here, with the same answers.
#[tactic(auto, using(crate::proofs::Values::values_nest, crate::proofs::Nesting::runs_nest))]
pub fn nesting()
    ensures values { ValuesNest }
    ensures numbers { RunsNest ℤ }
    ensures tests { RunsNest Bool }
    ensures expressions { RunsNest Expression }
{}

/// A day falls in the year that begins at or before it, the next year beginning after it.
pub fn gregorian_years()
    ensures { (d : ℤ) → IsYearOfDay (year_of_day d) d }
{}

/// The cells of a test cut the line at their thresholds.
#[tactic(auto, using(crate::proofs::Cells::cells_cut))]
pub fn cells()
    ensures { (g : Grid) → CellsCut g }
{}

/// Nesting of the series: at a greater depth, and of a narrower interval of degrees, sine, cosine and tangent lie
/// within what they are here; and so does pi.
#[tactic(auto, using(crate::proofs::DegreeSines::sine_nests, crate::proofs::DegreeSines::cosine_nests, crate::proofs::DegreeSines::tangent_nests, crate::proofs::DegreeSines::pi_nests))]
pub fn series()
    ensures sine { IsNested sine_of_degrees }
    ensures cosine { IsNested cosine_of_degrees }
    ensures tangent { IsNested tangent_of_degrees }
    ensures pi { IsNestedByDepth pi_at }
{}

/// Nesting of the sums from which these are made: of the sine's and, from depth 1 on, the cosine's over an interval of
/// angles in radians, and of the arctangents of 1/2, 1/3 and so on, by whose values at 1/5 and 1/239 pi is defined.
#[tactic(auto, using(crate::proofs::DegreeSines::sine_series_nests, crate::proofs::DegreeSines::cosine_series_nests, crate::proofs::DegreeSines::arctan_nests))]
pub fn sums()
    ensures sine { IsNested sine_series }
    ensures cosine { IsNested (λ n. cosine_series (suc n)) }
    ensures arctangent { (k : ℕ) → 1 ≤ k → IsNestedByDepth (λ n. arctan_at n (one_over k)) }
{}

/// Nesting of roots and arcs: at a greater depth, and of narrower intervals, root, arctangent, arcsine, arccosine and the
/// arctangent of two numbers lie within what they are here; so does the series of the arctangent of each fraction from
/// -1/2 to 1/2. The arctangent of two numbers lies from -180 to 180.
#[tactic(auto, using(crate::proofs::Arcs::roots_nest, crate::proofs::Arcs::arctangents_nest, crate::proofs::Arcs::arcsines_nest, crate::proofs::Arcs::arccosines_nest, crate::proofs::Arcs::arctangents_of_two_nest, crate::proofs::ArcSeries::series_nests))]
pub fn arcs()
    ensures root { IsNested root_of }
    ensures series { (x : Fraction) → minus_half ≤F x → x ≤F half
        → IsNestedByDepth (λ n. arctan_series n x) }
    ensures arctangent { IsNested arctangent_of }
    ensures arcsine { IsNested arcsine_of }
    ensures arccosine { IsNested arccosine_of }
    ensures two { IsNestedOfTwo arctangent_of_two }
{}

/// The bounds of a root at depth n: of a number that is not negative, the greatest multiple of 2 to the power of minus
/// twice n whose square is at most that, and the least whose square is at least that. A negative number counts as 0.
pub fn roots()
    ensures low { (n : ℕ) (a : Fraction) → IsGreatestRoot n (not_negative a) (root_low n a) }
    ensures high { (n : ℕ) (a : Fraction) → IsLeastRoot n (not_negative a) (root_high n a) }
{}

/// Sums, products, opposites, minima, maxima, powers and hulls of intervals hold the results for all members, and those of
/// bounded intervals are the smallest that do. A quotient by an interval that keeps to one side of 0 holds them too, and so
/// does what is clamped and what is widened.
#[tactic(auto, using(exact_math::proofs::Intervals::sums_smallest, exact_math::proofs::Intervals::products_smallest, exact_math::proofs::Intervals::negatives_smallest, exact_math::proofs::Intervals::minima_smallest, exact_math::proofs::Intervals::maxima_smallest, exact_math::proofs::Intervals::powers_smallest, exact_math::proofs::Intervals::hulls_smallest, exact_math::proofs::Intervals::quotient_holds, exact_math::proofs::Intervals::clamp_holds, exact_math::proofs::Intervals::widen_holds))]
pub fn intervals()
    ensures sums { IsSmallestOfTwo plus sum }
    ensures products { IsSmallestOfTwo times product }
    ensures opposites { IsSmallest opposite negative }
    ensures minima { IsSmallestOfTwo smaller minimum }
    ensures maxima { IsSmallestOfTwo larger maximum }
    ensures powers { (k : ℕ) → IsSmallest (λ x. power x k) (λ i. power_of_all i k) }
    ensures hulls { IsSmallestAround hull }
    ensures quotients { (i : Interval) (c d x y : Fraction) → c ≤F d → excludes_zero c d ≡ true
        → IsMember x i → IsMember y (between c d) → IsMember (times x (reciprocal y))
        (quotient i (between c d)) }
    ensures clamped { (i : Interval) (x : Fraction) → IsMember x i
        → IsMember (larger minus_one (smaller x one)) (clamp i) }
    ensures widened { (e : Fraction) (i : Interval) (x y : Fraction) → IsMember x i
        → opposite (size e) ≤F y → y ≤F size e → IsMember (plus x y) (widen e i) }
{}

/// The octants over which a sine is a hull are those that the interval meets, and there is one.
#[tactic(auto, using(crate::proofs::DegreeSines::octants_met))]
pub fn octants()
    ensures { AreOctantsMet }
{}

/// A search by days from an estimate sets out near the day: what is estimated from the true noon of a day lies at most
/// 600 days before it and at most 2 after it, where its floor is decided.
#[tactic(auto, using(crate::proofs::Estimates::starts_near))]
pub fn starts()
    ensures { StartsNear }
{}

/// The word for a value is found as that value, and no table has a word twice. What a word names or shows that is no date is
/// the value of facts that there are.
#[tactic(auto, using(crate::proofs::WordTables::from_found, crate::proofs::WordTables::to_found, crate::proofs::WordTables::day_placed, crate::proofs::WordTables::value_placed))]
pub fn words()
    ensures from { (w : FromWord) → from_word_of (text_of_from w) ≡ Some w }
    ensures to { (w : ToWord) → to_word_of (text_of_to w) ≡ Some w }
    ensures distinct_from { IsTrue (are_distinct_words (map (λ row. row.1) from_words)) }
    ensures distinct_to { IsTrue (are_distinct_words (map (λ row. row.1) to_words)) }
    ensures named { (w : FromWord) (kind : Kind) (place : Place)
        → named_by w ≡ Meaning.Value kind place → IsTrue (has_place kind place) }
    ensures placed { (w : ToWord) (kind : Kind) (place : Place)
        → shown_by w ≡ Meaning.Value kind place → IsTrue (has_place kind place) }
{}

/// The row of a calendar is its own, and a date has at most five fields.
#[tactic(auto, using(crate::proofs::WordTables::own_row, crate::proofs::WordTables::few_fields))]
pub fn calendars()
    ensures own { (c : Calendar) → (row_of c).calendar ≡ c }
    ensures few { (c : Calendar) → (row_of c).count ≤ 5 }
{}

/// The name of each kind, place and site leads back to it.
#[tactic(auto, using(crate::proofs::NameLemmas::kind_found, crate::proofs::NameLemmas::place_found, crate::proofs::NameLemmas::site_found))]
pub fn names()
    ensures kinds { (k : Kind) → kind_named (kind_name k) ≡ Some k }
    ensures places { (p : Place) → place_named (place_name p) ≡ Some p }
    ensures sites { (s : Site) → site_named (site_name s) ≡ Some s }
{}

/// What a version names and answers, the version that is written does too; and it has each word, kind, place and site.
#[tactic(auto, using(crate::proofs::VersionTables::all_words, crate::proofs::VersionTables::all_kinds, crate::proofs::VersionTables::all_places, crate::proofs::VersionTables::all_sites))]
pub fn later_versions()
    ensures words { (r : Request) → IsTrue (has_words WRITTEN r) }
    ensures kinds { (k : Kind) → kind_in WRITTEN (kind_name k) ≡ Some k }
    ensures places { (p : Place) → place_in WRITTEN (place_name p) ≡ Some p }
    ensures sites { (s : Site) → site_in WRITTEN (site_name s) ≡ Some s }
    ensures days { (version : Version) (from : FromWord) (to : ToWord) (day : ℤ)
        → IsTrue (is_reached version from to day) → IsTrue (is_reached WRITTEN from to day) }
    ensures dates { (version : Version) (r : Request)
        → IsTrue (is_in_reach version r) → IsTrue (is_in_reach WRITTEN r) }
{}

/// A line with words that the first version has may name each day of its version.
#[tactic(auto, using(crate::proofs::VersionTables::first_reach))]
pub fn first_words()
    ensures { (version : Version) (r : Request) → IsTrue (has_words Version.One r)
        → reach_of version r.from r.to ≡ days_in version }
{}

/// The first line of a version's files leads back to the version.
#[tactic(auto, using(crate::proofs::VersionTables::header_found))]
pub fn headers()
    ensures { (version : Version) → version_named (header_line version) ≡ Some version }
{}

/// The run of a fact as a version had it, over its rows of ΔT and of its days of facts, is the run of the fact, where
/// it isn't void at the year: what a version had a value of has that value still, by the same tests.
#[tactic(auto, using(crate::proofs::Older::older_stays))]
pub fn older_runs()
    ensures { (version : Version) (n : ℕ) (f : Fact)
        → (outcome (run_by version n f) ≡ void_at Year → ⊥) → run_by version n f ≡ run_of n f }
{}

/// What a formula over some years alone is: made of the same parts, each over these years; and ΔT of a moment, and
/// that of a day's year, is by the rows that the version had. The version that is written has all rows and days.
#[tactic(auto, using(crate::proofs::Older::older_correction, crate::proofs::Older::older_dt, crate::proofs::Older::written_days, crate::proofs::Older::written_rows))]
pub fn older_formulas()
    ensures tests { (known : ℤ → Bool) → AreComposed known Bool }
    ensures numbers { (known : ℤ → Bool) → AreComposed known ℤ }
    ensures expressions { (known : ℤ → Bool) → AreComposed known Expression }
    ensures correction { (version : Version) (x : Expression)
        → over_years (has_correction version) (correction_at x)
        ≡ bind (year_of x) (λ y. correction_by_version version y) }
    ensures dt { (version : Version) (d : ℤ)
        → over_years (has_correction version) (dt_of d) ≡ dt_by_version version d }
    ensures days { fact_days_in WRITTEN ≡ (FIRST_DAY, LAST_DAY) }
    ensures rows { rows_in WRITTEN ≡ corrections }
{}

/// Moving to another place what an inquiry asks of the sky of Beijing: over each table of facts it has the result, and asks the
/// facts, that the inquiry itself has and asks, moved, over the table at the place.
#[tactic(auto, using(crate::proofs::Moving::moved_result, crate::proofs::Moving::moved_facts))]
pub fn moves<T>()
    ensures result { (place : Place) (i : Inquiry T) (table : Fact → ℤ)
        → result_over table (at_place place i) ≡ result_over (λ f. table (moved_fact place f)) i }
    ensures facts { (place : Place) (i : Inquiry T) (table : Fact → ℤ)
        → facts_over table (at_place place i)
        ≡ map (moved_fact place) (facts_over (λ f. table (moved_fact place f)) i) }
{}
