//! The trait of all kinds of enclosures.
ghost use Rattle.book_model.specs.programs.Calls.{Encloses, Encloses1, Encloses2};
ghost use Rattle.std.specs.Prelude.{◌≡◌, ◌<◌, ℕ, ℤ, Some, IfOk, IfErr, IfSome, IsSome, IsNone};
ghost use Rattle.book_model.specs.Fraction.{whole as whole_number};
ghost use Rattle.book_model.specs.Interval.{Interval, everything, between, ◌⊆◌, IsProper, hull as hull_of_intervals};
ghost use Rattle.book_model.specs.numbers.Fractions.{fraction_of, ten_millionths, daily_ten_millionths};
ghost use Rattle.book_model.specs.numbers.Expressions.{Expression, World, integer, constant, add as add_of, subtract, multiply, negate, scale, minimum, maximum, hull as hull_of, widen as widen_of, divide, power, root as root_of, clamp as clamp_of, remainder};
ghost use Rattle.book_model.specs.numbers.Bounds.{Bound, Reach, IsNarrow, spanned_bound, limits_of};
ghost use Rattle.book_model.specs.numbers.Relations.{Within, Narrow};
ghost use Rattle.book_model.specs.programs.Programs.{integers, multiples, cell_at, compare_at};
ghost use Rattle.book_model.specs.programs.Leading.{units_of_56, IsUndecidedCell, IsUndecidedComparison, next_turn};
ghost use Rattle.book_model.specs.numbers.Depth.{DEPTH as LEAST_DEPTH};
ghost use Rattle.encl_core.specs.Steps.{IsUndecidedPeriod};

use crate::{Span, Trail};
use book_model::{Frac, Site, Undecided};

/// What the code knows of a number: that it lies in the interval that an enclosure shows.
///
/// Every operation has two clauses of one form. `holds`: where the arguments hold the values of expressions, in
/// a world of depth 40 or more, the result holds the value of the operation's expression. `narrow`: where the
/// arguments keep the bounds of expressions, the result keeps the bound of the operation's. A kind of enclosure
/// must meet both, and formulas are proved from them alone.
pub trait Enclosure: Copy + Drop {
    /// The interval that an enclosure shows.
    ghost shown: { Self → Interval };

    /// The endpoints of that interval are in order.
    ghost proper: { (e : Self) → IsProper (shown e) };

    /// The scale is 2 to the power of minus this.
    ghost BITS: { ℕ };

    /// The depth from which on the answers hold.
    ghost DEPTH: { ℕ };

    /// That depth is the same for every kind.
    ghost depth_law: { DEPTH ≡ LEAST_DEPTH };

    /// The scale is 2 to the power of minus this.
    const BITS: u32;

    /// The depth from which on the answers hold.
    const DEPTH: u32;

    /// The enclosure of every number.
    fn whole() -> Self
        ensures all { shown result ≡ everything };

    /// The enclosure of a whole number.
    fn from_int(value: i64) -> Self
        ensures encloses { Encloses shown BITS (integer value) result };

    // At most one unit wide beyond the fraction, so that a half is a plain constant.
    /// The enclosure of a fraction.
    fn from_frac(value: Frac) -> Self
        ensures encloses { Encloses shown BITS (constant (fraction_of value)) result };

    /// The enclosure of what lies between two endpoints. It is at most two units wider than these are apart.
    fn from_span(span: Span) -> Self
        ensures holds { between (units_of_56 span.lo) (units_of_56 span.hi) ⊆ shown result }
        ensures narrow { (w : ℕ) (b : Bound) → IsNarrow w b
            (between (units_of_56 span.lo) (units_of_56 span.hi)) → IsNarrow w
            (spanned_bound (limits_of BITS) b) (shown result) };

    /// The sums of the members.
    fn add(self, other: Self) -> Self
        ensures encloses { Encloses2 shown BITS add_of self other result };

    /// The differences of the members.
    fn sub(self, other: Self) -> Self
        ensures encloses { Encloses2 shown BITS subtract self other result };

    /// The products of the members.
    fn mul(self, other: Self) -> Self
        ensures encloses { Encloses2 shown BITS multiply self other result };

    /// The lesser of each two members.
    fn min(self, other: Self) -> Self
        ensures encloses { Encloses2 shown BITS minimum self other result };

    // No operation gives a size: it is the greater of a number and its opposite, here and in the
    // definitions.
    /// The greater of each two members.
    fn max(self, other: Self) -> Self
        ensures encloses { Encloses2 shown BITS maximum self other result };

    /// Every number between members of the two, and no others.
    fn hull(self, other: Self) -> Self
        ensures encloses { Encloses2 shown BITS hull_of self other result }
        ensures tight { shown result ⊆ hull_of_intervals (shown self) (shown other) };

    /// The opposites of the members.
    fn neg(self) -> Self
        ensures encloses { Encloses1 shown BITS negate self result };

    /// The numbers that are no further from a member than the size of a fraction.
    fn widen(self, by: Frac) -> Self
        ensures encloses { Encloses1 shown BITS (widen_of (fraction_of by)) self result };

    /// The products of the members with a fraction.
    fn mul_frac(self, by: Frac) -> Self
        ensures encloses { Encloses1 shown BITS (scale (fraction_of by)) self result };

    // This one and the next have default bodies by the other operations, and so serve every kind; a
    // kind may take fewer roundings.
    /// The products of the members with a whole number.
    #[inline(always)]
    fn times(self, by: i64) -> Self
        ensures encloses { Encloses1 shown BITS (scale (whole_number by)) self result }
    {
        self.mul_frac(Frac::whole(by))
    }

    /// The angle of a periodic term: its phase, and its rate times the members, which are days. The phase is in
    /// ten-millionths, the rate in ten-millionths a century. So the rounding of centuries isn't multiplied by a rate.
    #[inline(always)]
    fn angle(self, phase: i64, rate: i64) -> Self
        ensures encloses { Encloses1 shown BITS (λ x. add_of (constant (ten_millionths phase))
            (scale (daily_ten_millionths rate) x)) self result }
    {
        let turned = self.mul_frac(Frac::daily_ten_millionths(rate));
        Self::from_frac(Frac::ten_millionths(phase)).add(turned)
    }

    /// The quotients of the members; every number, where the divisor may be 0.
    fn div(self, other: Self) -> Self
        ensures encloses { Encloses2 shown BITS divide self other result };

    /// The squares of the members.
    fn square(self) -> Self
        ensures encloses { Encloses1 shown BITS (λ x. power x 2) self result };

    /// The roots of the members. A negative endpoint counts as 0.
    fn root(self) -> Self
        ensures encloses { Encloses1 shown BITS root_of self result };

    /// The members, each endpoint moved into -1..1; all of -1..1, where nothing is known.
    fn clamp_unit(self) -> Self
        ensures encloses { Encloses1 shown BITS clamp_of self result };

    // A formula that is evaluated at points, as a sine at the endpoints of its degrees, takes endpoints and
    // gives endpoints back by `from_span`: so it is the same for every kind.
    /// The endpoints, at one scale for every kind; `None` for every number.
    fn span(self) -> Option<Span>
        ensures holds { IfSome result (λ s. shown self ⊆ between (units_of_56 s.lo)
            (units_of_56 s.hi)) }
        ensures tight { IfSome result (λ s. between (units_of_56 s.lo) (units_of_56 s.hi)
            ⊆ shown self) }
        ensures none { IsNone result → shown self ≡ everything };

    // Two kinds of tests: a cell has a whole number for its answer, a comparison a truth value. The
    // clause `undecided` holds the endpoints at which it is undecided, so that giving up at once is no way
    // out.
    /// Whether each member is below each of the other, where that is so of all or of none. The test counts in the
    /// trail. `Undecided` comes exactly where it is so of some.
    fn less(self, other: Self, site: Site, trail: &mut Trail) -> Result<bool, Undecided>
        ensures decided { IfOk result (λ t. compare_at (shown self) (shown other) ≡ Some t) }
        ensures undecided { IfErr result (λ u. IsUndecidedComparison (shown self)
            (shown other) u.lo u.hi) }
        ensures named { IfErr result (λ u. (u.site ≡ site) × (u.turn ≡ next_turn trail.old.count)) }
        ensures counted { trail.new.count ≡ next_turn trail.old.count };

    /// The greatest whole number that is not above the members, where they all have the same. The test counts
    /// in the trail. `Undecided` comes exactly where they don't, and for a number outside 64 bits.
    fn floor(self, site: Site, trail: &mut Trail) -> Result<i64, Undecided>
        ensures decided { IfOk result (λ q. cell_at integers (shown self) ≡ Some q) }
        ensures undecided { IfErr result (λ u. IsUndecidedCell integers (shown self) u.lo u.hi) }
        ensures named { IfErr result (λ u. (u.site ≡ site) × (u.turn ≡ next_turn trail.old.count)) }
        ensures counted { trail.new.count ≡ next_turn trail.old.count };

    /// What the members are above the greatest multiple of the modulus that is not above them, where that is the
    /// same for all. The test counts in the trail. `Undecided` comes exactly where it isn't: where the endpoints lie
    /// in different periods, or nothing is known.
    fn wrap(self, modulus: u32, site: Site, trail: &mut Trail) -> Result<Self, Undecided>
        requires { 0 < modulus }
        ensures decided { IfOk result (λ y. IsSome (cell_at (multiples modulus) (shown self))) }
        ensures holds { IfOk result (λ y. (q : ℤ) (w : World) (x : Expression)
            → cell_at (multiples modulus) (shown self) ≡ Some q → Within shown w x self
            → Within shown w (remainder modulus x q) y) }
        ensures narrow { IfOk result (λ y. (q : ℤ) (r : Reach) (x : Expression)
            → Narrow shown (limits_of BITS) r x self → Narrow shown (limits_of BITS) r
            (remainder modulus x q) y) }
        ensures undecided { IfErr result (λ u. IsUndecidedPeriod modulus (shown self) u.lo u.hi) }
        ensures named { IfErr result (λ u. (u.site ≡ site) × (u.turn ≡ next_turn trail.old.count)) }
        ensures counted { trail.new.count ≡ next_turn trail.old.count };
}
