//! Exact fractions as the tables and formulas give them.
ghost use Rattle.std.specs.Prelude.{◌≡◌, ◌↔◌, ℤ, ℕ, IfSome, IsNone};
ghost use Rattle.exact_math.specs.Fraction.{whole as whole_number};
ghost use Rattle.book_model.specs.numbers.Fractions.{fraction_of, ten_millionths as parts, daily_ten_millionths as daily_parts};

// A denominator of 0, which `new` refuses and no table has, is read as 1 by the definitions: so no
// invariant is needed, and tables stay plain constants.
/// An exact fraction, a whole number over a positive one. It isn't reduced.
#[derive(Clone, Copy, Debug, PartialEq, Eq)]
pub struct Frac {
    pub(crate) num: i128,
    pub(crate) den: u64,
}

impl Frac {
    /// The fraction `num / den`; `None` exactly where `den` is 0.
    #[inline(always)]
    pub fn new(num: i128, den: u64) -> Option<Frac>
        ensures none { IsNone result ↔ (den ≡ 0) }
        ensures num { IfSome result (λ f. f.num ≡ num) }
        ensures den { IfSome result (λ f. f.den ≡ den) }
    {
        if den == 0 {
            None
        } else {
            Some(Frac { num, den })
        }
    }

    /// A whole number.
    #[inline(always)]
    pub fn whole(number: i64) -> Self
        ensures value { fraction_of result ≡ whole_number number }
    {
        Frac {
            num: i128::from(number),
            den: 1,
        }
    }

    // Inlined, as all here: by a denominator that the compiler knows, a quotient is a
    // multiplication.
    /// So many ten-millionths.
    #[inline(always)]
    pub fn ten_millionths(number: i64) -> Self
        ensures value { fraction_of result ≡ parts number }
    {
        Frac {
            num: i128::from(number),
            den: 10_000_000,
        }
    }

    /// What so many ten-millionths a century of 36,525 days are a day.
    #[inline(always)]
    pub fn daily_ten_millionths(number: i64) -> Self
        ensures value { fraction_of result ≡ daily_parts number }
    {
        Frac {
            num: i128::from(number),
            den: 365_250_000_000,
        }
    }

    /// The numerator, as it was given.
    #[inline(always)]
    pub fn num(self) -> i128
        ensures { result ≡ self.num }
    {
        self.num
    }

    /// The denominator, as it was given.
    #[inline(always)]
    pub fn den(self) -> u64
        ensures { result ≡ self.den }
    {
        self.den
    }
}
