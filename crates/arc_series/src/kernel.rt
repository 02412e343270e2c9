//! The arctangent of a number from 0 to 1/2, in 64 bits.
//!
//! All numbers are in units of 2⁻⁶⁴. The coefficients are 1 over an odd number, rounded down, and Horner's form takes them from the
//! inside out. A step makes an error of at most 4 into one of at most 4: the square of a number is at most 1/4, which leaves 1
//! of it, and the roundings of the coefficient, of the square and of the product add at most 1 each.
//!
//! 29 terms leave out less than two parts of 2⁻⁶⁴, so that an arctangent is four parts of 2⁻⁵⁶ wide; 26 would leave out
//! 39, which are nine of 2⁻⁵⁶, and three products more are cheap. The steps are written out and inlined: no loop, no table, no
//! bounds checks.
ghost use Rattle.std.specs.Prelude.{◌≤◌, ◌*◌, ◌^◌, ℕ, pos, neg_ℤ, ◌*ℤ◌, ◌+ℤ◌, ◌≤ℤ◌};
ghost use Rattle.book_model.specs.Fraction.{Fraction, plus, opposite, times};
ghost use Rattle.book_model.specs.Interval.{between, ◌⊆◌};
ghost use Rattle.book_model.specs.Sums.{one_over};
ghost use Rattle.book_model.specs.programs.Leading.{units_of_56};
ghost use Rattle.book_model.specs.numbers.Arcs.{arc_near};
ghost use Rattle.book_model.specs.numbers.Depth.{DEPTH};
ghost use Rattle.encl_core.specs.Units.{IsWithinUnits};
ghost use Rattle.arc_series.specs.Kernel.{IsCut, IsSquare, IsNumber, IsArc, IsSmall, nested};
ghost use Rattle.arc_series.specs.Widths.{IsThin};

use encl_core::{Span, high_half};

/// The degrees of a radian, in units of 2⁻⁵⁸, rounded down.
const DEGREES: u64 = 16_514_384_080_961_256_899;

// Not the sine's step, whose clause speaks of angles that are known to 68 parts and of squares that
// are to 112: those would move an endpoint by some fifty parts of 2⁻⁵⁶.
/// One step of Horner's form: 1 over an odd number less a square times what stands further in.
#[inline(always)]
fn step(coefficient: u64, square: u64, inner: u64) -> u64
    requires falling { inner ≤ coefficient }
    requires half { 2 * inner ≤ 2 ^ 64 }
    ensures near { (d : ℕ) (u v : Fraction) → IsCut coefficient d → IsSquare square u
        → IsWithinUnits 4 inner v
        → IsWithinUnits 4 result (plus (one_over d) (opposite (times u v))) }
    ensures below { result ≤ coefficient }
{
    coefficient - high_half(square, inner)
}

/// 1/29 less a square times what follows, to 1/57.
#[inline(always)]
fn inner_terms(square: u64) -> u64
    ensures near { (u : Fraction) → IsSquare square u → IsWithinUnits 4 result (nested u 28 14) }
    ensures below { result ≤ 636094623231363848 }
{
    let over_55 = step(335_395_346_794_719_120, square, 323_627_089_012_448_273);
    let over_53 = step(348_051_774_975_651_917, square, over_55);
    let over_51 = step(361_700_864_190_383_365, square, over_53);
    let over_49 = step(376_464_164_769_582_686, square, over_51);
    let over_47 = step(392_483_916_461_905_353, square, over_49);
    let over_45 = step(409_927_646_082_434_480, square, over_47);
    let over_43 = step(428_994_048_225_803_525, square, over_45);
    let over_41 = step(449_920_587_163_647_600, square, over_43);
    let over_39 = step(472_993_437_787_424_400, square, over_41);
    let over_37 = step(498_560_650_640_798_692, square, over_39);
    let over_35 = step(527_049_830_677_415_760, square, over_37);
    let over_33 = step(558_992_244_657_865_200, square, over_35);
    let over_31 = step(595_056_260_442_243_600, square, over_33);
    step(636_094_623_231_363_848, square, over_31)
}

/// 1 less a square times what follows, to 1/57: the series of the arctangent over its number, up to the 29th term.
#[inline(always)]
fn terms(square: u64) -> u64
    ensures near { (u : Fraction) → IsSquare square u → IsWithinUnits 4 result (nested u 0 28) }
    ensures below { result ≤ 18446744073709551615 }
{
    let over_29 = inner_terms(square);
    let over_27 = step(683_212_743_470_724_133, square, over_29);
    let over_25 = step(737_869_762_948_382_064, square, over_27);
    let over_23 = step(802_032_351_030_850_070, square, over_25);
    let over_21 = step(878_416_384_462_359_600, square, over_23);
    let over_19 = step(970_881_267_037_344_821, square, over_21);
    let over_17 = step(1_085_102_592_571_150_095, square, over_19);
    let over_15 = step(1_229_782_938_247_303_441, square, over_17);
    let over_13 = step(1_418_980_313_362_273_201, square, over_15);
    let over_11 = step(1_676_976_733_973_595_601, square, over_13);
    let over_9 = step(2_049_638_230_412_172_401, square, over_11);
    let over_7 = step(2_635_249_153_387_078_802, square, over_9);
    let over_5 = step(3_689_348_814_741_910_323, square, over_7);
    let over_3 = step(6_148_914_691_236_517_205, square, over_5);
    step(18_446_744_073_709_551_615, square, over_3)
}

/// What lies from 4 parts of 2⁻⁵⁸ below a number that counts these to 9 parts above it.
#[inline(always)]
fn span_around(count: u64) -> Span
    ensures low { (result.lo *ℤ pos 4 +ℤ pos 4) ≤ℤ pos count }
    ensures high { (pos count +ℤ pos 9) ≤ℤ (result.hi *ℤ pos 4) }
    ensures tight { IsArc result.lo result.hi }
    ensures thin { IsThin result.lo result.hi }
    ensures room { IsSmall result.lo result.hi }
{
    let floor = i128::from(count >> 2);
    Span {
        lo: floor - 1,
        hi: floor + 3,
    }
}

/// The arctangent, in degrees, of each number that is at most 2⁻⁶⁴ greater than so many of these, and at most a half: 29
/// terms of the series, and what these leave out, which is less than 2 parts of 2⁻⁶⁴.
#[inline(always)]
pub(crate) fn arc_of_number_64(number: u64) -> Span
    requires half { number ≤ 2 ^ 63 }
    ensures holds { (n : ℕ) (x : Fraction) → DEPTH ≤ n → IsNumber number x → arc_near n x ⊆ between
        (units_of_56 result.lo) (units_of_56 result.hi) }
    ensures mirrored { (n : ℕ) (x : Fraction) → DEPTH ≤ n → 1 ≤ number
        → IsNumber number (opposite x)
        → arc_near n x ⊆ between (units_of_56 (neg_ℤ result.hi)) (units_of_56 (neg_ℤ result.lo)) }
    ensures tight { IsArc result.lo result.hi }
    ensures thin { IsThin result.lo result.hi }
    ensures room { IsSmall result.lo result.hi }
{
    let sum = terms(high_half(number, number));
    let radians = high_half(number, sum);
    span_around(high_half(radians, DEGREES))
}
