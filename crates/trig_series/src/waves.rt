//! The sine and the cosine as series of one form, whose coefficients are a row of a table.
//!
//! An angle's octant says which of the two is asked, and the octants of the rows of a sum follow no pattern: a branch on them is
//! foreseen half of the time, and costs as much as eight terms when it isn't. So the row is read by its number, and one line of
//! multiplications serves both.
ghost use Rattle.std.specs.Prelude.{◌≡◌};
ghost use Rattle.trig_series.specs.declared.waves.TheConstants.{COSINE, SINE};
ghost use Rattle.trig_series.specs.Kernel.{AreGrowing};
ghost use Rattle.trig_series.specs.declared.waves.Wave.TheVariants.{Cosine, Sine};

/// Which series is asked of an angle.
#[derive(Clone, Copy)]
pub enum Wave {
    Sine,
    Cosine,
}

/// The coefficients of a series in the square of an angle, without their signs, in units of 2⁻⁶⁴: each is 1 / n! rounded down, of that of
/// the greatest power on. They grow from there (`AreGrowing`), so that a step of Horner's form is never negative.
#[derive(Clone, Copy)]
pub struct Coefficients {
    pub ninth: u64,
    pub eighth: u64,
    pub seventh: u64,
    pub sixth: u64,
    pub fifth: u64,
    pub fourth: u64,
    pub third: u64,
    pub second: u64,
    pub first: u64,
    pub constant: u64,
}

/// 1 / (2 k + 1)!, from 1 on. The ninth, of 151 units, is left out: times so great a power of a square of at most 16/25 it is below 3.
pub const SINE: Coefficients = Coefficients {
    ninth: 0,
    eighth: 51_862,
    seventh: 14_106_527,
    sixth: 2_962_370_717,
    fifth: 462_129_831_893,
    fourth: 50_834_281_508_238,
    third: 3_660_068_268_593_165,
    second: 153_722_867_280_912_930,
    first: 3_074_457_345_618_258_602,
    constant: 18_446_744_073_709_551_615,
};

/// 1 / (2 k)!, from 1 on.
pub const COSINE: Coefficients = Coefficients {
    ninth: 2_881,
    eighth: 881_657,
    seventh: 211_597_908,
    sixth: 38_510_819_324,
    fifth: 5_083_428_150_823,
    fourth: 457_508_533_574_145,
    third: 25_620_477_880_152_155,
    second: 768_614_336_404_564_650,
    first: 9_223_372_036_854_775_808,
    constant: 18_446_744_073_709_551_615,
};

// A static: of a constant that is indexed the compiler makes a choice of two numbers for each coefficient, and of a static one of two
// places for all.
/// The rows, by the wave's number.
static SERIES: [Coefficients; 2] = [SINE, COSINE];

impl Wave {
    /// The coefficients of the wave's series.
    #[inline(always)]
    pub fn coefficients(self) -> &'static Coefficients
        ensures sine { self ≡ Sine → result.now ≡ SINE }
        ensures cosine { self ≡ Cosine → result.now ≡ COSINE }
        ensures growing { AreGrowing result.now }
    {
        &SERIES[self as usize]
    }
}
