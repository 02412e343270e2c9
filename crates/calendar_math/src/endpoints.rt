//! The nearest number of a type.
ghost use Rattle.std.specs.Prelude.{◌≡◌, pos};
ghost use Rattle.book_model.specs.calendars.Inquiries.{to_8_bits as nearest_of_8, to_32_bits as nearest_of_32};

// Fields that don't fit are clamped to the nearest bound: so the date of a day is defined over every
// table of values, also a false one, over which `check` runs the rule. Over true values each field fits.
/// The nearest number of 8 bits.
pub fn to_8_bits(value: i64) -> u8
    ensures number { pos result ≡ nearest_of_8 value }
{
    if value <= 0 {
        0
    } else if value >= 255 {
        255
    } else {
        value as u8
    }
}

/// The nearest number of 32 bits.
pub fn to_32_bits(value: i64) -> i32
    ensures { result ≡ nearest_of_32 value }
{
    if value <= -2_147_483_648 {
        i32::MIN
    } else if value >= 2_147_483_647 {
        i32::MAX
    } else {
        value as i32
    }
}
