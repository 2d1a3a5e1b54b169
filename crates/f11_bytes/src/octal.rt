//! Octal digits.
ghost use Rattle.std.specs.Prelude.{◌<◌, SomeIff};
ghost use Rattle.std.specs.Char.{digit_value};
ghost use Rattle.std.specs.Str.Parse.{digits_value};
ghost use Rattle.f11_bytes.specs.Octal.{IsOctal};

/// The value of one octal digit or more, at most `most`; `None` for any other bytes.
pub fn octal_value(digits: &[u8], most: u16) -> Option<u16>
    ensures { SomeIff result (IsOctal digits.now most) (digits_value 8 digits.now) }
{
    if digits.is_empty() {
        return None;
    }
    let mut value: u32 = 0;
    for digit in digits {
        value = value * 8 + octal_digit(*digit)?;
        if value > u32::from(most) {
            return None;
        }
    }
    Some(value as u16)
}

/// The value of an octal digit.
fn octal_digit(digit: u8) -> Option<u32>
    ensures { SomeIff result (digit_value digit < 8) (digit_value digit) }
{
    match digit {
        b'0'..=b'7' => Some(u32::from(digit - b'0')),
        _ => None,
    }
}
