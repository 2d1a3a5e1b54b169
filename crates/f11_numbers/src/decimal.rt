//! Decimal numbers among the words: those of headers, and what a volume is made with.
ghost use Rattle.std.specs.Prelude.{◌≡◌, SomeIff};
ghost use Rattle.std.specs.Str.Parse.{digits_value};
ghost use Rattle.f11_numbers.specs.Decimal.{IsCount, IsNumber};

/// The number that a text spells: decimal digits alone, at most 65535 (profile). `None` for any other text.
pub fn read_number(text: &str) -> Option<u16>
    ensures { SomeIff result (IsNumber text.now) (digits_value 10 text.now) }
{
    match text.as_bytes() {
        [b'+', ..] => None,
        _ => text.parse().ok(),
    }
}

/// The number of blocks that a text spells: decimal digits alone, at most 4294967295 (profile). `None` for any other text.
pub fn read_count(text: &str) -> Option<u32>
    ensures { SomeIff result (IsCount text.now) (digits_value 10 text.now) }
{
    match text.as_bytes() {
        [b'+', ..] => None,
        _ => text.parse().ok(),
    }
}
