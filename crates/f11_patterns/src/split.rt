//! The characters of a pattern at the front of a text.
ghost use Rattle.std.specs.Prelude.{◌≡◌, not, position};
ghost use Rattle.std.specs.List.{position_or_len};
ghost use Rattle.f11_patterns.specs.Parts.{is_pattern_character};
ghost use Rattle.f11_patterns.specs.Split.{IsSplit};

/// Whether a byte may stand in a pattern.
#[tactic(auto, unfolding(crate::specs::Parts::is_pattern_character, f11_rad50::specs::Name::is_name_character))]
fn is_pattern_character(character: u8) -> bool
    ensures { result ≡ is_pattern_character character }
{
    matches!(character, b'A'..=b'Z' | b'a'..=b'z' | b'0'..=b'9' | b'$' | b'*' | b'%')
}

/// The place of the first byte that may not stand in a pattern.
fn stop(text: &[u8]) -> Option<usize>
    ensures { result ≡ position (λ c. not (is_pattern_character c)) text.now }
{
    text.iter().position(|c| !is_pattern_character(*c))
}

/// How many characters of a pattern a text begins with.
fn leading(text: &[u8]) -> usize
    ensures { result ≡ position_or_len (λ c. not (is_pattern_character c)) text.now }
{
    stop(text).unwrap_or(text.len())
}

/// The characters of a pattern that a text begins with, and what stands behind them.
pub(crate) fn split(text: &[u8]) -> (&[u8], &[u8])
    ensures { IsSplit text.now result.0.now result.1.now }
{
    text.split_at(leading(text))
}
