//! Whether a text is like a pattern.
ghost use Rattle.std.specs.Prelude.{◌≡◌, ◌<◌, ◌↔◌, length, slice_index, IsTrue};
ghost use Rattle.f11_patterns.specs.Like.{AsksFor, IsLike};

/// Whether a character of a pattern other than `*` asks for a character.
fn asks_for(wanted: u8, character: u8) -> bool
    ensures { IsTrue result ↔ AsksFor wanted character }
{
    wanted == b'%' || character == wanted.to_ascii_uppercase()
}

/// Whether a pattern begins with `*`.
fn begins_with_star(pattern: &[u8]) -> bool
    ensures { IsTrue result ↔ ((0 < length pattern.now) × (slice_index pattern.now 0 ≡ 42)) }
{
    matches!(pattern, [b'*', ..])
}

/// Whether a text is like a pattern.
pub(crate) fn is_like(pattern: &[u8], text: &[u8]) -> bool
    ensures { IsTrue result ↔ IsLike pattern.now text.now }
{
    match pattern {
        [] => text.is_empty(),
        [b'*', rest @ ..] => {
            if is_like(rest, text) {
                return true;
            }
            // A second `*` has tried what is left of the text behind each of its characters.
            if begins_with_star(rest) {
                return false;
            }
            match text {
                [] => false,
                [_, others @ ..] => is_like(pattern, others),
            }
        }
        [wanted, rest @ ..] => match text {
            [] => false,
            [first, others @ ..] => asks_for(*wanted, *first) && is_like(rest, others),
        },
    }
}
