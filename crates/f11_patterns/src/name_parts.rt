//! The name and the type in the text of a name.
ghost use Rattle.std.specs.Prelude.{◌≡◌, ℕ, List, drop};
ghost use Rattle.f11_rad50.specs.Name.{IsName, name_of, type_of, name_text};

use crate::split::split;

/// A text without its first character.
fn without_first(text: &[u8]) -> &[u8]
    ensures { result.now ≡ drop 1 text.now }
{
    match text {
        [] => text,
        [_, rest @ ..] => rest,
    }
}

/// The characters of the name and of the type, which stand at the front of a name's text.
pub(crate) fn name_and_type(text: &[u8]) -> (&[u8], &[u8])
    ensures { (words : List ℕ)
        → IsName words
        → text.now ≡ name_text words
        → (result.0.now ≡ name_of words) × (result.1.now ≡ type_of words) }
{
    let (name, rest) = split(text);
    let (kind, _) = split(without_first(rest));
    (name, kind)
}
