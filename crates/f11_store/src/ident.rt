//! The ident area of a new file.

ghost use Rattle.std.specs.Prelude.{◌≡◌};
ghost use Rattle.f11_store.specs.Ident.{ident_with};

use f11_bytes::word_bytes;
use f11_rad50::Name;

/// An ident area with a name, and zeros behind it
/// (Files-11 On-Disk Structure Level 1, ident area).
#[tactic(auto, unfolding(crate::specs::Ident::ident_with))]
pub fn ident_with(name: Name) -> [u8; 46]
    ensures { result ≡ ident_with name }
{
    let words = name.words();
    let [a, b] = word_bytes(words[0]);
    let [c, d] = word_bytes(words[1]);
    let [e, f] = word_bytes(words[2]);
    let [g, h] = word_bytes(words[3]);
    let [i, j] = word_bytes(words[4]);
    [
        a, b, c, d, e, f, g, h, i, j, 0, 0, 0, 0, 0, 0, 0, 0, 0, 0, 0, 0, 0, 0, 0, 0, 0, 0, 0, 0,
        0, 0, 0, 0, 0, 0, 0, 0, 0, 0, 0, 0, 0, 0, 0, 0,
    ]
}
