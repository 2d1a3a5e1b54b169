//! The areas of a header that a line's words stand for.

ghost use Rattle.std.specs.Prelude.{◌≡◌};
ghost use Rattle.f11_script.specs.Requests as specs;

use f11_bytes::{long_bytes, word_bytes};
use f11_rad50::Name;

/// The type `DIR` in Radix-50.
const DIRECTORY: u16 = 6778;

/// User attributes: record type, record attributes, record size, F.HIBK, F.EFBK and F.FFBY, and zeros behind them
/// (Files-11 On-Disk Structure Level 1, file attributes).
#[tactic(auto, unfolding(crate::specs::Requests::attr_bytes))]
pub(crate) fn attr_bytes(rtyp: u8, ratt: u8, rsiz: u16, hibk: u32, efbk: u32, ffby: u16) -> [u8; 32]
    ensures { result ≡ specs.attr_bytes rtyp ratt rsiz hibk efbk ffby }
{
    let [a, b] = word_bytes(rsiz);
    let [c, d, e, f] = long_bytes(hibk);
    let [g, h, i, j] = long_bytes(efbk);
    let [k, l] = word_bytes(ffby);
    [
        rtyp, ratt, a, b, c, d, e, f, g, h, i, j, k, l, 0, 0, 0, 0, 0, 0, 0, 0, 0, 0, 0, 0, 0, 0,
        0, 0, 0, 0,
    ]
}

/// The attributes of a new file: those of a directory where the name's type is `DIR`, and zeros (profile).
#[tactic(auto, unfolding(crate::specs::Requests::attr_for))]
pub(crate) fn attr_for(name: Name) -> [u8; 32]
    ensures { result ≡ specs.attr_for name }
{
    if name.words()[3] == DIRECTORY {
        attr_bytes(1, 0, 16, 0, 0, 0)
    } else {
        attr_bytes(0, 0, 0, 0, 0, 0)
    }
}
