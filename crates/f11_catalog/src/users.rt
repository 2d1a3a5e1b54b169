//! The directories of users.
ghost use Rattle.std.specs.Prelude.{◌≡◌, length};
ghost use Rattle.f11_catalog.specs.Users.{three_octal_value, user_named, user_spelled};

use f11_rad50::Name;
use f11_store::Uic;

/// The number below 256 that three octal digits spell.
#[tactic(auto, unfolding(crate::specs::Users::three_octal_value))]
fn three_octal(a: u8, b: u8, c: u8) -> Option<u8>
    ensures { result ≡ three_octal_value a b c }
{
    if !(b'0'..=b'3').contains(&a) || !(b'0'..=b'7').contains(&b) || !(b'0'..=b'7').contains(&c) {
        return None;
    }
    Some(64 * (a - b'0') + (8 * (b - b'0') + (c - b'0')))
}

/// The user whose directory has a name that is spelled so.
fn user_in(text: &[u8]) -> Option<Uic>
    ensures { result ≡ user_spelled text.now }
{
    if text.len() != 12 || &text[6..] != b".DIR;1".as_slice() {
        return None;
    }
    let group = three_octal(text[0], text[1], text[2])?;
    let member = three_octal(text[3], text[4], text[5])?;
    Some(Uic { group, member })
}

/// The user whose directory has this name: group and member in three octal digits each, as `200001.DIR;1`.
pub fn user_of(name: &Name) -> Option<Uic>
    ensures { result ≡ user_named name.now }
{
    let mut text = [0; 19];
    let length = name.spell(&mut text);
    user_in(&text[..length])
}
