//! Octal numbers among the words: users' codes and protection words.
ghost use Rattle.std.specs.Prelude.{◌≡◌, IfSome, SomeIff};
ghost use Rattle.std.specs.Str.Parse.{digits_value};
ghost use Rattle.f11_store.specs.declared.callers.Uic.{Uic};
ghost use Rattle.f11_bytes.specs.Octal.{IsOctal};
ghost use Rattle.f11_numbers.specs.Octal.{IsProtection, SpellsUic};

use f11_bytes::octal_value;
use f11_store::Uic;

/// The user's code that a text spells, `GROUP,MEMBER`: two octal numbers of at most 377, each of one digit or more
/// (profile). `None` for any other text.
pub fn read_uic(text: &str) -> Option<Uic>
    ensures spelled { IfSome result (λ uic. SpellsUic text.now uic) }

    // So the answer is `None` exactly where the text spells no user's code.
    ensures every { (uic : Uic) → SpellsUic text.now uic → result ≡ Some uic }
{
    let (group, member) = text.split_once(',')?;
    Some(Uic {
        group: read_byte(group)?,
        member: read_byte(member)?,
    })
}

/// The protection word that a text spells: one to six octal digits of at most 177777 (profile). `None` for any other
/// text.
pub fn read_protection(text: &str) -> Option<u16>
    ensures { SomeIff result (IsProtection text.now) (digits_value 8 text.now) }
{
    if text.len() > 6 {
        return None;
    }
    octal_value(text.as_bytes(), 0o177777)
}

/// The value of octal digits, at most 377.
fn read_byte(digits: &str) -> Option<u8>
    ensures { SomeIff result (IsOctal digits.now 255) (digits_value 8 digits.now) }
{
    Some(octal_value(digits.as_bytes(), 0o377)? as u8)
}
