//! Protection words as RSX-11 shows them: by what each class is granted.
ghost use Rattle.std.specs.Prelude.{◌≡◌, ◌≢◌, ◌<◌, ◌==◌, ℕ, List, [], ◌∷◌, ◌++◌, Some, IfSome, MatchOption, if◌then◌else◌};
ghost use Rattle.std.specs.Str.{str_to_ascii_uppercase};
ghost use Rattle.f11_store.specs.declared.protection.Class.TheVariants.{System};
ghost use Rattle.f11_store.specs.declared.protection.Right.{Right};
ghost use Rattle.f11_store.specs.Rights.{denies};
ghost use Rattle.f11_numbers.specs.Rights.{SpellsRights, granted, letter_of, shown};

use f11_store::{Class, Right};
use std::fmt;

/// The protection word that a text spells as RSX-11 shows it, `[RWED,RWED,RWED,R]`: in brackets, with commas between
/// them, what the system, the owner, the group and the world are granted, each some of the letters R, W, E and D in this
/// order, or none (RSX-11M Utilities manual, PIP, `/PR` and `/FU`). Small letters are taken as capitals (profile). `None`
/// for any other text.
pub fn read_rights(text: &str) -> Option<u16>
    ensures spelled { IfSome result (λ word. SpellsRights text.now word) }

    // So the answer is `None` exactly where the text spells no protection word.
    ensures every { (word : ℕ) → SpellsRights text.now word → result ≡ Some word }
{
    let rest = past(text.as_bytes(), b'[')?;
    let (system, rest) = read_class(rest, b',')?;
    let (owner, rest) = read_class(rest, b',')?;
    let (group, rest) = read_class(rest, b',')?;
    let (world, rest) = read_class(rest, b']')?;
    if !rest.is_empty() {
        return None;
    }
    Some(system | owner << 4 | group << 8 | world << 12)
}

/// What a class is denied whose letters stand before this end, as the lowest four bits of a protection word, and what
/// stands behind the end.
fn read_class<'a>(text: &'a [u8], end: u8) -> Option<(u16, &'a [u8])>
    requires no_letter { (right : Right) → end ≢ letter_of right }
    ensures four_bits { IfSome result (λ r. r.0 < 16) }
    ensures spelled { IfSome result (λ r. str_to_ascii_uppercase text.now
        ≡ granted r.0 System ++ (end ∷ str_to_ascii_uppercase r.1.now)) }
    ensures every { (word : ℕ) (more : List ℕ) → word < 16
        → str_to_ascii_uppercase text.now ≡ granted word System ++ (end ∷ more)
        → MatchOption result ⊥ (λ r. (r.0 ≡ word) × (str_to_ascii_uppercase r.1.now ≡ more)) }
{
    let (read, rest) = read_right(text, b'R');
    let (write, rest) = read_right(rest, b'W');
    let (extend, rest) = read_right(rest, b'E');
    let (delete, rest) = read_right(rest, b'D');
    let rest = past(rest, end)?;
    Some((read | write << 1 | extend << 2 | delete << 3, rest))
}

/// Whether a right is denied, as a bit: where its letter doesn't stand at the front. And what stands behind the letter,
/// or the text itself.
fn read_right<'a>(text: &'a [u8], letter: u8) -> (u16, &'a [u8])
    ensures bit { result.0 < 2 }
    ensures spelled { str_to_ascii_uppercase text.now
        ≡ (if result.0 == 1 then [] else letter ∷ []) ++ str_to_ascii_uppercase result.1.now }
    ensures denied { result.0 ≡ 1 → (more : List ℕ) → str_to_ascii_uppercase text.now ≢ letter ∷ more }
{
    match past(text, letter) {
        Some(rest) => (0, rest),
        None => (1, text),
    }
}

/// What stands behind a character at the front of a text, small letters taken as capitals. `None` where it isn't there.
fn past<'a>(text: &'a [u8], character: u8) -> Option<&'a [u8]>
    ensures { MatchOption result
        ((more : List ℕ) → str_to_ascii_uppercase text.now ≢ character ∷ more)
        (λ rest. str_to_ascii_uppercase text.now ≡ character ∷ str_to_ascii_uppercase rest.now) }
{
    match text {
        [first, rest @ ..] if first.to_ascii_uppercase() == character => Some(rest),
        _ => None,
    }
}

/// A protection word as RSX-11 shows it, and [`read_rights`] reads it: `[RWED,RWED,RWED,R]`.
#[derive(Clone, Copy, Debug, PartialEq, Eq)]
pub struct ShownRights(pub u16);

/// What a class is granted by a protection word.
#[derive(Clone, Copy)]
struct ShownClass(u16, Class);

/// Whether a protection word denies a class a right.
fn is_denied(word: u16, class: Class, right: Right) -> bool
    ensures { result ≡ denies word class right }
{
    let place = 4 * class as u16 + right as u16;
    (word >> place) & 1 == 1
}

/// The letter of a right where a class isn't denied it, else nothing.
fn letter(word: u16, class: Class, right: Right) -> &'static str
    ensures { result.now ≡ shown word class right }
{
    if is_denied(word, class, right) {
        return "";
    }
    match right {
        Right::Read => "R",
        Right::Write => "W",
        Right::Extend => "E",
        Right::Delete => "D",
    }
}

impl fmt::Display for ShownClass {
    ghost output = { λ c. Some (granted c.0 c.1) };

    fn fmt<W: fmt::Write>(&self, f: &mut fmt::Formatter<W>) -> fmt::Result {
        let read = letter(self.0, self.1, Right::Read);
        let write = letter(self.0, self.1, Right::Write);
        let extend = letter(self.0, self.1, Right::Extend);
        let delete = letter(self.0, self.1, Right::Delete);
        write!(f, "{read}{write}{extend}{delete}")
    }
}

impl fmt::Display for ShownRights {
    ghost use Rattle.f11_numbers.specs.Rights.{rights_text};

    ghost output = { λ r. Some (rights_text r.0) };

    fn fmt<W: fmt::Write>(&self, f: &mut fmt::Formatter<W>) -> fmt::Result {
        let system = ShownClass(self.0, Class::System);
        let owner = ShownClass(self.0, Class::Owner);
        let group = ShownClass(self.0, Class::Group);
        let world = ShownClass(self.0, Class::World);
        write!(f, "[{system},{owner},{group},{world}]")
    }
}
