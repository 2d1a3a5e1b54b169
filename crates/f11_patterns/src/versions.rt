//! The versions that a pattern asks for.
ghost use Rattle.std.specs.Prelude.{◌≡◌, ◌↔◌, IsTrue, IfSome, SomeIff};
ghost use Rattle.std.specs.Str.Parse.{digits_value};
ghost use Rattle.f11_rad50.specs.Name.{IsVersion};
ghost use Rattle.f11_patterns.specs.Parts.{AreVersions};
ghost use Rattle.f11_patterns.specs.Pattern.{DigitsAskFor, BehindAsksFor, IsAmong};
ghost use Rattle.f11_patterns.specs.declared.versions.Versions.{Versions};

use f11_bytes::octal_value;

/// The versions of a name that a pattern asks for.
#[derive(Clone, Copy, Debug, PartialEq, Eq)]
pub enum Versions {
    /// The highest one of those that fit.
    Highest,
    /// Each one.
    Each,
    /// The one of this number, from 1 to 32767.
    Exactly(u16),
}

/// The most octal digits of a version.
const VERSION_DIGITS: usize = 5;

/// The number that is written in one to five octal digits.
fn read_number(digits: &[u8]) -> Option<u16>
    ensures { SomeIff result (IsVersion digits.now) (digits_value 8 digits.now) }
{
    if digits.len() > VERSION_DIGITS {
        return None;
    }
    octal_value(digits, 0o77777)
}

/// The versions that a number asks for.
fn numbered(number: u16) -> Versions
    ensures zero { number ≡ 0 → result ≡ Versions.Highest }
    ensures other { (number ≡ 0 → ⊥) → result ≡ Versions.Exactly number }
{
    match number {
        0 => Versions::Highest,
        version => Versions::Exactly(version),
    }
}

/// The versions that are asked for behind a semicolon.
fn asked_by(digits: &[u8]) -> Option<Versions>
    ensures asked { IfSome result (λ versions. DigitsAskFor digits.now versions) }
    ensures numbers { IfSome result (λ versions. AreVersions versions) }
    ensures every { (versions : Versions)
        → DigitsAskFor digits.now versions
        → AreVersions versions
        → result ≡ Some versions }
{
    match digits {
        [] => Some(Versions::Highest),
        b"*" => Some(Versions::Each),
        _ => Some(numbered(read_number(digits)?)),
    }
}

/// The versions that are asked for behind a type.
pub(crate) fn asked_behind(behind: &[u8]) -> Option<Versions>
    ensures asked { IfSome result (λ versions. BehindAsksFor behind.now versions) }
    ensures numbers { IfSome result (λ versions. AreVersions versions) }
    ensures every { (versions : Versions)
        → BehindAsksFor behind.now versions
        → AreVersions versions
        → result ≡ Some versions }
{
    match behind {
        [] => Some(Versions::Highest),
        [b';', digits @ ..] => asked_by(digits),
        _ => None,
    }
}

/// Whether a version is among those asked for.
pub(crate) fn is_among(version: u16, versions: Versions) -> bool
    ensures { IsTrue result ↔ IsAmong version versions }
{
    match versions {
        Versions::Highest => true,
        Versions::Each => true,
        Versions::Exactly(one) => version == one,
    }
}
