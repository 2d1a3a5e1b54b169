//! The pattern of a file's name: read from its text, and decided against a name.
ghost use Rattle.std.specs.Prelude.{◌≡◌, ◌↔◌, ℕ, ◌+◌, ◌<◌, ◌≤◌, List, [], ◌∷◌, length, All, IsTrue, IfOk, IsOkAnd, IfSome, IsSomeAnd};
ghost use Rattle.f11_patterns.specs.Parts.{Parts, AreParts, AreVersions, AreVersions-prop};
ghost use Rattle.f11_patterns.specs.Naming.{FitsWith};
ghost use Rattle.f11_patterns.specs.Pattern.{IsPattern, Fits, FitsNone, IsAll, IsPlain, IsOne, with_versions};

use crate::errors::BadPattern;
use crate::like::is_like;
use crate::name_parts::name_and_type;
use crate::naming::name_of_parts;
use crate::split::split;
use crate::versions::{Versions, asked_behind, is_among};
use f11_rad50::Name;

/// The pattern of a file's name, as `*.TXT;*`, in the text that it was read from (RSX-11M-PLUS MCR Operations Manual,
/// wildcards).
///
/// In a name or a type `*` stands for any characters, maybe none, and `%` for one. Small letters count as capitals
/// (profile). Contracts see its parts: the name, the type, and the versions that it asks for.
#[derive(Clone, Copy, Debug, PartialEq, Eq)]
pub struct Pattern<'a> {
    name: &'a [u8],
    kind: &'a [u8],
    versions: Versions,
    ghost parts: { AreParts name.now kind.now },
    ghost version: { AreVersions versions } by { AreVersions-prop versions },
}

/// Whether a name and a type aren't too long, nor both empty.
fn have_room(name: &[u8], kind: &[u8]) -> bool
    ensures { IsTrue result
        ↔ ((length name.now ≤ 9)
        × (length kind.now ≤ 3)
        × (0 < length name.now + length kind.now)) }
{
    name.len() <= 9 && kind.len() <= 3 && !(name.is_empty() && kind.is_empty())
}

/// What stands behind the dot that a text begins with.
fn behind_dot(text: &[u8]) -> Option<&[u8]>
    ensures dot { IfSome result (λ rest. text.now ≡ 46 ∷ rest.now) }
    ensures every { (rest : List ℕ) → text.now ≡ 46 ∷ rest → IsSomeAnd result (λ r. r.now ≡ rest) }
{
    match text {
        [b'.', rest @ ..] => Some(rest),
        _ => None,
    }
}

/// Whether a character is neither `*` nor `%`.
fn is_plain(character: u8) -> bool
    ensures { IsTrue result ↔ IsPlain character }
{
    !matches!(character, b'*' | b'%')
}

/// Whether no character is `*` or `%`.
fn are_plain(characters: &[u8]) -> bool
    ensures { IsTrue result ↔ All IsPlain characters.now }
{
    characters.iter().all(|c| is_plain(*c))
}

/// Whether characters are a `*` alone.
fn is_star(characters: &[u8]) -> bool
    ensures { IsTrue result ↔ (characters.now ≡ 42 ∷ []) }
{
    matches!(characters, [b'*'])
}

impl<'a> Pattern<'a> {
    ghost use Rattle.f11_patterns.specs.Lent.{parts_of};

    /// The pattern that a text is.
    fn read(text: &'a [u8]) -> Option<Pattern<'a>>
        ensures pattern { IfSome result (λ pattern. IsPattern text.now (parts_of pattern)) }
        ensures every { (parts : Parts)
            → IsPattern text.now parts
            → IsSomeAnd result (λ pattern. parts_of pattern ≡ parts) }
    {
        let (name, rest) = split(text);
        let (kind, behind) = split(behind_dot(rest)?);
        if !have_room(name, kind) {
            return None;
        }
        let versions = asked_behind(behind)?;
        Some(Pattern {
            name,
            kind,
            versions,
        })
    }

    /// Reads `NAME.TYP` or `NAME.TYP;VERSION`: up to nine characters, a dot, up to three characters, name and type not
    /// both empty. The characters are letters of either case, `0` to `9`, `$`, `*` and `%`. The version is `*` for each
    /// one, one to five octal digits of value 1 to 32767 for that one, and nothing or digits of value 0 for the highest
    /// one, which is also asked for where there is no semicolon. Any other text is a [`BadPattern`] (profile).
    pub fn parse(text: &'a [u8]) -> Result<Pattern<'a>, BadPattern>
        ensures pattern { IfOk result (λ pattern. IsPattern text.now (parts_of pattern)) }

        // So the answer is `BadPattern` exactly where the text is no pattern.
        ensures every { (parts : Parts)
            → IsPattern text.now parts
            → IsOkAnd result (λ pattern. parts_of pattern ≡ parts) }
    {
        Pattern::read(text).ok_or(BadPattern)
    }

    /// Whether a name fits: its name and its type are like the pattern's, and its version is asked for. Where the
    /// highest version is asked for, each version fits: which one is highest is decided among the names that fit.
    pub fn fits(&self, name: &Name) -> bool
        ensures fits { IsTrue result ↔ Fits (parts_of self.now) name.now }
    {
        self.fits_with(self.versions, name)
    }

    /// The same where these versions were asked for.
    pub(crate) fn fits_with(&self, versions: Versions, name: &Name) -> bool
        ensures fits { IsTrue result ↔ Fits (with_versions versions (parts_of self.now)) name.now }
    {
        let [.., version] = name.words();
        if !is_among(version, versions) {
            return false;
        }
        let mut buffer = [0; 19];
        let length = name.spell(&mut buffer);
        let (front, kind) = name_and_type(&buffer[..length]);
        is_like(self.name, front) && is_like(self.kind, kind)
    }

    /// Whether none of these names fits.
    pub fn fits_none(&self, names: &[Name]) -> bool
        ensures none { IsTrue result ↔ FitsNone (parts_of self.now) names.now }
    {
        names.iter().all(|name| !self.fits(name))
    }

    /// Whether it is `*.*`, of whatever versions.
    pub fn is_all(&self) -> bool
        ensures all { IsTrue result ↔ IsAll (parts_of self.now) }
    {
        is_star(self.name) && is_star(self.kind)
    }

    /// Which versions of the names that fit are asked for.
    pub fn versions(&self) -> Versions
        ensures value { result ≡ (parts_of self.now).versions }
        ensures number { AreVersions result }
    {
        self.versions
    }

    /// Whether at most one name of a directory is meant: no `*` and no `%` stands in the name or the type, and not each
    /// version is asked for.
    pub fn is_one(&self) -> bool
        ensures one { IsTrue result ↔ IsOne (parts_of self.now) }
    {
        are_plain(self.name) && are_plain(self.kind) && self.versions != Versions::Each
    }

    /// The name that fits a pattern which means one, with this version.
    pub(crate) fn name_with(&self, version: u16) -> Option<Name>
        requires one { IsOne (parts_of self.now) }
        requires version { (0 < version) × (version < 32768) }
        ensures { IsSomeAnd result (λ name. FitsWith (parts_of self.now) version name) }
    {
        name_of_parts(self.name, self.kind, version)
    }
}
