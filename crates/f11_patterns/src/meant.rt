//! Which of the names of a directory a pattern means.
ghost use Rattle.std.specs.Prelude.{◌≡◌, ◌↔◌, IsTrue};
ghost use Rattle.f11_patterns.specs.Meant.{IsHighest, IsHighestVersion, IsSuperseded, Means, are_alike, is_higher};
ghost use Rattle.f11_patterns.specs.Lent.{parts_of};

use crate::pattern::Pattern;
use crate::versions::Versions;
use f11_rad50::Name;

/// Whether two names have one name and one type.
pub(crate) fn are_alike(one: &Name, other: &Name) -> bool
    ensures { result ≡ are_alike one.now other.now }
{
    let [a, b, c, kind, _] = one.words();
    let [d, e, f, other_kind, _] = other.words();
    a == d && b == e && c == f && kind == other_kind
}

/// Whether one name is a higher version of the other.
fn is_higher(one: &Name, other: &Name) -> bool
    ensures { result ≡ is_higher one.now other.now }
{
    are_alike(one, other) && other.words()[4] < one.words()[4]
}

/// Whether none of these names is a higher version of one.
pub fn is_highest(names: &[Name], name: &Name) -> bool
    ensures { IsTrue result ↔ IsHighest names.now name.now }
{
    names.iter().all(|other| !is_higher(other, name))
}

/// The highest version of a name among some names, and itself. Steps: as many as there are names.
pub fn highest_version(names: &[Name], name: &Name) -> Name
    ensures highest { IsHighestVersion names.now name.now result }
{
    let mut highest = *name;
    for other in names {
        if is_higher(other, &highest) {
            highest = *other;
        }
    }
    highest
}

impl Pattern<'_> {
    /// Whether the pattern means a name among those of a directory: it fits ([`Pattern::fits`]), and where the highest version is asked for,
    /// none of them is a higher version of it. Steps: as many as there are names.
    pub fn means(&self, names: &[Name], name: &Name) -> bool
        ensures means { IsTrue result ↔ Means (parts_of self.now) names.now name.now }
    {
        self.fits(name) && (self.versions() != Versions::Highest || is_highest(names, name))
    }

    /// Whether a name is like the pattern's, whatever its version, and one of those of a directory is a higher version of it: a purge deletes it
    /// (RSX-11M Utilities manual, PIP, `/PU`).
    pub fn supersedes(&self, names: &[Name], name: &Name) -> bool
        ensures superseded { IsTrue result ↔ IsSuperseded (parts_of self.now) names.now name.now }
    {
        self.fits_with(Versions::Each, name) && !is_highest(names, name)
    }
}
