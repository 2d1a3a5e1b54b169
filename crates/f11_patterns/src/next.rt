//! The next version of a file's name.
ghost use Rattle.std.specs.Prelude.{◌≡◌, ◌&&◌, IfNone, IfSome, nat_lt};
ghost use Rattle.f11_patterns.specs.Meant.{are_alike, word_at};
ghost use Rattle.f11_patterns.specs.Next.{HasLast, IsNext, IsTop};

use crate::meant::are_alike;
use f11_rad50::Name;

/// Whether a name has the name and the type of another, and a version above this one.
fn is_above(one: &Name, name: &Name, version: u16) -> bool
    ensures { result ≡ (are_alike one.now name.now && nat_lt version (word_at one.now 4)) }
{
    are_alike(one, name) && version < one.words()[4]
}

/// The highest version of a name among those of a directory, and 0 where there is none.
fn top_version(names: &[Name], name: &Name) -> u16
    ensures { IsTop names.now name.now result }
{
    let mut top = 0;
    for one in names {
        if is_above(one, name, top) {
            top = one.words()[4];
        }
    }
    top
}

/// The name that a file gets in a directory with these names where its version isn't given: the name and the type of `name`, whose version
/// doesn't count, and the version one above the highest one there, or 1 where there is none (RSX-11M-PLUS MCR Operations Manual, file
/// specifications). `None` where the highest one is 32,767, 77777 in octal, the last that there is (Files-11 On-Disk Structure Level 1, file
/// names). Steps: as many as there are names.
pub fn next_version(names: &[Name], name: &Name) -> Option<Name>
    ensures next { IfSome result (λ next. IsNext names.now name.now next) }
    ensures none { IfNone result (HasLast names.now name.now) }
{
    let [first, second, third, kind, _] = name.words();
    Name::from_words([first, second, third, kind, top_version(names, name) + 1])
}
