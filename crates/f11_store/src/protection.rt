//! What a caller may do to a file
//! (Files-11 On-Disk Structure Level 1, file protection).

ghost use Rattle.std.specs.Prelude.{⊤, ◌≡◌, ℕ, ◌<◌, ◌&&◌, not, if◌then◌else◌};
ghost use Rattle.f11_store.specs.declared.protection.Right.{Right};
ghost use Rattle.f11_store.specs.Rights as specs;
ghost use Rattle.f11_store.specs.Rights.{has_right, bits_of, right_names};

use crate::callers::Uic;
use bitflags::{Flag, Flags, bitflag_items};

/// A class of callers (Files-11 On-Disk Structure Level 1, file protection).
#[derive(Clone, Copy, PartialEq, Eq, Debug)]
pub enum Class {
    /// A group of at most octal 10.
    System,
    /// The file's owner.
    Owner,
    /// The group of the file's owner.
    Group,
    /// Everybody.
    World,
}

/// What may be done to a file (Files-11 On-Disk Structure Level 1, file protection).
#[derive(Clone, Copy, PartialEq, Eq, Debug)]
pub enum Right {
    /// To read it.
    Read,
    /// To write it.
    Write,
    /// To extend it.
    Extend,
    /// To delete it.
    Delete,
}

/// A set of rights: bit 0 for reading, 1 for writing, 2 for extending, 3 for deleting.
#[derive(Clone, Copy, PartialEq, Eq, Debug)]
pub struct Rights(u8);

bitflag_items! {
    impl Rights: u8 {
        const READ = 1;
        const WRITE = 2;
        const EXTEND = 4;
        const DELETE = 8;
    }
}

impl Flags for Rights {
    type Bits = u8;

    ghost exact = { ⊤ };

    ghost table = { right_names };

    ghost set_of = { bits_of };

    fn flags<'a>() -> &'a [Flag<Rights>] {
        Rights::FLAGS
    }

    fn bits(&self) -> u8 {
        self.0
    }

    fn from_bits_retain(bits: u8) -> Rights {
        Rights(bits)
    }
}

/// Whether the caller is of the class.
pub fn is_of(caller: Uic, owner: Uic, class: Class) -> bool
    ensures { result ≡ specs.is_of caller owner class }
{
    match class {
        Class::System => caller.group <= 0o10,
        Class::Owner => caller == owner,
        Class::Group => caller.group == owner.group,
        Class::World => true,
    }
}

/// Whether the protection word denies the class the right.
fn denies(word: u16, class: Class, right: Right) -> bool
    ensures { result ≡ specs.denies word class right }
{
    let place = 4 * class as u16 + right as u16;
    (word >> place) & 1 == 1
}

/// Whether the caller has the right to a file with this owner and protection word: one of the
/// caller's classes isn't denied it (profile).
pub fn may(caller: Uic, owner: Uic, word: u16, right: Right) -> bool
    ensures { result ≡ specs.may caller owner word right }
{
    let grants = |class: Class| -> bool
        ensures { result ≡ (specs.is_of caller owner class && not (specs.denies word class right)) }
    { is_of(caller, owner, class) && !denies(word, class, right) };
    grants(Class::System) || grants(Class::Owner) || grants(Class::Group) || grants(Class::World)
}

/// The right, or none.
fn right_if(granted: bool, right: Rights) -> Rights
    ensures { bits_of result ≡ (if granted then bits_of right else 0) }
{
    if granted { right } else { Rights::empty() }
}

/// The rights of the caller to a file with this owner and protection word: each right that one of
/// the caller's classes isn't denied (profile).
pub fn allowed(caller: Uic, owner: Uic, word: u16) -> Rights
    ensures exact { (right : Right) → has_right result right ≡ specs.may caller owner word right }
    ensures no_other { bits_of result < 16 }
{
    let read = right_if(may(caller, owner, word, Right::Read), Rights::READ);
    let write = right_if(may(caller, owner, word, Right::Write), Rights::WRITE);
    let extend = right_if(may(caller, owner, word, Right::Extend), Rights::EXTEND);
    let delete = right_if(may(caller, owner, word, Right::Delete), Rights::DELETE);
    read.union(write).union(extend).union(delete)
}
