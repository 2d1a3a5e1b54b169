//! Who asks: a task, by one of its logical units, for a user.

ghost use Rattle.std.specs.Prelude.{◌≡◌, ℕ, ◌<◌, ◌↔◌, IsSome, IfSome};

use std::fmt;
use std::marker::Model;

/// A user identification code: a group and a member of it
/// (Files-11 On-Disk Structure Level 1, file header, H.FOWN).
#[derive(Clone, Copy, PartialEq, Eq, Debug)]
pub struct Uic {
    /// The group, 0 to octal 377.
    pub group: u8,
    /// The member of the group, 0 to octal 377.
    pub member: u8,
}

impl fmt::Display for Uic {
    ghost use Rattle.std.specs.Prelude.{Some};
    ghost use Rattle.f11_store.specs.Text.{uic_text};

    ghost output = { λ uic. Some (uic_text uic) };

    /// Writes `[GROUP,MEMBER]`, both in octal without leading zeros (profile).
    fn fmt<W: fmt::Write>(&self, f: &mut fmt::Formatter<W>) -> fmt::Result {
        write!(f, "[{:o},{:o}]", self.group, self.member)
    }
}

/// One of the eight tasks that a volume serves (profile). Contracts see its number.
#[derive(Clone, Copy, PartialEq, Eq, Debug)]
pub struct Task {
    number: u8,
}

impl Model for Task {
    ghost Value = { ℕ };

    ghost view = { λ t. t.number };

    ghost invariant = { λ t. t.number < 8 };

    ghost inverse = { λ n. record { number = n } };
}

impl Task {
    /// The task with this number; `None` exactly for a number above 7.
    pub fn new(number: u8) -> Option<Task>
        ensures valid { IsSome result ↔ (number < 8) }
        ensures value { IfSome result (λ t. t ≡ number) }
    {
        if number < 8 {
            Some(Task { number })
        } else {
            None
        }
    }

    /// Its number, 0 to 7.
    pub fn number(self) -> u8
        ensures value { result ≡ self }
        ensures bound { result < 8 }
    {
        self.number
    }
}

/// One of a task's four logical units, each of which holds at most one access (profile).
/// Contracts see its number.
#[derive(Clone, Copy, PartialEq, Eq, Debug)]
pub struct Lun {
    unit: u8,
}

impl Model for Lun {
    ghost Value = { ℕ };

    ghost view = { λ l. l.unit };

    ghost invariant = { λ l. l.unit < 4 };

    ghost inverse = { λ n. record { unit = n } };
}

impl Lun {
    /// The logical unit with this number; `None` exactly for a number above 3.
    pub fn new(unit: u8) -> Option<Lun>
        ensures valid { IsSome result ↔ (unit < 4) }
        ensures value { IfSome result (λ l. l ≡ unit) }
    {
        if unit < 4 { Some(Lun { unit }) } else { None }
    }

    /// Its number, 0 to 3.
    pub fn number(self) -> u8
        ensures value { result ≡ self }
        ensures bound { result < 4 }
    {
        self.unit
    }
}
