//! What is noted of one record of a directory.
ghost use Rattle.std.specs.Prelude.{◌≡◌, ◌≤◌, ◌+◌, ◌⊎◌, ◌↔◌, ℕ, true, length, IsTrue};
ghost use Rattle.f11_findings.specs.Finding.{finding};
ghost use Rattle.f11_index.specs.Table.{Table};
ghost use Rattle.f11_rad50.specs.Name.{IsName};
ghost use Rattle.f11_vfy.specs.Surveying.Bits.{has, limit_of};
ghost use Rattle.f11_vfy.specs.Chain.{KeepsTable};
ghost use Rattle.f11_vfy.specs.Directory.Flaws.{flaw_code};
ghost use Rattle.f11_volume.specs.Notes.{IsIdOf};

use crate::survey::bits::Bits;
use crate::survey::slot::{Slot, State};
use f11_findings::Finding;
use f11_rad50::Name;
use f11_store::FileId;

/// What may be wrong with a record that isn't empty.
#[derive(Clone, Copy, Debug, PartialEq, Eq)]
pub(crate) enum Flaw {
    /// It names no file.
    NoFile,
    /// An earlier one has the same name.
    Repeated,
    /// It has no name.
    NoName,
}

impl Flaw {
    /// Its code.
    fn code(self) -> u8
        ensures { result ≡ flaw_code self }
    {
        match self {
            Flaw::NoFile => 7,
            Flaw::Repeated => 8,
            Flaw::NoName => 9,
        }
    }

    /// The finding of it, of record `i` of directory `d`.
    pub(crate) fn of(self, d: u16, i: u32) -> Finding
        ensures { result ≡ finding (flaw_code self) d i }
    {
        Finding {
            code: self.code(),
            a: u32::from(d),
            b: i,
        }
    }
}

/// Whether an identification is that of the file of its slot.
fn is_of(slot: &Slot, id: FileId) -> bool
    ensures { IsTrue result ↔ (((slot.now.state ≡ State.Live) × (slot.now.segment ≡ 0))
        × ((slot.now.sequence ≡ id.sequence) × (id.volume ≡ 0))) }
{
    slot.is_file() && (slot.sequence == id.sequence && id.volume == 0)
}

/// Whether an identification is that of a file.
fn names_file(slots: &[Slot], id: FileId) -> bool
    ensures file { (t : Table) → KeepsTable t slots.now → IsTrue result ↔ IsIdOf t id id.number }
    ensures within { IsTrue result → id.number ≤ length slots.now }
{
    let n = usize::from(id.number);
    if n == 0 {
        return false;
    }
    if n > slots.len() {
        return false;
    }
    is_of(&slots[n - 1], id)
}

/// Whether five words are a name.
pub(crate) fn is_name(words: [u16; 5]) -> bool
    ensures { IsTrue result ↔ IsName words }
{
    Name::from_words(words).is_some()
}

/// Marks the file of which an identification is, and says whether there is one.
pub(crate) fn enter(slots: &[Slot], id: FileId, entered: &mut Bits) -> bool
    requires { limit_of entered.old ≡ length slots.now + 1 }
    ensures limit { limit_of entered.new ≡ limit_of entered.old }
    ensures told { (t : Table) → KeepsTable t slots.now → IsTrue result ↔ IsIdOf t id id.number }
    ensures enters { (t : Table) → KeepsTable t slots.now → (n : ℕ) → has entered.new n ≡ true
        ↔ ((has entered.old n ≡ true) ⊎ IsIdOf t id n) }
{
    let file = names_file(slots, id);
    if file {
        entered.insert(u32::from(id.number));
    }
    file
}
