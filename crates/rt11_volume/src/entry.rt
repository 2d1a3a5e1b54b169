//! An entry of the directory.
ghost use Rattle.std.specs.Prelude.{◌≡◌, ◌<◌, ◌&&◌};
ghost use Rattle.rt11_volume.specs.AnyDirectory.{only_kind};
ghost use Rattle.rt11_volume.specs.Entry.{has_bit, is_one_kind, is_same_name, kind_of};

use crate::area::RtKind;

/// The bit of a tentative area in a status word: octal 400.
pub(crate) const TENTATIVE: u32 = 8;

/// The bit of an empty area: octal 1000.
pub(crate) const EMPTY: u32 = 9;

/// The bit of a file: octal 2000.
pub(crate) const PERMANENT: u32 = 10;

/// The bit of an end mark: octal 4000.
pub(crate) const END: u32 = 11;

/// The bit of a protected file: octal 100000.
pub(crate) const PROTECTED: u32 = 15;

/// What is read of an entry.
#[derive(Clone, Copy)]
pub(crate) struct Entry {
    /// The status word.
    pub(crate) status: u16,
    /// The two words of the name and the one of the type.
    pub(crate) name: [u16; 3],
    /// The length in blocks.
    pub(crate) length: u16,
    /// The date.
    pub(crate) date: u16,
}

impl Entry {
    /// Whether it is that of a tentative area, and of no other kind.
    pub(crate) fn is_tentative(&self) -> bool
        ensures { result ≡ (is_one_kind self.now.status && has_bit self.now.status 8) }
    {
        is_one_kind(self.status) && has_bit(self.status, TENTATIVE)
    }

    /// Whether it is that of an empty area.
    pub(crate) fn is_empty(&self) -> bool
        ensures { result ≡ (is_one_kind self.now.status && has_bit self.now.status 9) }
    {
        is_one_kind(self.status) && has_bit(self.status, EMPTY)
    }

    /// Whether it is that of a file.
    pub(crate) fn is_permanent(&self) -> bool
        ensures { result ≡ (is_one_kind self.now.status && has_bit self.now.status 10) }
    {
        is_one_kind(self.status) && has_bit(self.status, PERMANENT)
    }

    /// The kind of its area.
    pub(crate) fn kind(&self) -> RtKind
        ensures { result ≡ kind_of self.now.status }
    {
        if has_bit(self.status, TENTATIVE) {
            RtKind::Tentative
        } else if has_bit(self.status, EMPTY) {
            RtKind::Empty
        } else {
            RtKind::Permanent
        }
    }

    /// The kind of its area, where its status says exactly one.
    pub(crate) fn only_kind(&self) -> Option<RtKind>
        ensures { result ≡ only_kind self.now.status }
    {
        if is_one_kind(self.status) {
            Some(self.kind())
        } else {
            None
        }
    }

    /// Whether it is protected.
    pub(crate) fn is_protected(&self) -> bool
        ensures { result ≡ has_bit self.now.status 15 }
    {
        has_bit(self.status, PROTECTED)
    }

    /// Whether it is that of a file of this name.
    pub(crate) fn is_file_named(&self, name: [u16; 3]) -> bool
        ensures { result ≡ ((is_one_kind self.now.status && has_bit self.now.status 10)
            && is_same_name self.now.name name) }
    {
        self.is_permanent() && is_same_name(self.name, name)
    }
}

/// Whether two names are the same.
pub(crate) fn is_same_name(one: [u16; 3], other: [u16; 3]) -> bool
    ensures { result ≡ is_same_name one other }
{
    one[0] == other[0] && (one[1] == other[1] && one[2] == other[2])
}

/// Whether bit `k` of a word is 1.
pub(crate) fn has_bit(word: u16, k: u32) -> bool
    requires { k < 16 }
    ensures { result ≡ has_bit word k }
{
    word >> k & 1 == 1
}

/// Whether a status word is that of exactly one kind of area.
pub(crate) fn is_one_kind(status: u16) -> bool
    ensures { result ≡ is_one_kind status }
{
    (status >> TENTATIVE & 1) + (status >> EMPTY & 1) + (status >> PERMANENT & 1) == 1
}
