//! An entry of an RT-11 volume whose files are taken out: where it stands, and what becomes of it.
ghost use Rattle.std.specs.Prelude.{◌≡◌, find};
ghost use Rattle.f11_commands.specs.RtAll.{fate_by, file_at, is_lost, is_this, place_by, why_of};
ghost use Rattle.rt11_volume.specs.AnyDirectory.{is_sound_file_named};

use rt11_volume::{RtEntries, RtEntry, RtKind, RtName};
use std::fmt;

/// Where a file of a volume stands among those that are taken out.
#[derive(Clone, Copy, Debug, PartialEq, Eq)]
pub enum RtPlace {
    /// Under its name.
    Named(RtName),
    /// By its segment and its number in it, both from 1: it has no name, or isn't the first with it that can be taken out.
    Lost(u16, u16, Option<RtName>),
}

/// Why an entry isn't taken out.
#[derive(Clone, Copy, Debug, PartialEq, Eq)]
pub enum RtWhyNot {
    /// Its status says nothing of its area, or several things.
    StatusWrong,
    /// A directory may not give its area away.
    PastLastBlock,
    /// The file of the host can't be made.
    CannotMake,
}

/// What becomes of an entry.
#[derive(Clone, Copy, Debug, PartialEq, Eq)]
pub enum RtFate {
    /// Nothing: it is no file's.
    NoFile,
    /// Its file is taken out.
    Copied,
    /// It isn't, and that is told.
    NotCopied(RtWhyNot),
}

/// An entry, where it stands, and what becomes of it.
#[derive(Clone, Copy, Debug, PartialEq, Eq)]
pub struct RtFileAt {
    pub entry: RtEntry,
    pub place: RtPlace,
    pub fate: RtFate,
}

/// A name behind the numbers, if there is one.
#[derive(Clone, Copy)]
struct NameBehind(Option<RtName>);

impl fmt::Display for NameBehind {
    ghost use Rattle.std.specs.Prelude.{Some};
    ghost use Rattle.f11_commands.specs.RtAll.{name_behind};

    ghost output = { λ n. Some (name_behind n.0) };

    fn fmt<W: fmt::Write>(&self, f: &mut fmt::Formatter<W>) -> fmt::Result {
        match self.0 {
            Some(name) => write!(f, " {name}"),
            None => Ok(()),
        }
    }
}

impl fmt::Display for RtPlace {
    ghost use Rattle.std.specs.Prelude.{Some};
    ghost use Rattle.f11_commands.specs.RtAll.{rt_place_text};

    ghost output = { λ place. Some (rt_place_text place) };

    /// Writes `NAME.TYP`, `lost/S,E NAME.TYP` or `lost/S,E`.
    fn fmt<W: fmt::Write>(&self, f: &mut fmt::Formatter<W>) -> fmt::Result {
        match *self {
            RtPlace::Named(name) => write!(f, "{name}"),
            RtPlace::Lost(segment, number, name) => {
                let behind = NameBehind(name);
                write!(f, "lost/{segment},{number}{behind}")
            }
        }
    }
}

impl fmt::Display for RtWhyNot {
    ghost use Rattle.std.specs.Prelude.{Some};
    ghost use Rattle.f11_commands.specs.RtAll.{why_not_text};

    ghost output = { λ why. Some (why_not_text why) };

    fn fmt<W: fmt::Write>(&self, f: &mut fmt::Formatter<W>) -> fmt::Result {
        match self {
            RtWhyNot::StatusWrong => write!(f, "status wrong"),
            RtWhyNot::PastLastBlock => write!(f, "past block 65534"),
            RtWhyNot::CannotMake => write!(f, "cannot be made"),
        }
    }
}

/// Whether a place is in `lost`.
pub(crate) fn is_lost(place: &RtPlace) -> bool
    ensures { result ≡ is_lost place.now }
{
    match place {
        RtPlace::Named(_) => false,
        RtPlace::Lost(_, _, _) => true,
    }
}

/// Why an entry wasn't taken out of which this was to become.
pub(crate) fn why_of(fate: &RtFate) -> RtWhyNot
    ensures { result ≡ why_of fate.now }
{
    match fate {
        RtFate::NotCopied(why) => *why,
        RtFate::NoFile => RtWhyNot::CannotMake,
        RtFate::Copied => RtWhyNot::CannotMake,
    }
}

/// An entry among those of a volume.
pub(crate) fn file_at(entries: &RtEntries, entry: &RtEntry) -> RtFileAt
    ensures { result ≡ file_at entries.now entry.now }
{
    RtFileAt {
        entry: *entry,
        place: place_by(entries, entry, entry.name),
        fate: fate_by(entry.kind, entry.fits()),
    }
}

/// What becomes of an entry.
fn fate_by(kind: Option<RtKind>, fits: bool) -> RtFate
    ensures { result ≡ fate_by kind fits }
{
    match kind {
        Some(RtKind::Permanent) => {
            if fits {
                RtFate::Copied
            } else {
                RtFate::NotCopied(RtWhyNot::PastLastBlock)
            }
        }
        Some(RtKind::Tentative) => RtFate::NoFile,
        Some(RtKind::Empty) => RtFate::NoFile,
        None => RtFate::NotCopied(RtWhyNot::StatusWrong),
    }
}

/// Where an entry of this name stands.
fn place_by(entries: &RtEntries, entry: &RtEntry, name: Option<RtName>) -> RtPlace
    ensures { result ≡ place_by entries.now entry.now name }
{
    match name {
        Some(name) => {
            if is_this(entry, entries.find(&name)) {
                RtPlace::Named(name)
            } else {
                RtPlace::Lost(entry.segment, entry.number, Some(name))
            }
        }
        None => RtPlace::Lost(entry.segment, entry.number, None),
    }
}

/// Whether an entry is this one.
fn is_this(entry: &RtEntry, other: Option<RtEntry>) -> bool
    ensures { result ≡ is_this entry.now other }
{
    match other {
        Some(other) => other.segment == entry.segment && other.number == entry.number,
        None => false,
    }
}
