//! How far a file's text was taken out.
ghost use Rattle.std.specs.Prelude.{◌≡◌, if◌then◌else◌, length, IfOk, OnErr, Some};
ghost use Rattle.f11_catalog.specs.Records.{Reads};
ghost use Rattle.f11_commands.specs.AllText.{WritesTaken};
ghost use Rattle.f11_index.specs.Kept.{index_kept, IndexLiesWithin};
ghost use Rattle.f11_reader.specs.Reading.{IsReading};

use crate::get::all::taking::HostFull;
use crate::outcome::Failure;
use crate::text::write_text;
use f11_dev::Device;
use f11_index::IndexFile;
use f11_reader::FileReader;
use std::fmt;
use std::io::Write;

/// How far a file's text was taken out.
#[derive(Clone, Copy)]
pub(crate) enum TakenText {
    /// The text of all its records: so many bytes.
    Whole(u64),
    /// That of the records before the first that goes past the end.
    Bad,
    /// A beginning of it, since a transfer failed.
    Broke,
}

impl TakenText {
    ghost use Rattle.f11_commands.specs.AllText.{text_has_failed, text_is_cut};

    /// Whether some of it is wanting.
    pub(crate) fn is_cut(&self) -> bool
        ensures { result ≡ text_is_cut self.now }
    {
        match self {
            TakenText::Whole(_) => false,
            TakenText::Bad => true,
            TakenText::Broke => true,
        }
    }

    /// Whether a transfer failed.
    pub(crate) fn has_failed(&self) -> bool
        ensures { result ≡ text_has_failed self.now }
    {
        match self {
            TakenText::Whole(_) => false,
            TakenText::Bad => false,
            TakenText::Broke => true,
        }
    }
}

impl fmt::Display for TakenText {
    ghost use Rattle.f11_commands.specs.AllText.{how_much};

    ghost output = { λ taken. Some (how_much taken) };

    /// Writes `N bytes`, or `a beginning` (profile).
    fn fmt<W: fmt::Write>(&self, f: &mut fmt::Formatter<W>) -> fmt::Result {
        match self {
            TakenText::Whole(bytes) => write!(f, "{bytes} bytes"),
            TakenText::Bad => write!(f, "a beginning"),
            TakenText::Broke => write!(f, "a beginning"),
        }
    }
}

/// Writes a file's text to the host as [`take_text`] does, by the index file where its slot is in use, else by that with each slot in use.
///
/// # Errors
///
/// [`HostFull`] where the host takes no more: then it may hold a part.
pub(crate) fn take_text_by<D: Device, H: Write>(
    device: &mut D,
    index: &IndexFile,
    wide: &IndexFile,
    in_use: bool,
    file: &FileReader,
    host: &mut H,
) -> Result<TakenText, HostFull>
    requires within { IndexLiesWithin (index_kept index.now) (length (D.disk device.old).image) }
    requires wide { IndexLiesWithin (index_kept wide.now) (length (D.disk device.old).image) }
    requires reading { IsReading (if in_use then index_kept index.now else index_kept wide.now)
        file.now (D.disk device.old) }
    ensures takes { IfOk result (λ taken. WritesTaken taken
        (if in_use then index_kept index.now else index_kept wide.now) file.now
        (D.disk device.old) (D.disk device.new) H.contents host.old host.new) }
    ensures full { OnErr result (Reads (D.disk device.old) (D.disk device.new) 0) }
{
    if in_use {
        take_text(device, index, file, host)
    } else {
        take_text(device, wide, file, host)
    }
}

/// Writes the text of a file's records to the host, up to its end, or before a record that goes past it. Where a transfer fails it stops
/// there.
///
/// # Errors
///
/// [`HostFull`] where the host takes no more: then it may hold a part.
fn take_text<D: Device, H: Write>(
    device: &mut D,
    index: &IndexFile,
    file: &FileReader,
    host: &mut H,
) -> Result<TakenText, HostFull>
    requires within { IndexLiesWithin (index_kept index.now) (length (D.disk device.old).image) }
    requires reading { IsReading (index_kept index.now) file.now (D.disk device.old) }
    ensures takes { IfOk result (λ taken. WritesTaken taken (index_kept index.now) file.now
        (D.disk device.old) (D.disk device.new) H.contents host.old host.new) }
    ensures full { OnErr result (Reads (D.disk device.old) (D.disk device.new) 0) }
{
    match write_text(device, index, *file, None, host) {
        Ok(Ok(bytes)) => Ok(TakenText::Whole(bytes)),
        Ok(Err(_)) => Ok(TakenText::Bad),
        Err(failure) => match failure {
            Failure::DeviceFault => Ok(TakenText::Broke),
            Failure::CannotWrite => Err(HostFull),
            Failure::NoMemory => Err(HostFull),
        },
    }
}
