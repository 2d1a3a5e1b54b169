//! A file with an identification is opened, whether or not its slot is in use.
ghost use Rattle.std.specs.Prelude.{◌≡◌, IfErr, IfOk, OnErr, length};
ghost use Rattle.f11_catalog.specs.Records.{Reads};
ghost use Rattle.f11_header.specs.Fields.{attributes};
ghost use Rattle.f11_index.specs.Kept.{index_kept, IndexLiesWithin};
ghost use Rattle.f11_reader.specs.Reading.{header_in_hand};
ghost use Rattle.f11_store.specs.File.{stated_end};
ghost use Rattle.f11_commands.specs.GetCommand.{LacksSought, OpensSought};
ghost use Rattle.f11_commands.specs.GetCommand.{file_identified};
ghost use Rattle.f11_commands.specs.OpenEnd.{has_lines, has_open_end, is_text, mode_of};

use crate::get::sought::Sought;
use f11_catalog::stated_end;
use f11_dev::{Device, DeviceFault};
use f11_flx::CopyMode;
use f11_header::Header;
use f11_index::IndexFile;
use f11_reader::FileReader;
use f11_store::{FileId, Refusal};

/// Opens the file with an identification, and reads off its header where it ends. One whose slot is in use comes before one whose slot
/// isn't.
pub(crate) fn open_file<D: Device>(
    device: &mut D,
    index: &IndexFile,
    wide: &IndexFile,
    id: FileId,
) -> Result<Result<Sought, Refusal>, DeviceFault>
    requires within { IndexLiesWithin (index_kept index.now) (length (D.disk device.old).image) }
    requires wide { IndexLiesWithin (index_kept wide.now) (length (D.disk device.old).image) }
    ensures found { IfOk result (λ answer. IfOk answer (λ found. OpensSought
        (λ image t. file_identified (index_kept wide.now) image t id)
        (index_kept index.now) (index_kept wide.now) found (D.disk device.old) (D.disk device.new))) }
    ensures none { IfOk result (λ answer. IfErr answer (λ refusal. LacksSought
        (λ image t. file_identified (index_kept wide.now) image t id)
        (index_kept index.now) refusal (D.disk device.old) (D.disk device.new))) }
    ensures failed { OnErr result (Reads (D.disk device.old) (D.disk device.new) 1) }
{
    match FileReader::open(device, index, id)? {
        Some(file) => Ok(Ok(found_file(file, true))),
        None => match FileReader::open(device, wide, id)? {
            Some(file) => Ok(Ok(found_file(file, false))),
            None => Ok(Err(Refusal::NoSuchFile)),
        },
    }
}

/// A file that was found, with the end that its header states.
fn found_file(file: FileReader, in_use: bool) -> Sought
    ensures file { result.file ≡ file }
    ensures end { result.end ≡ stated_end (attributes (header_in_hand file)) }
    ensures in_use { result.in_use ≡ in_use }
{
    let end = stated_end(&Header::new(file.header()).attributes());
    Sought { file, end, in_use }
}

/// Whether a file wasn't closed (UC.DLK) and states the end 0, as one does that was open when the system stopped.
pub(crate) fn has_open_end(file: &FileReader) -> bool
    ensures { result ≡ has_open_end file.now }
{
    let header = Header::new(file.header());
    stated_end(&header.attributes()) == 0 && header.characteristics() >> 6 & 1 == 1
}

/// The byte of the record type (F.RTYP).
const RECORD_TYPE: usize = 0;

/// The type of records of variable length (R.VAR).
const VARIABLE: u8 = 2;

/// The byte of record attributes (F.RATT).
const RECORD_ATTRIBUTES: usize = 1;

/// Whether its record attributes say how a printer goes on to the next line, so that its records are lines.
pub(crate) fn has_lines(file: &FileReader) -> bool
    ensures { result ≡ has_lines file.now }
{
    let attributes = Header::new(file.header()).attributes();
    attributes[RECORD_ATTRIBUTES] % 8 != 0
}

/// Whether its records are of variable length, and a carriage return stands behind each.
pub(crate) fn is_text(file: &FileReader) -> bool
    ensures { result ≡ is_text file.now }
{
    let attributes = Header::new(file.header()).attributes();
    attributes[RECORD_TYPE] == VARIABLE && attributes[RECORD_ATTRIBUTES] >> 1 & 1 == 1
}

/// As what a file is copied where its header decides: as text where its records are of variable length, and a carriage return stands behind
/// each.
pub(crate) fn mode_of(file: &FileReader) -> CopyMode
    ensures { result ≡ mode_of file.now }
{
    if is_text(file) {
        CopyMode::Text
    } else {
        CopyMode::Image
    }
}
