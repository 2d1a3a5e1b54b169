//! The line of a record of a directory.
ghost use Rattle.std.specs.Prelude.{◌≡◌, OnOk, IfErr, length, List, None, ℕ};
ghost use Rattle.std.specs.Io.KnownBytes.{Appends};
ghost use Rattle.f11_dir.specs.Records.{record_of_bytes};
ghost use Rattle.f11_index.specs.Kept.{index_kept, IndexLiesWithin};
ghost use Rattle.f11_catalog.specs.Lines.{record_line, file_line, entry_line, found_shown, named_line};
ghost use Rattle.f11_catalog.specs.Records.{file_named};
ghost use Rattle.f11_catalog.specs.Listing.{Writes, WritesFile, BreaksOff};
ghost use Rattle.f11_reader.specs.Reading.{IsReading, header_in_hand};
ghost use Rattle.f11_volume.specs.map.HeaderBlock.{segment_number};

use crate::facts::FileFacts;
use crate::fault::ListFault;
use crate::line_form::LineForm;
use crate::shown::{ShownMarks, ShownMore, ShownName, ShownProtection, ShownUse};
use f11_dev::{Device, DeviceFault};
use f11_dir::Record;
use f11_index::IndexFile;
use f11_rad50::Name;
use f11_reader::FileReader;
use f11_store::FileId;
use std::io::{self, Write};

/// Writes the line of a record of a directory: `file NAME.TYP;V N,S blocks B bytes E owner [g,m] prot W`, and behind it ` contiguous`,
/// ` marked` or ` open` where the file is that, and ` out of use` where the bit of its slot is 0, with `?` for a name that is none; or `entry NAME.TYP;V N,S no file` where the record
/// names no file. Nothing for an empty record. Protection word, user's code and a name's version are octal, all else is decimal (profile). In
/// a long line the protection is `[RWED,RWED,RWED,R]`, and dates and how records are kept stand behind it ([`LineForm::Long`]).
///
/// # Errors
///
/// [`ListFault::DeviceFault`] where a transfer failed, and [`ListFault::CannotWrite`] where the writer takes no more.
pub(crate) fn write_record<D: Device, W: Write>(
    device: &mut D,
    index: &IndexFile,
    wide: &IndexFile,
    writer: &mut W,
    form: LineForm,
    record: &Record,
) -> Result<(), ListFault>
    requires within { IndexLiesWithin (index_kept index.now) (length (D.disk device.old).image) }
    requires wide { IndexLiesWithin (index_kept wide.now) (length (D.disk device.old).image) }
    ensures writes { OnOk result ((bytes : List ℕ) → «record».now ≡ record_of_bytes bytes
        → Writes (λ image t. record_line form (index_kept wide.now) image t bytes)
        (index_kept index.now)
        (D.disk device.old) (D.disk device.new) W.contents writer.old writer.new) }
    ensures failed { IfErr result (λ fault. BreaksOff fault (D.disk device.old) (D.disk device.new)) }
{
    if record.is_empty() {
        return Ok(());
    }
    let name = record.name();
    match FileReader::open(device, index, record.id) {
        Ok(Some(file)) => write_found(device, index, writer, form, name, record.id, &file, true),
        Ok(None) => write_out_of_use(device, wide, writer, form, name, record.id),
        Err(DeviceFault) => Err(ListFault::DeviceFault),
    }
}

/// Writes the line of the file that has an identification though its slot isn't in use, or that there is none.
fn write_out_of_use<D: Device, W: Write>(
    device: &mut D,
    wide: &IndexFile,
    writer: &mut W,
    form: LineForm,
    name: Option<Name>,
    id: FileId,
) -> Result<(), ListFault>
    requires within { IndexLiesWithin (index_kept wide.now) (length (D.disk device.old).image) }
    ensures writes { OnOk result (Writes (λ image t. named_line form (found_shown name) id None
        (file_named image t id)) (index_kept wide.now)
        (D.disk device.old) (D.disk device.new) W.contents writer.old writer.new) }
    ensures failed { IfErr result (λ fault. BreaksOff fault (D.disk device.old) (D.disk device.new)) }
{
    match FileReader::open(device, wide, id) {
        Ok(Some(file)) => write_found(device, wide, writer, form, name, id, &file, false),
        Ok(None) => match write_entry(writer, name, id) {
            Ok(()) => Ok(()),
            Err(_) => Err(ListFault::CannotWrite),
        },
        Err(DeviceFault) => Err(ListFault::DeviceFault),
    }
}

/// Writes the line of a file that was found, whose blocks are all to come.
fn write_found<D: Device, W: Write>(
    device: &mut D,
    index: &IndexFile,
    writer: &mut W,
    form: LineForm,
    name: Option<Name>,
    id: FileId,
    file: &FileReader,
    in_use: bool,
) -> Result<(), ListFault>
    requires within { IndexLiesWithin (index_kept index.now) (length (D.disk device.old).image) }
    requires reading { IsReading (index_kept index.now) file.now (D.disk device.old) }
    requires first { segment_number (header_in_hand file.now) ≡ 0 }
    ensures writes { OnOk result (WritesFile form (index_kept index.now) in_use (found_shown name) id file.now
        (D.disk device.old) (D.disk device.new) W.contents writer.old writer.new) }
    ensures failed { IfErr result (λ fault. BreaksOff fault (D.disk device.old) (D.disk device.new)) }
{
    let blocks = match file.count(device, index) {
        Ok(blocks) => blocks,
        Err(DeviceFault) => return Err(ListFault::DeviceFault),
    };
    let facts = FileFacts::of(file.header(), blocks);
    match write_file(writer, form, name, id, &facts, in_use) {
        Ok(()) => Ok(()),
        Err(_) => Err(ListFault::CannotWrite),
    }
}

/// Writes the line of a file.
fn write_file<W: Write>(
    writer: &mut W,
    form: LineForm,
    name: Option<Name>,
    id: FileId,
    facts: &FileFacts,
    in_use: bool,
) -> io::Result<()>
    ensures { OnOk result (Appends (W.contents writer.old) (W.contents writer.new)
        (file_line form in_use (found_shown name) id facts.now)) }
{
    let FileFacts {
        blocks,
        bytes,
        owner,
        protection,
        characteristics,
        dates: _,
        records: _,
    } = *facts;
    let name = ShownName(name);
    let marks = ShownMarks(characteristics);
    let out_of_use = ShownUse(in_use);
    let protection = ShownProtection(form, protection);
    let more = ShownMore(form, *facts);
    writeln!(
        writer,
        "file {name} {id} blocks {blocks} bytes {bytes} owner {owner} prot {protection}{more}{marks}{out_of_use}"
    )
}

/// Writes the line of a record that names no file.
fn write_entry<W: Write>(writer: &mut W, name: Option<Name>, id: FileId) -> io::Result<()>
    ensures { OnOk result (Appends (W.contents writer.old) (W.contents writer.new)
        (entry_line (found_shown name) id)) }
{
    let name = ShownName(name);
    writeln!(writer, "entry {name} {id} no file")
}
