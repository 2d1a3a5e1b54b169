//! Whether all records of a file can be read.
ghost use Rattle.std.specs.Prelude.{◌≡◌, ◌≤◌, false, true, length, IfOk, OnErr};
ghost use Rattle.f11_commands.specs.TakingOut.{ReadsBefore};
ghost use Rattle.f11_commands.specs.TakingText.{ReadsRecords, SkimsBad, SkimsFile, SkimsGood, TellsRecords};
ghost use Rattle.f11_flx.specs.ToText.{ends_record, rest_of};
ghost use Rattle.f11_index.specs.Kept.{index_kept, IndexLiesWithin};
ghost use Rattle.f11_reader.specs.Reading.{IsReading};

use crate::text::blocks_before;
use f11_bytes::BLOCK_SIZE;
use f11_dev::{Device, DeviceFault};
use f11_flx::{LineEnd, ToText};
use f11_header::Header;
use f11_index::IndexFile;
use f11_reader::FileReader;

/// Whether all records of a file, all of whose blocks are still to come, can be read up to its end: none goes past it, and the attributes
/// say how records lie. It makes at most so many transfers: two for each header that the file may still have, one for each block before
/// the end, and one that fails. No memory is taken.
///
/// # Errors
///
/// [`DeviceFault`] where a transfer failed.
pub(crate) fn has_all_records<D: Device>(
    device: &mut D,
    index: &IndexFile,
    file: FileReader,
) -> Result<bool, DeviceFault>
    requires within { IndexLiesWithin (index_kept index.now) (length (D.disk device.old).image) }
    requires reading { IsReading (index_kept index.now) file (D.disk device.old) }
    ensures tells { IfOk result (λ answer. TellsRecords (index_kept index.now) file answer
        (D.disk device.old) (D.disk device.new)) }
    ensures failed { OnErr result (ReadsRecords (index_kept index.now) file
        (D.disk device.old) (D.disk device.new) 1) }
{
    let attr = Header::new(file.header()).attributes();
    let blocks = blocks_before(device, index, file, None)?;
    match ToText::ending(&attr, blocks, LineEnd::Lf) {
        Ok(text) => skim_file(device, index, file, text),
        Err(_) => Ok(false),
    }
}

/// Whether a conversion makes a text of all of a file: no record goes past the end.
fn skim_file<D: Device>(
    device: &mut D,
    index: &IndexFile,
    file: FileReader,
    text: ToText,
) -> Result<bool, DeviceFault>
    requires within { IndexLiesWithin (index_kept index.now) (length (D.disk device.old).image) }
    requires reading { IsReading (index_kept index.now) file (D.disk device.old) }
    requires begins { ends_record text ≡ false }
    ensures skims { IfOk result (λ answer. SkimsFile (index_kept index.now) file text answer
        (D.disk device.old) (D.disk device.new)) }
    ensures failed { OnErr result (ReadsBefore (index_kept index.now) file (rest_of text)
        (D.disk device.old) (D.disk device.new) 1) }
{
    let (mut reader, mut text) = (file, text);
    let mut block = [0; BLOCK_SIZE];
    while text.rest() > 0 {
        if !reader.read(device, index, &mut block)? {
            return Ok(true);
        }
        let size = text.rest().min(512) as usize;
        if !skim(&mut text, &block[..size]) {
            return Ok(false);
        }
    }
    Ok(true)
}

/// Converts bytes of a file, and keeps nothing of it: whether no record in them goes past the end.
fn skim(text: &mut ToText, source: &[u8]) -> bool
    requires few { length source.now ≤ rest_of text.old }
    ensures good { result ≡ true → SkimsGood text.old text.new source.now }
    ensures bad { result ≡ false → SkimsBad text.old source.now }
{
    let mut piece = [0; BLOCK_SIZE];
    let mut used = 0;
    loop {
        let (read, to, bad) = text.convert_good(&source[used..], &mut piece, 0);
        if bad {
            return false;
        }
        used += read;
        if to < BLOCK_SIZE {
            return true;
        }
    }
}
