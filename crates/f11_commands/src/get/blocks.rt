//! A file is taken up to its last block.
ghost use Rattle.std.specs.Prelude.{◌*◌, ◌+◌, IfErr, IfOk, OnErr, length};
ghost use Rattle.f11_commands.specs.FoundFile.{EndsAtLast, FindsLastEnd, device_with, reader_of};
ghost use Rattle.f11_dev.specs.Looked.{Looked};
ghost use Rattle.f11_index.specs.Kept.{index_kept, IndexLiesWithin};
ghost use Rattle.f11_reader.specs.Reading.{IsReading, headers_left};

use crate::get::found::FoundFile;
use f11_dev::{Device, DeviceFault};
use f11_index::IndexFile;
use f11_reader::FileReader;

/// The same file, whose end is behind its last block, or where it states, if that is past it: so all that its blocks have is taken out, also
/// what stands behind the end, or the whole file where none is stated, and it is told where it has fewer. Where its headers break off, so
/// that it may have more blocks, its end is past the last one. It reads the headers that follow the first, each twice.
///
/// # Errors
///
/// The device, where a transfer failed.
pub fn to_last_block<D: Device>(found: FoundFile<D>) -> Result<FoundFile<D>, D>
    ensures ends { IfOk result (λ later. EndsAtLast D.disk found later) }
    ensures failed { IfErr result (λ device. Looked (D.disk (device_with found)) (D.disk device)
        (2 * headers_left (reader_of found)) 1) }
{
    let FoundFile {
        device,
        index,
        file,
        end: stated,
        size,
        in_use,
        faulty,
    } = found;
    let mut device = device;
    match last_end(&mut device, &index, &file) {
        Ok((end, _)) => Ok(FoundFile {
            device,
            index,
            file,
            end: end.max(stated),
            size,
            in_use,
            faulty,
        }),
        Err(DeviceFault) => Err(device),
    }
}

/// The end in bytes behind the last block of a file that is reached, and how many blocks these are: past it where its headers break off
/// there.
pub(crate) fn last_end<D: Device>(
    device: &mut D,
    index: &IndexFile,
    file: &FileReader,
) -> Result<(u64, u32), DeviceFault>
    requires within { IndexLiesWithin (index_kept index.now) (length (D.disk device.old).image) }
    requires reading { IsReading (index_kept index.now) file.now (D.disk device.old) }
    ensures finds { IfOk result (λ end. FindsLastEnd (index_kept index.now) file.now end.0 end.1
        (D.disk device.old) (D.disk device.new)) }
    ensures failed { OnErr result
        (Looked (D.disk device.old) (D.disk device.new) (2 * headers_left file.now) 1) }
{
    let blocks = file.count(device, index)?;
    if file.is_whole(device, index)? {
        Ok((512 * u64::from(blocks), blocks))
    } else {
        Ok((512 * u64::from(blocks) + 1, blocks))
    }
}
