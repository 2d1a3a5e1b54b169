//! Directories found by their identifications.
ghost use Rattle.std.specs.Prelude.{◌≡◌, IfErr, IfOk, OnErr, false, length};
ghost use Rattle.f11_catalog.specs.Facts.{is_directory_header};
ghost use Rattle.f11_catalog.specs.Records.{BeginsDirectory};
ghost use Rattle.f11_dev.specs.Looked.{Looked};
ghost use Rattle.f11_index.specs.Kept.{index_kept, IndexLiesWithin};
ghost use Rattle.f11_reader.specs.Reading.{header_in_hand};
ghost use Rattle.f11_store.specs.declared.refusals.Refusal.TheVariants as refusals;
ghost use Rattle.f11_volume.specs.map.HeaderBlock.{segment_number};

use crate::directory::DirectoryReader;
use f11_dev::{Device, DeviceFault};
use f11_index::IndexFile;
use f11_reader::FileReader;
use f11_store::{FileId, Refusal};

/// A directory that was found by its identification. It is read by the index file in which it was found.
#[derive(Clone, Copy)]
pub(crate) struct FoundDirectory {
    /// The directory.
    pub(crate) directory: DirectoryReader,
    /// Whether the bit of its slot says that it is in use.
    pub(crate) in_use: bool,
}

/// A file as the directory that was found, if it is one: all its records are to come.
fn as_directory(file: FileReader, in_use: bool) -> Result<FoundDirectory, Refusal>
    requires first { segment_number (header_in_hand file) ≡ 0 }
    ensures begins { IfOk result (λ found. (found.in_use ≡ in_use)
        × BeginsDirectory file found.directory) }
    ensures other { IfErr result (λ refusal. (refusal ≡ refusals.NotDirectory)
        × (is_directory_header (header_in_hand file) ≡ false)) }
{
    match DirectoryReader::of(file) {
        Some(directory) => Ok(FoundDirectory { directory, in_use }),
        None => Err(Refusal::NotDirectory),
    }
}

impl FoundDirectory {
    ghost use Rattle.f11_catalog.specs.Records.{FindsDirectory, LacksDirectory, index_by as index_between};

    /// The index file by which it is read: the volume's, or `wide`, which takes each slot as in use.
    pub(crate) fn index_by<'a>(&self, index: &'a IndexFile, wide: &'a IndexFile) -> &'a IndexFile
        ensures { index_kept result.now
            ≡ index_between self.now.in_use (index_kept index.now) (index_kept wide.now) }
    {
        if self.in_use { index } else { wide }
    }

    /// The directory with an identification, whose records are all to come. A file whose slot is in use comes before one whose slot isn't,
    /// which is found by `wide`, the index file that takes each slot as in use. Two transfers at most.
    ///
    /// # Errors
    ///
    /// `DeviceFault` where a transfer failed. Within: `NoSuchFile` where there is no file with that identification, and `NotDirectory`
    /// where that is no directory.
    pub(crate) fn open<D: Device>(
        device: &mut D,
        index: &IndexFile,
        wide: &IndexFile,
        id: FileId,
    ) -> Result<Result<FoundDirectory, Refusal>, DeviceFault>
        requires within { IndexLiesWithin (index_kept index.now) (length (D.disk device.old).image) }
        requires wide { IndexLiesWithin (index_kept wide.now) (length (D.disk device.old).image) }
        ensures opens { IfOk result (λ answer. IfOk answer (λ found.
            FindsDirectory (index_kept index.now) (index_kept wide.now) id found
            (D.disk device.old) (D.disk device.new))) }
        ensures refused { IfOk result (λ answer. IfErr answer (λ refusal.
            LacksDirectory (index_kept index.now) (index_kept wide.now) id refusal
            (D.disk device.old) (D.disk device.new))) }
        ensures failed { OnErr result (Looked (D.disk device.old) (D.disk device.new) 2 1) }
    {
        match FileReader::open(device, index, id)? {
            Some(file) => Ok(as_directory(file, true)),
            None => match FileReader::open(device, wide, id)? {
                Some(file) => Ok(as_directory(file, false)),
                None => Ok(Err(Refusal::NoSuchFile)),
            },
        }
    }
}
