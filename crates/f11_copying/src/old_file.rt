//! A file of a volume that is copied, as a source of its blocks.
ghost use Rattle.std.specs.Prelude.{◌≡◌, ◌||◌, not, nat_lt, length, IfOk, OnErr};
ghost use Rattle.f11_index.specs.Kept.{index_kept, IndexLiesWithin};
ghost use Rattle.f11_reader.specs.Reading.{IsReading};
ghost use Rattle.f11_copying.specs.OldHeader.{there_of};

use crate::file::FileToMake;
use crate::old_header::file_told;
use crate::source::Blocks;
use f11_bytes::Block;
use f11_dev::{Device, DeviceFault};
use f11_index::IndexFile;
use f11_reader::FileReader;

/// A file of any volume, sound or not: its blocks come one after another, as `f11_reader` reads them, until there is none, or a transfer of
/// the device fails.
#[derive(Drop)]
pub struct OldFile<D: Device> {
    device: D,
    index: IndexFile,
    reader: FileReader,
    ghost within: { IndexLiesWithin (index_kept index) (length (D.disk device).image) },
    ghost reading: { IsReading (index_kept index) reader (D.disk device) },
}

impl<D: Device> OldFile<D> {
    ghost use Rattle.f11_copying.specs.OldFile.{behind_file, index_in, is_first, FailsToTell, IsBegun, TellsOld};

    /// The file that `reader` has in hand, by an index file of the device.
    pub fn new(device: D, index: IndexFile, reader: FileReader) -> OldFile<D>
        requires within { IndexLiesWithin (index_kept index) (length (D.disk device).image) }
        requires reading { IsReading (index_kept index) reader (D.disk device) }
        ensures begun { IsBegun device index reader result }
    {
        OldFile {
            device,
            index,
            reader,
        }
    }

    /// What is to be made of the file, whose first header is in hand: as that header says, with the blocks that are still to come and there:
    /// those up to the first that doesn't lie among the first `size` blocks of the device. So it is of the whole file before one came. Where
    /// `size` is more than the device has, blocks past its end count as there, and come as zeros. Headers alone are read.
    ///
    /// # Errors
    ///
    /// `DeviceFault` where a transfer failed.
    pub fn told(&mut self, size: u32) -> Result<FileToMake, DeviceFault>
        requires first { is_first self.old }
        ensures tells { IfOk result (TellsOld D.disk size self.old self.new) }
        ensures failed { OnErr result (FailsToTell D.disk self.old self.new) }
    {
        let count = self.reader.count(&mut self.device, &self.index)?;
        let missing = self
            .reader
            .first_missing(&mut self.device, &self.index, u64::from(count), size)?;
        let is_whole = self.reader.is_whole(&mut self.device, &self.index)?;
        let there = there_of(count, missing);
        Ok(file_told(self.reader.header(), there, is_cut(is_whole, there, count)))
    }

    /// Gives the device and its index file back, as they are.
    pub fn end(self) -> (D, IndexFile)
        ensures device { result.0 ≡ behind_file self }
        ensures index { result.1 ≡ index_in self }
    {
        let OldFile {
            device,
            index,
            reader: _,
        } = self;
        (device, index)
    }
}

/// How many blocks of so many are there, where this is the VBN of the first that isn't, if there is one.
fn there_of(count: u32, missing: Option<u64>) -> u32
    ensures { result ≡ there_of count missing }
{
    match missing {
        Some(vbn) => vbn.saturating_sub(1).min(u64::from(count)) as u32,
        None => count,
    }
}

/// Whether a file is cut of which so many blocks of so many are there: its headers break off, or not all are.
fn is_cut(is_whole: bool, there: u32, count: u32) -> bool
    ensures { result ≡ (not is_whole || nat_lt there count) }
{
    !is_whole || there < count
}

impl<D: Device> Blocks for OldFile<D> {
    ghost use Rattle.f11_copying.specs.OldFile.{GivesOld};

    ghost gives = { GivesOld D.disk };

    fn next(&mut self, block: &mut Block) -> bool {
        match self.reader.read(&mut self.device, &self.index, block) {
            Ok(is_there) => is_there,
            Err(_) => false,
        }
    }
}
