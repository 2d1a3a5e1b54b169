//! The records of directories, read.
ghost use Rattle.std.specs.Prelude.{◌≡◌, ◌<◌, ◌^◌, length, IfOk, IfSome, IfNone, IsTrue, OnErr, true, false};
ghost use Rattle.f11_header.specs.Fields.{attributes as attributes_of};
ghost use Rattle.f11_header.specs.Header.{holds_header};
ghost use Rattle.f11_catalog.specs.Facts.{is_directory_header};
ghost use Rattle.f11_catalog.specs.Records.{BeginsDirectory};
ghost use Rattle.f11_reader.specs.Reading.{header_in_hand};
ghost use Rattle.f11_volume.specs.map.HeaderBlock.{segment_number};
ghost use Rattle.f11_index.specs.Kept.{index_kept, IndexLiesWithin};
ghost use Rattle.f11_store.specs.File.{stated_end as end_stated};

use crate::directory::DirectoryReader;
use f11_bytes::{BLOCK_SIZE, Block, read_long, read_word};
use f11_dev::{Device, DeviceFault};
use f11_dir::{RECORDS, Record, record_at};
use f11_entries::is_directory;
use f11_header::Header;
use f11_index::IndexFile;
use f11_reader::FileReader;

/// The end in bytes that a file's attributes state (Files-11 On-Disk Structure Level 1, "File Attributes"), below 2^42.
#[tactic(auto, unfolding(f11_store::specs::File::stated_end))]
pub fn stated_end(attributes: &[u8; 32]) -> u64
    ensures value { result ≡ end_stated attributes.now }
    ensures few { result < 2 ^ 42 }
{
    let block = read_long(attributes, 8);
    if block == 0 {
        return 0;
    }
    u64::from(block - 1) * 512 + u64::from(read_word(attributes, 12))
}

/// Whether the first header of a file in hand is that of a directory.
pub(crate) fn is_of_directory(block: &Block) -> bool
    requires header { IsTrue (holds_header block.now) }
    requires first { segment_number block.now ≡ 0 }
    ensures { result ≡ is_directory_header block.now }
{
    let header = Header::new(block);
    let mut ident = [0; 46];
    ident.copy_from_slice(header.ident());
    is_directory(&ident, &header.attributes())
}

impl DirectoryReader {
    ghost use Rattle.f11_catalog.specs.Records.{Reads, IsReadingRecords, ReadsRecord, HasBlockInHand, HasNoRecord};

    /// The directory whose first header is in hand, if it is one: all its records are to come.
    pub(crate) fn of(file: FileReader) -> Option<DirectoryReader>
        requires first { segment_number (header_in_hand file) ≡ 0 }
        ensures begins { IfSome result (λ directory. BeginsDirectory file directory) }
        ensures other { IfNone result (is_directory_header (header_in_hand file) ≡ false) }
    {
        if !is_of_directory(file.header()) {
            return None;
        }
        let left = stated_end(&Header::new(file.header()).attributes()) / 16;
        Some(DirectoryReader::begin(file, left))
    }

    /// Reads the next record, empty ones too; `None` behind the last. A block of the directory is read once.
    ///
    /// # Errors
    ///
    /// `DeviceFault` where a transfer failed.
    pub(crate) fn next<D: Device>(
        &mut self,
        device: &mut D,
        index: &IndexFile,
    ) -> Result<Option<Record>, DeviceFault>
        requires within { IndexLiesWithin (index_kept index.now) (length (D.disk device.old).image) }
        requires reading { IsReadingRecords (index_kept index.now) self.old (D.disk device.old) }
        ensures reading { IsReadingRecords (index_kept index.now) self.new (D.disk device.new) }
        ensures reads { IfOk result (λ answer. IfSome answer (λ entry.
            ReadsRecord (index_kept index.now) self.old self.new entry (D.disk device.old) (D.disk device.new))) }
        ensures ended { IfOk result (λ answer. IfNone answer
            (HasNoRecord (index_kept index.now) self.old (D.disk device.old) (D.disk device.new))) }
        ensures failed { OnErr result (Reads (D.disk device.old) (D.disk device.new) 1) }
    {
        if self.left == 0 {
            return Ok(None);
        }
        if !self.has_more(device, index)? {
            return Ok(None);
        }
        let record = record_at(&self.block, self.at);
        self.at += 1;
        self.left -= 1;
        Ok(Some(record))
    }

    /// Whether a record is to come, whatever the stated end is: in the block in hand, or in the next one, which is read then.
    ///
    /// # Errors
    ///
    /// `DeviceFault` where a transfer failed.
    fn has_more<D: Device>(
        &mut self,
        device: &mut D,
        index: &IndexFile,
    ) -> Result<bool, DeviceFault>
        requires within { IndexLiesWithin (index_kept index.now) (length (D.disk device.old).image) }
        requires reading { IsReadingRecords (index_kept index.now) self.old (D.disk device.old) }
        ensures reading { IsReadingRecords (index_kept index.now) self.new (D.disk device.new) }
        ensures more { result ≡ Ok true
            → HasBlockInHand (index_kept index.now) self.old self.new (D.disk device.old) (D.disk device.new) }
        ensures ended { result ≡ Ok false
            → HasNoRecord (index_kept index.now) self.old (D.disk device.old) (D.disk device.new) }
        ensures failed { OnErr result (Reads (D.disk device.old) (D.disk device.new) 1) }
    {
        if self.at < RECORDS {
            return Ok(true);
        }
        let mut block = [0; BLOCK_SIZE];
        if !self.file.read(device, index, &mut block)? {
            return Ok(false);
        }
        self.block = block;
        self.at = 0;
        Ok(true)
    }
}
