//! Files found by their identification, and read block by block.
ghost use Rattle.std.specs.Prelude.{◌≡◌, ◌↔◌, ◌<◌, ◌≤◌, length, IfOk, IfSome, IfNone, IsTrue, OnOk, OnErr, Ok, true, false};
ghost use Rattle.f11_dev.specs.Looked.{Looked};
ghost use Rattle.f11_header.specs.Fields.{file_sequence};
ghost use Rattle.f11_header.specs.Header.{holds_header};
ghost use Rattle.f11_index.specs.IndexFile.{slots};
ghost use Rattle.f11_index.specs.Kept.{index_kept, IndexLiesWithin};
ghost use Rattle.f11_reader.specs.Reading.{OpensFile, FindsNone, IsReading, header_in_hand, headers_left, CountsBlocks};
ghost use Rattle.f11_reader.specs.Reading.{ReadsOn, HasEnded, FailsToReadOn};
ghost use Rattle.f11_reader.specs.Steps.{ReadsOrZeros, StepsOn, StepsNowhere, FailsToStep, ComesTo};

use crate::file::FileReader;
use f11_bytes::{BLOCK_SIZE, Block};
use f11_chain::{ChainFault, MOST_HEADERS, first, next};
use f11_dev::{Device, DeviceFault};
use f11_header::Header;
use f11_index::IndexFile;
use f11_store::FileId;

/// The sequence number of a header.
pub(crate) fn sequence(block: &Block) -> u16
    ensures { result ≡ file_sequence block.now }
{
    Header::new(block).id().sequence
}

/// Whether the index file has a slot of this number.
pub(crate) fn has_slot(index: &IndexFile, number: u16) -> bool
    ensures { IsTrue result ↔ ((0 < number) × (number ≤ slots (index_kept index.now))) }
{
    number != 0 && u32::from(number) <= index.slots()
}

/// Whether an identification may be that of a file: its number is a slot's, and it is of no other volume.
pub fn is_slot(index: &IndexFile, id: FileId) -> bool
    ensures { IsTrue result ↔ ((id.volume ≡ 0)
        × ((0 < id.number) × (id.number ≤ slots (index_kept index.now)))) }
{
    id.volume == 0 && has_slot(index, id.number)
}

/// Reads block `lbn` into `into`, zeros where that is past the device's end. One transfer at most.
fn read_or_zeros<D: Device>(device: &mut D, lbn: u32, into: &mut Block) -> Result<(), DeviceFault>
    ensures reads { OnOk result (ReadsOrZeros lbn into.new
        (D.disk device.old) (D.disk device.new)) }
    ensures failed { OnErr result (Looked (D.disk device.old) (D.disk device.new) 1 1) }
{
    if lbn < device.blocks() {
        return device.read(lbn, into);
    }
    *into = [0; BLOCK_SIZE];
    Ok(())
}

impl FileReader {
    /// Begins to read the file with an identification; `None` where the volume has none: there is no such slot, its header isn't the
    /// first of a file, or the sequence number is another, or the relative volume isn't 0. One transfer at most.
    ///
    /// # Errors
    ///
    /// `DeviceFault` where the transfer failed.
    pub fn open<D: Device>(
        device: &mut D,
        index: &IndexFile,
        id: FileId,
    ) -> Result<Option<FileReader>, DeviceFault>
        requires within { IndexLiesWithin (index_kept index.now)
            (length (D.disk device.old).image) }
        ensures opens { IfOk result (λ answer. IfSome answer (λ file.
            OpensFile (index_kept index.now) id file (D.disk device.old) (D.disk device.new))) }
        ensures none { IfOk result (λ answer. IfNone answer
            (FindsNone (index_kept index.now) id (D.disk device.old) (D.disk device.new))) }
        ensures failed { OnErr result (Looked (D.disk device.old) (D.disk device.new) 1 1) }
    {
        if !is_slot(index, id) {
            return Ok(None);
        }
        let mut header = [0; BLOCK_SIZE];
        match first(device, index, id.number, &mut header) {
            Ok(()) => {}
            Err(ChainFault::Damaged) => return Ok(None),
            Err(ChainFault::EndOfFile) => return Ok(None),
            Err(ChainFault::DeviceFault) => return Err(DeviceFault),
        }
        if sequence(&header) != id.sequence {
            return Ok(None);
        }
        Ok(Some(FileReader::begin(id.number, header)))
    }

    /// The header in hand: after [`FileReader::open`] the first one of the file, which says whose it is, and where it ends.
    pub fn header(&self) -> &Block
        ensures header { result.now ≡ header_in_hand self.now }
        ensures valid { IsTrue (holds_header result.now) }
    {
        &self.header
    }

    /// How many blocks are still to come, at most 8,323,072. It reads the headers that follow the one in hand, each once.
    ///
    /// # Errors
    ///
    /// `DeviceFault` where a transfer failed.
    pub fn count<D: Device>(&self, device: &mut D, index: &IndexFile) -> Result<u32, DeviceFault>
        requires within { IndexLiesWithin (index_kept index.now)
            (length (D.disk device.old).image) }
        requires reading { IsReading (index_kept index.now) self.now (D.disk device.old) }
        ensures counts { IfOk result (λ blocks. CountsBlocks (index_kept index.now) self.now blocks
            (D.disk device.old) (D.disk device.new)) }
        ensures failed { OnErr result
            (Looked (D.disk device.old) (D.disk device.new) (headers_left self.now) 1) }
    {
        let mut reader = *self;
        let mut blocks = reader.named - reader.place;
        for _ in 0..MOST_HEADERS {
            if !reader.next_header(device, index)? {
                return Ok(blocks);
            }
            blocks += reader.named;
        }
        Ok(blocks)
    }

    /// Reads the next block of the file into `into`, and says whether there is one. A block past the device's end counts as zeros,
    /// and is no transfer. Where the next header isn't as it should be, the file ends. Each header is read once on the way, and
    /// each block.
    ///
    /// # Errors
    ///
    /// `DeviceFault` where a transfer failed: no block was passed then, so that it may be tried again. What `into` holds is open.
    pub fn read<D: Device>(
        &mut self,
        device: &mut D,
        index: &IndexFile,
        into: &mut Block,
    ) -> Result<bool, DeviceFault>
        requires within { IndexLiesWithin (index_kept index.now)
            (length (D.disk device.old).image) }
        requires reading { IsReading (index_kept index.now) self.old (D.disk device.old) }
        ensures reading { IsReading (index_kept index.now) self.new (D.disk device.new) }
        ensures reads { result ≡ Ok true → ReadsOn (index_kept index.now) self.old self.new into.new
            (D.disk device.old) (D.disk device.new) }
        ensures ended { result ≡ Ok false → HasEnded (index_kept index.now) self.old self.new
            (D.disk device.old) (D.disk device.new) }
        ensures failed { OnErr result (FailsToReadOn (index_kept index.now) self.old self.new
            (D.disk device.old) (D.disk device.new)) }
    {
        let Some(lbn) = self.next_lbn(device, index)? else {
            return Ok(false);
        };
        read_or_zeros(device, lbn, into)?;
        self.place += 1;
        Ok(true)
    }

    /// The LBN of the next block, which the header in hand names then; `None` where no block is to come. It reads the headers on the way.
    pub(crate) fn next_lbn<D: Device>(
        &mut self,
        device: &mut D,
        index: &IndexFile,
    ) -> Result<Option<u32>, DeviceFault>
        requires within { IndexLiesWithin (index_kept index.now)
            (length (D.disk device.old).image) }
        requires reading { IsReading (index_kept index.now) self.old (D.disk device.old) }
        ensures reading { IsReading (index_kept index.now) self.new (D.disk device.new) }
        ensures comes { IfOk result (λ answer. IfSome answer (λ lbn.
            ComesTo (index_kept index.now) self.old self.new lbn
            (D.disk device.old) (D.disk device.new))) }
        ensures ended { IfOk result (λ answer. IfNone answer
            (HasEnded (index_kept index.now) self.old self.new
            (D.disk device.old) (D.disk device.new))) }
        ensures failed { OnErr result (FailsToReadOn (index_kept index.now) self.old self.new
            (D.disk device.old) (D.disk device.new)) }
    {
        for _ in 0..MOST_HEADERS {
            if let Some(lbn) = self.lbn() {
                return Ok(Some(lbn));
            }
            if !self.next_header(device, index)? {
                return Ok(None);
            }
        }
        Ok(None)
    }

    /// Takes the next header in hand, and says whether there is one. One transfer at most.
    pub(crate) fn next_header<D: Device>(
        &mut self,
        device: &mut D,
        index: &IndexFile,
    ) -> Result<bool, DeviceFault>
        requires within { IndexLiesWithin (index_kept index.now)
            (length (D.disk device.old).image) }
        requires reading { IsReading (index_kept index.now) self.old (D.disk device.old) }
        ensures reading { IsReading (index_kept index.now) self.new (D.disk device.new) }
        ensures steps { result ≡ Ok true → StepsOn (index_kept index.now) self.old self.new
            (D.disk device.old) (D.disk device.new) }
        ensures none { result ≡ Ok false → StepsNowhere (index_kept index.now) self.old self.new
            (D.disk device.old) (D.disk device.new) }
        ensures failed { OnErr result (FailsToStep self.old self.new
            (D.disk device.old) (D.disk device.new)) }
    {
        let mut header = self.header;
        match next(device, index, &mut header) {
            Ok(Some(number)) => {
                *self = FileReader::begin(number, header);
                Ok(true)
            }
            Ok(None) => Ok(false),
            Err(ChainFault::Damaged) => Ok(false),
            Err(ChainFault::EndOfFile) => Ok(false),
            Err(ChainFault::DeviceFault) => Err(DeviceFault),
        }
    }
}
