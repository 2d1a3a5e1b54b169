//! Files found by their slots.
ghost use Rattle.std.specs.Prelude.{◌≡◌, length, IfOk, IfSome, IfNone, OnErr};
ghost use Rattle.f11_chain.specs.Calls.{FindsNoFile};
ghost use Rattle.f11_dev.specs.Looked.{Looked};
ghost use Rattle.f11_index.specs.Kept.{index_kept, IndexLiesWithin};
ghost use Rattle.f11_reader.specs.Reading.{OpensSlot, id_in_hand};

use crate::blocks::{has_slot, sequence};
use crate::file::FileReader;
use f11_bytes::BLOCK_SIZE;
use f11_chain::{ChainFault, first};
use f11_dev::{Device, DeviceFault};
use f11_index::IndexFile;
use f11_store::FileId;

impl FileReader {
    /// Begins to read the file whose first header is in slot `number`; `None` where there is no such slot, or its header isn't the first
    /// of a file. One transfer at most.
    ///
    /// # Errors
    ///
    /// `DeviceFault` where the transfer failed.
    pub fn open_slot<D: Device>(
        device: &mut D,
        index: &IndexFile,
        number: u16,
    ) -> Result<Option<FileReader>, DeviceFault>
        requires within { IndexLiesWithin (index_kept index.now)
            (length (D.disk device.old).image) }
        ensures opens { IfOk result (λ answer. IfSome answer (λ file.
            OpensSlot (index_kept index.now) number file (D.disk device.old) (D.disk device.new))) }
        ensures none { IfOk result (λ answer. IfNone answer
            (FindsNoFile (index_kept index.now) number (D.disk device.old) (D.disk device.new))) }
        ensures failed { OnErr result (Looked (D.disk device.old) (D.disk device.new) 1 1) }
    {
        if !has_slot(index, number) {
            return Ok(None);
        }
        let mut header = [0; BLOCK_SIZE];
        match first(device, index, number, &mut header) {
            Ok(()) => Ok(Some(FileReader::begin(number, header))),
            Err(ChainFault::Damaged) => Ok(None),
            Err(ChainFault::EndOfFile) => Ok(None),
            Err(ChainFault::DeviceFault) => Err(DeviceFault),
        }
    }

    /// The identification of the file, where its first header is in hand: after [`FileReader::open`] the one that it was opened by.
    pub fn id(&self) -> FileId
        ensures { result ≡ id_in_hand self.now }
    {
        FileId {
            number: self.number,
            sequence: sequence(&self.header),
            volume: 0,
        }
    }
}
