//! The first block of a file that isn't there, and whether its headers break off.
ghost use Rattle.std.specs.Prelude.{◌≡◌, ◌+◌, length, IfOk, OnErr, Ok, true, false};
ghost use Rattle.f11_dev.specs.Looked.{Looked};
ghost use Rattle.f11_index.specs.Kept.{index_kept, IndexLiesWithin};
ghost use Rattle.f11_reader.specs.Missing.{FindsMissing, LacksBlock, PassesBlock, TellsWhole};
ghost use Rattle.f11_reader.specs.Reading.{FailsToReadOn, IsReading, headers_left};

use crate::file::FileReader;
use f11_dev::{Device, DeviceFault};
use f11_index::IndexFile;
use f11_map::in_hand::link;

impl FileReader {
    /// The first of the next `blocks` blocks that isn't there: it doesn't lie among the first `size` blocks of the device, or the file has
    /// no more blocks. It is counted from 1, as VBNs are where no block was read yet; `None` where all are there. It reads the headers that
    /// follow the one in hand, each once.
    ///
    /// # Errors
    ///
    /// `DeviceFault` where a transfer failed.
    pub fn first_missing<D: Device>(
        &self,
        device: &mut D,
        index: &IndexFile,
        blocks: u64,
        size: u32,
    ) -> Result<Option<u64>, DeviceFault>
        requires within { IndexLiesWithin (index_kept index.now)
            (length (D.disk device.old).image) }
        requires reading { IsReading (index_kept index.now) self.now (D.disk device.old) }
        ensures finds { IfOk result (λ missing. FindsMissing (index_kept index.now) self.now
            size blocks missing (D.disk device.old) (D.disk device.new)) }
        ensures failed { OnErr result
            (Looked (D.disk device.old) (D.disk device.new) (headers_left self.now + 1) 1) }
    {
        let (mut reader, mut there) = (*self, 0);
        while there < blocks {
            if !reader.pass(device, index, size)? {
                return Ok(Some(there + 1));
            }
            there += 1;
        }
        Ok(None)
    }

    /// Passes the next block, where it is there, and says whether it is: a header names it, and it lies among the first `size` blocks.
    fn pass<D: Device>(
        &mut self,
        device: &mut D,
        index: &IndexFile,
        size: u32,
    ) -> Result<bool, DeviceFault>
        requires within { IndexLiesWithin (index_kept index.now)
            (length (D.disk device.old).image) }
        requires reading { IsReading (index_kept index.now) self.old (D.disk device.old) }
        ensures reading { IsReading (index_kept index.now) self.new (D.disk device.new) }
        ensures passes { result ≡ Ok true → PassesBlock (index_kept index.now) self.old self.new
            size (D.disk device.old) (D.disk device.new) }
        ensures lacks { result ≡ Ok false → LacksBlock (index_kept index.now) self.old
            size (D.disk device.old) (D.disk device.new) }
        ensures failed { OnErr result (FailsToReadOn (index_kept index.now) self.old self.new
            (D.disk device.old) (D.disk device.new)) }
    {
        let Some(lbn) = self.next_lbn(device, index)? else {
            return Ok(false);
        };
        if lbn >= size {
            return Ok(false);
        }
        self.place += 1;
        Ok(true)
    }

    /// Whether the last header that is reached from the one in hand links to none. Else the headers break off there, and the file may have
    /// blocks that can't be found. It reads the headers that follow the one in hand, each once.
    ///
    /// # Errors
    ///
    /// `DeviceFault` where a transfer failed.
    pub fn is_whole<D: Device>(
        &self,
        device: &mut D,
        index: &IndexFile,
    ) -> Result<bool, DeviceFault>
        requires within { IndexLiesWithin (index_kept index.now)
            (length (D.disk device.old).image) }
        requires reading { IsReading (index_kept index.now) self.now (D.disk device.old) }
        ensures tells { IfOk result (λ whole. TellsWhole (index_kept index.now) self.now whole
            (D.disk device.old) (D.disk device.new)) }
        ensures failed { OnErr result
            (Looked (D.disk device.old) (D.disk device.new) (headers_left self.now) 1) }
    {
        let mut reader = *self;
        while reader.next_header(device, index)? {}
        Ok(link(&reader.header).number == 0)
    }
}
