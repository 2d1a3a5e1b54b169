//! Loading an index file.
ghost use Rattle.std.specs.Prelude.{◌≡◌, ◌≤◌, [], length, IfOk, IfErr, IsErrOf, OnOk, OnErr, MatchOption, vec_capacity};
ghost use Rattle.f11_dev.specs.Looked.{Looked};
ghost use Rattle.f11_home.specs.Home.{IsSound};
ghost use Rattle.f11_index.specs.Calls.{ReadsIndex, LoadsIndex, FindsMisplaced, FindsPast, FailsToLoad, LacksMemory};
ghost use Rattle.f11_index.specs.IndexFault.{IfPast};
ghost use Rattle.f11_index.specs.IndexFile.{IsFirstPast, HasNonePast};
ghost use Rattle.f11_index.specs.Kept.{index_kept};
ghost use Rattle.f11_index.specs.Walk.{ReadsBitmap};

use crate::bits::is_slot_set;
use crate::blocks::{Blocks, FIRST_HEADERS};
use crate::fault::IndexFault;
use crate::index_file::IndexFile;
use crate::walk::follow;
use f11_bytes::{BLOCK_BITS, BLOCK_SIZE, Block, NoMemory};
use f11_dev::{Device, DeviceFault};
use f11_home::Home;
use std::alloc::Global;

impl IndexFile {
    /// Reads the index file of a volume whose home block this is, and refuses it where one of its bits past the slots is 1:
    /// [`IndexFile::read`] and [`IndexFile::first_past`].
    ///
    /// # Errors
    ///
    /// `Misplaced` and `PastSlots` where the index file isn't as it should be, the first before the second; `DeviceFault`
    /// where a transfer failed; `NoMemory` where there was no memory.
    pub fn load<D: Device>(
        alloc: Global,
        device: &mut D,
        home: &Home,
    ) -> Result<IndexFile, IndexFault>
        requires { IsSound home.now (length (D.disk device.old).image) }
        ensures loads { IfOk result (λ index.
            LoadsIndex home.now (index_kept index) (D.disk device.old) (D.disk device.new)) }
        ensures misplaced { IsErrOf result IndexFault.Misplaced
            → FindsMisplaced home.now (D.disk device.old) (D.disk device.new) }
        ensures past { IfErr result (λ fault. IfPast fault (λ n.
            FindsPast home.now n (D.disk device.old) (D.disk device.new))) }
        ensures failed { IsErrOf result IndexFault.DeviceFault
            → FailsToLoad home.now (D.disk device.old) (D.disk device.new) }
        ensures memory { IsErrOf result IndexFault.NoMemory
            → LacksMemory home.now (D.disk device.old) (D.disk device.new) }
    {
        let index = IndexFile::read(alloc, device, home)?;
        match index.first_past() {
            Some(n) => Err(IndexFault::PastSlots(n)),
            None => Ok(index),
        }
    }

    /// Reads the index file of a volume whose home block this is: each block of its bitmap once, then each header of it,
    /// once at most and 256 of them at most. It takes memory for a bit and an LBN a slot. The bits past the slots may be any.
    ///
    /// # Errors
    ///
    /// `Misplaced` where the index file isn't as it should be; `DeviceFault` where a transfer failed; `NoMemory` where there
    /// was no memory.
    pub fn read<D: Device>(
        alloc: Global,
        device: &mut D,
        home: &Home,
    ) -> Result<IndexFile, IndexFault>
        requires { IsSound home.now (length (D.disk device.old).image) }
        ensures reads { IfOk result (λ index.
            ReadsIndex home.now (index_kept index) (D.disk device.old) (D.disk device.new)) }
        ensures misplaced { IsErrOf result IndexFault.Misplaced
            → FindsMisplaced home.now (D.disk device.old) (D.disk device.new) }
        ensures failed { IsErrOf result IndexFault.DeviceFault
            → FailsToLoad home.now (D.disk device.old) (D.disk device.new) }
        ensures memory { IsErrOf result IndexFault.NoMemory
            → LacksMemory home.now (D.disk device.old) (D.disk device.new) }
        ensures never_past { IfErr result (λ fault. IfPast fault (λ _. ⊥)) }
    {
        let mut bitmap = with_room(alloc, home.index_blocks())?;
        let mut blocks = Blocks::new(alloc);
        read_bitmap(device, home, &mut bitmap)?;
        follow(device, home, &bitmap, &mut blocks)?;
        if blocks.places < 2 + u32::from(home.index_blocks()) + FIRST_HEADERS {
            return Err(IndexFault::Misplaced);
        }
        Ok(IndexFile {
            bitmap_lbn: home.index_lbn(),
            bitmap,
            headers: blocks.headers,
        })
    }

    /// The least slot number whose bit is 1 though there is no such slot; `None` where there is none.
    pub fn first_past(&self) -> Option<u32>
        ensures { MatchOption result (HasNonePast (index_kept self.now))
            (λ n. IsFirstPast (index_kept self.now) n) }
    {
        let bits = BLOCK_BITS * self.bitmap.len() as u32;
        for n in self.slots() + 1..bits + 1 {
            if is_slot_set(&self.bitmap, n) {
                return Some(n);
            }
        }
        None
    }
}

/// Room for so many blocks.
fn with_room(alloc: Global, blocks: u16) -> Result<Vec<Block>, NoMemory>
    ensures { IfOk result (λ bitmap. (bitmap.items ≡ []) × (blocks ≤ vec_capacity bitmap)) }
{
    Ok(Vec::with_capacity(alloc, usize::from(blocks))?)
}

/// Reads the blocks of the index bitmap, each once, for which there is room.
fn read_bitmap<D: Device>(
    device: &mut D,
    home: &Home,
    bitmap: &mut Vec<Block>,
) -> Result<(), DeviceFault>
    requires home { IsSound home.now (length (D.disk device.old).image) }
    requires none { bitmap.old.items ≡ [] }
    requires room { home.now.index_blocks ≤ vec_capacity bitmap.old }
    ensures reads { OnOk result
        (ReadsBitmap home.now bitmap.new.items (D.disk device.old) (D.disk device.new)) }
    ensures failed { OnErr result
        (Looked (D.disk device.old) (D.disk device.new) home.now.index_blocks 1) }
{
    let mut block = [0; BLOCK_SIZE];
    for i in 0..u32::from(home.index_blocks()) {
        device.read(home.index_lbn() + i, &mut block)?;
        bitmap.push_reserved(block);
    }
    Ok(())
}
