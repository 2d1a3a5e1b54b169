//! The writes of a request, one after another.
use crate::requests::asks::{Row, first_wrong, mounted};
use f11_bytes::{Block, is_set, read_word, set_bit};
use f11_dev::{Device, DeviceFault, Fuse, Memory};
use f11_fcp::Failed;
use f11_fixtures::{SEVENS, ZEROS, file, get, keep, linked, put_words, volumes};
use f11_header::HeaderMut;
use std::alloc::Global;
use std::test::Fail;

/// A file of three headers, 6 to 8: they name blocks 25, 27, 28; 30, 32; 34, 35.
pub const LONG: (u16, u16) = (6, 1);

/// A file of header 9 and block 22.
pub const SHORT: (u16, u16) = (9, 1);

/// The master file directory, of header 4 and block 21.
pub const ROOT: (u16, u16) = (4, 4);

/// What a write is of.
#[derive(Clone, Copy, Debug)]
pub enum Step {
    /// A header.
    Header(u16),
    /// A header in a block that the index file got.
    HeaderAt(u16, u32),
    /// A header that is dead then, and wasn't before.
    Killed(u16),
    /// The index bitmap: the bit of this slot, and none but it.
    Slot(u16),
    /// The storage bitmap.
    Bitmap,
    /// Its second block.
    SecondBitmap,
    /// A block that is zeros then.
    Zeros(u32),
    /// So many blocks from one on, each of which is zeros then, in ascending order.
    ZerosFrom(u32, u32),
    /// A block of a file.
    Data(u32),
}

impl Step {
    /// The LBN of the block that is written.
    fn lbn(self) -> u32 {
        match self {
            Step::Header(n) | Step::Killed(n) => u32::from(n) + 2,
            Step::Slot(_) => 2,
            Step::Bitmap => 20,
            Step::SecondBitmap => 21,
            Step::HeaderAt(_, lbn) | Step::Data(lbn) => lbn,
            Step::Zeros(lbn) | Step::ZerosFrom(lbn, _) => lbn,
        }
    }

    /// Whether it makes the one block the other.
    fn makes(self, before: &Block, after: &Block) -> bool {
        match self {
            Step::Header(n) | Step::HeaderAt(n, _) => read_word(after, 2) == n,
            Step::Killed(n) => read_word(before, 2) == n && read_word(after, 2) == 0,
            Step::Slot(n) => is_turned(before, after, n),
            Step::Zeros(_) | Step::ZerosFrom(..) => *after == ZEROS,
            Step::Bitmap | Step::SecondBitmap | Step::Data(_) => true,
        }
    }

    /// How many writes it is.
    fn writes(self) -> u32 {
        match self {
            Step::ZerosFrom(_, count) => count,
            _ => 1,
        }
    }

    /// One of its writes, from 0.
    fn write(self, number: u32) -> Step {
        match self {
            Step::ZerosFrom(lbn, _) => Step::Zeros(lbn.saturating_add(number)),
            step => step,
        }
    }
}

/// Whether an index bitmap is as before but for the bit of slot `n`, which is turned.
fn is_turned(before: &Block, after: &Block, n: u16) -> bool {
    let bit = u32::from(n.saturating_sub(1));
    let mut turned = *before;
    if bit < 4096 {
        set_bit(&mut turned, bit, !is_set(before, bit));
    }
    *after == turned
}

/// What is another in a header before the requests.
#[derive(Clone, Copy)]
pub enum Edit {
    /// Its file is marked contiguous (UC.CON).
    Contiguous(u16),
    /// It has one pointer, and no place for another (M.MAX).
    Full(u16),
    /// It has no pointer and no place for one (M.USE, M.MAX); the blocks that it named are lost.
    Placeless(u16),
    /// Slots 10 to 16 are in use, with dead headers: none is free.
    NoneFree,
    /// Another volume, of 4,200 blocks and no file, of which blocks 4,090 to 4,105 alone are free: the second bitmap block has the bits of
    /// ten of them.
    Wide,
}

impl Edit {
    /// Makes it on a device.
    fn make(self, device: &mut Memory) -> Result<(), DeviceFault> {
        match self {
            Edit::Contiguous(n) => Edit::make_byte(device, n, 12, 0x80),
            Edit::Full(n) => Edit::make_byte(device, n, 101, 2),
            Edit::Placeless(n) => {
                Edit::make_byte(device, n, 100, 0)?;
                Edit::make_byte(device, n, 101, 0)
            }
            Edit::NoneFree => put_words(device, 2, &[(0, 0xffff)]),
            Edit::Wide => Ok(()),
        }
    }

    /// Makes a byte of a header another, and seals it.
    fn make_byte(device: &mut Memory, n: u16, at: usize, byte: u8) -> Result<(), DeviceFault> {
        let lbn = u32::from(n) + 2;
        let mut block = get(device, lbn)?;
        if let Some(old) = block.get_mut(at) {
            *old = byte;
        }
        HeaderMut::new(&mut block).seal();
        keep(device, lbn, &block)
    }
}

/// A request behind others on the volume of [`prepared`], and its writes in order.
pub struct Case {
    pub edits: &'static [Edit],
    pub begun: &'static [Row],
    pub request: Row,
    pub steps: &'static [Step],
}

/// A volume of 400 blocks and 16 slots with the two files, and with these edits. Its free blocks are 23, 24, 26, 29, 31, 33 and those from
/// 36 on, and hold sevens, as those of the files do.
fn prepared(alloc: Global, edits: &[Edit]) -> Result<Memory, DeviceFault> {
    if matches!(edits.first(), Some(Edit::Wide)) {
        return wide(alloc);
    }
    let mut device = volumes::fresh(alloc, 400)?;
    for lbn in 22..400 {
        keep(&mut device, lbn, &SEVENS)?;
    }
    let headers = [
        linked(file(6, 1), 0, file(7, 1), &[(25, 0), (27, 1)]),
        linked(file(7, 1), 1, file(8, 1), &[(30, 0), (32, 0)]),
        linked(file(8, 1), 2, file(0, 0), &[(34, 1)]),
        linked(file(9, 1), 0, file(0, 0), &[(22, 0)]),
    ];
    for (lbn, header) in (8..12).zip(&headers) {
        keep(&mut device, lbn, header)?;
    }
    put_words(&mut device, 2, &[(0, 0x1ff)])?;
    put_words(&mut device, 20, &[(2, 0xa580), (4, 0xfff2)])?;
    for edit in edits {
        edit.make(&mut device)?;
    }
    Ok(device)
}

/// The volume of [`Edit::Wide`]. Its free blocks hold sevens.
fn wide(alloc: Global) -> Result<Memory, DeviceFault> {
    let mut device = volumes::fresh(alloc, 4200)?;
    for lbn in 4090..4106 {
        keep(&mut device, lbn, &SEVENS)?;
    }
    keep(&mut device, 20, &ZEROS)?;
    keep(&mut device, 21, &ZEROS)?;
    put_words(&mut device, 20, &[(510, 0xfc00)])?;
    put_words(&mut device, 21, &[(0, 0x3ff)])?;
    Ok(device)
}

impl Case {
    /// How many transfers the volume had before the request, and behind it, where all is answered so.
    fn span(&self, alloc: Global) -> Result<(u64, u64), Fail> {
        let device = prepared(alloc, self.edits)?;
        let made = device.transfers();
        let mut volume = mounted(alloc, device)?;
        let is_begun = first_wrong(&mut volume, self.begun).is_none();
        let begun = volume.lent().transfers().saturating_sub(made);
        if !is_begun || first_wrong(&mut volume, &[self.request]).is_some() {
            return Err("another answer")?;
        }
        Ok((begun, volume.lent().transfers().saturating_sub(made)))
    }

    /// The device where the volume stops behind so many transfers.
    fn stopped(&self, alloc: Global, transfers: u64) -> Result<Memory, Fail> {
        let device = Fuse::new(prepared(alloc, self.edits)?, transfers);
        let mut volume = mounted(alloc, device)?;
        let _ = first_wrong(&mut volume, self.begun);
        let _ = first_wrong(&mut volume, &[self.request]);
        match volume.dismount() {
            Ok(accepted) => Ok(accepted.device().into_inner()),
            Err(Failed(device)) => Ok(device.into_inner()),
        }
    }

    /// The first write that isn't as it should be, of those that change a block.
    fn first_disordered(&self, alloc: Global) -> Result<Option<u32>, Fail> {
        let (begun, ended) = self.span(alloc)?;
        let mut before = self.stopped(alloc, begun)?;
        let mut seen: u32 = 0;
        for transfers in begun..ended {
            let mut after = self.stopped(alloc, transfers.saturating_add(1))?;
            if let Some(lbn) = first_other(&mut before, &mut after)? {
                if !self.has_at(seen, lbn, &get(&mut before, lbn)?, &get(&mut after, lbn)?) {
                    return Ok(Some(seen));
                }
                seen = seen.saturating_add(1);
            }
            before = after;
        }
        Ok(self.write(seen).map(|_| seen))
    }

    /// Its write of this number, from 0.
    fn write(&self, number: u32) -> Option<Step> {
        let mut left = number;
        for step in self.steps {
            if left < step.writes() {
                return Some(step.write(left));
            }
            left = left.saturating_sub(step.writes());
        }
        None
    }

    /// Whether this is one of its writes.
    fn has_at(&self, number: u32, lbn: u32, before: &Block, after: &Block) -> bool {
        match self.write(number) {
            Some(step) => step.lbn() == lbn && step.makes(before, after),
            None => false,
        }
    }
}

/// The first block that two devices of as many blocks don't both have.
fn first_other(one: &mut Memory, other: &mut Memory) -> Result<Option<u32>, Fail> {
    for lbn in 0..one.blocks() {
        if get(one, lbn)? != get(other, lbn)? {
            return Ok(Some(lbn));
        }
    }
    Ok(None)
}

/// The first write of cases that isn't as it should be: the case, and the write.
pub fn first_disordered(alloc: Global, cases: &[Case]) -> Result<Option<(usize, u32)>, Fail> {
    for (i, case) in cases.iter().enumerate() {
        if let Some(write) = case.first_disordered(alloc)? {
            return Ok(Some((i, write)));
        }
    }
    Ok(None)
}
