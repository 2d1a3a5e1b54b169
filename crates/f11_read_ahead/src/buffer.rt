//! Blocks of a device that are kept.
ghost use Rattle.std.specs.Prelude.{◌≡◌, ◌+◌, ◌*◌, ◌<◌, ◌≤◌, ◌↔◌, false, length, IsTrue, MatchOption};
ghost use Rattle.f11_dev.specs.Image.{Image, image_block};
ghost use Rattle.f11_dev.specs.Run.{StandsAt};
ghost use Rattle.f11_read_ahead.specs.Asked.{Gives, IsAsked};
ghost use Rattle.f11_read_ahead.specs.declared.buffer.TheConstants.{MOST};

use f11_dev::f11_bytes::zeros;
use f11_dev::{Block, DeviceFault, ReadsRuns};
use std::alloc::Global;

/// The most blocks that a buffer keeps, and that are read at once.
pub const MOST: usize = 64;

/// Blocks that follow one another on a device, and are kept.
#[derive(Drop)]
pub struct Buffer {
    /// The first `count` of these are kept.
    blocks: Vec<Block>,
    /// Which block of the device the first one is.
    first: u32,
    count: u32,
    ghost few: { count ≤ length blocks.items },
    ghost most: { length blocks.items ≤ MOST },
}

impl Buffer {
    ghost use Rattle.f11_read_ahead.specs.Buffer.{
      AfterWrite,
      Fills,
      HasRoom,
      Holds,
      IsElsewhere,
      IsKeptAt,
      IsNext,
      IsNotKept,
      Keeps,
      KeepsFrom,
      ReadsOn,
    };

    /// A buffer that keeps nothing yet, and never will where there is no memory for it.
    pub fn new(alloc: Global) -> Buffer
        ensures { result.count ≡ 0 }
    {
        Buffer {
            blocks: room(alloc),
            first: 0,
            count: 0,
        }
    }

    /// Where a block is kept.
    fn place(&self, lbn: u32) -> Option<u32>
        ensures { MatchOption result (IsNotKept self.now lbn) (λ at. IsKeptAt self.now lbn at) }
    {
        if lbn < self.first {
            return None;
        }
        let at = lbn - self.first;
        if at < self.count { Some(at) } else { None }
    }

    /// Gives a block if it is kept.
    pub fn give(&self, lbn: u32, into: &mut Block) -> bool
        ensures given { IsTrue result → Holds self.now lbn into.new }
        ensures none { result ≡ false → IsNotKept self.now lbn }
    {
        match self.place(lbn) {
            Some(at) => {
                *into = self.blocks[at as usize];
                true
            }
            None => false,
        }
    }

    /// Puts what was written in the place of the block, if it is kept. A block of which a write failed is forgotten, and those behind it.
    pub fn written(&mut self, lbn: u32, from: &Block, passed: bool)
        ensures { AfterWrite passed lbn from.now self.old self.new }
    {
        let Some(at) = self.place(lbn) else {
            return;
        };
        if passed {
            self.blocks[at as usize] = *from;
            return;
        }
        self.count = at;
    }

    /// Whether a block is the one behind those that are kept.
    pub fn is_followed_by(&self, lbn: u32) -> bool
        ensures { IsTrue result ↔ IsNext self.now lbn }
    {
        lbn >= self.first && lbn - self.first == self.count
    }

    /// Reads a block, and keeps it: by itself, or where it is the one behind those that are kept, as the first of twice as many. Where these
    /// can't be read at once it is read by itself, too.
    pub fn read<D: ReadsRuns>(
        &mut self,
        device: &mut D,
        lbn: u32,
        into: &mut Block,
    ) -> Result<(), DeviceFault>
        requires { lbn < length (D.disk device.old).image }
        ensures gives { Gives result lbn into.new (D.disk device.old) (D.disk device.new) (MOST + 1) }
        ensures keeps { IsTrue (D.disk device.old).honest → Keeps (D.disk device.old).image self.new }
        ensures reads { HasRoom self.old → ReadsOn result lbn self.old self.new (D.disk device.old) (D.disk device.new) }
    {
        let ahead = self.wanted(lbn);
        self.fill(device, lbn, ahead);
        if self.give(lbn, into) {
            return Ok(());
        }
        match device.read(lbn, into) {
            Ok(()) => {
                self.keep(lbn, into);
                Ok(())
            }
            Err(fault) => Err(fault),
        }
    }

    /// How many blocks are worth reading at once from one on that isn't kept: none where it doesn't follow those that are.
    fn wanted(&self, lbn: u32) -> usize
        ensures next { IsNext self.now lbn → result ≡ 2 * self.now.count }
        ensures elsewhere { IsElsewhere self.now lbn → result ≡ 0 }
    {
        if self.is_followed_by(lbn) {
            (self.count as usize).saturating_mul(2)
        } else {
            0
        }
    }

    /// Keeps so many blocks from `lbn` on in the place of all others, or as many as fit and the device has; none where they can't be
    /// read at once.
    fn fill<D: ReadsRuns>(&mut self, device: &mut D, lbn: u32, wanted: usize)
        requires { lbn < length (D.disk device.old).image }
        ensures asked { IsAsked (D.disk device.old) (D.disk device.new) MOST }
        ensures keeps { IsTrue (D.disk device.old).honest → Keeps (D.disk device.old).image self.new }
        ensures fills { Fills wanted lbn self.old self.new (D.disk device.old) (D.disk device.new) }
    {
        self.count = 0;
        let left = (device.blocks() - lbn) as usize;
        let count = left.min(wanted).min(self.blocks.len());
        if count <= 1 {
            return;
        }
        if !read_front(device, lbn, self.blocks.as_mut_slice(), count) {
            return;
        }
        self.first = lbn;
        self.count = count as u32;
    }

    /// Keeps one block, and no other.
    fn keep(&mut self, lbn: u32, block: &Block)
        ensures keeps { (image : Image) → image_block image lbn ≡ block.now → Keeps image self.new }
        ensures from { HasRoom self.old → KeepsFrom self.new lbn 1 }
    {
        self.count = 0;
        if self.blocks.is_empty() {
            return;
        }
        self.blocks[0] = *block;
        self.first = lbn;
        self.count = 1;
    }
}

/// Reads blocks into the first so many of these, at once, and tells whether it could.
fn read_front<D: ReadsRuns>(device: &mut D, lbn: u32, blocks: &mut [Block], count: usize) -> bool
    requires some { 0 < count }
    requires room { count ≤ length blocks.old }
    requires within { lbn + count ≤ length (D.disk device.old).image }
    ensures asked { IsAsked (D.disk device.old) (D.disk device.new) count }
    ensures size { length blocks.new ≡ length blocks.old }
    ensures fails { result ≡ false → (D.disk device.old).failures < (D.disk device.new).failures }
    ensures stands { IsTrue result → IsTrue (D.disk device.old).honest
        → StandsAt (D.disk device.old).image lbn count blocks.new }
{
    device.read_run(lbn, &mut blocks[..count]).is_ok()
}

/// Room for the blocks of a buffer; none where there is no memory.
fn room(alloc: Global) -> Vec<Block>
    ensures { length result.items ≤ MOST }
{
    match vec![in alloc; zeros(); MOST] {
        Ok(blocks) => blocks,
        Err(_) => Vec::new(alloc),
    }
}
