//! Windows: a few of a file's retrieval pointers in a row, by which blocks are found without its headers.
ghost use Rattle.std.specs.Prelude.{◌≡◌, ◌<◌, ◌-◌, ◌^◌, ℕ, length, IsTrue, MatchOption};
ghost use Rattle.f11_chain.specs.Windows.{empty_window, Fills, HoldsAt, HoldsBlock, IsPast, LiesOn, ReadsIn, WritesIn};
ghost use Rattle.f11_index.specs.header.Header.{holds_header};
ghost use Rattle.f11_index.specs.map.HeaderBlock.{blocks_named};

use f11_dev::{Device, DeviceFault};
use f11_index::f11_bytes::Block;
use f11_index::f11_map::in_hand::map;

/// How many pointers a window holds at most (profile).
const MOST_RUNS: usize = 7;

/// A few retrieval pointers of a header in a row.
#[derive(Clone, Copy, Debug, PartialEq, Eq)]
pub struct Window {
    /// The VBN of the first run's first block.
    pub first: u32,
    /// How many runs it holds, from the front of `runs`.
    pub used: u8,
    /// The LBN of each run's first block, and how many blocks it has.
    pub runs: [(u32, u32); 7],
}

/// The window of block `vbn` of a file, from 1, which is block number `left`, from 0, of those that the header in the block names: the pointer
/// that names it, and those that follow it in the header, seven at most. `None` where one of these isn't on a device of so many blocks.
#[tactic(auto, unfolding(crate::specs::Opened::runs_named, crate::specs::Opened::blocks_named))]
pub fn window_at(block: &Block, left: u32, vbn: u32, blocks: u32) -> Option<Window>
    requires header { IsTrue (holds_header block.now) }
    requires named { left < length (blocks_named block.now) }
    requires behind { left < vbn }
    ensures { MatchOption result (IsPast block.now left blocks)
        (λ window. Fills block.now left vbn blocks window) }
{
    let map = map(block);
    let (pointer, within) = map.find(left)?;
    let used = (map.runs() - pointer).min(MOST_RUNS);
    let mut runs = [(0, 0); 7];
    for i in 0..used {
        let run = map.run(pointer + i);
        if blocks < run.0 + run.1 {
            return None;
        }
        runs[i] = run;
    }
    Some(Window {
        first: vbn - within,
        used: used as u8,
        runs,
    })
}

impl Window {
    /// A window that holds no run.
    pub fn empty() -> Window
        ensures value { result ≡ empty_window }
        ensures on { (blocks : ℕ) → LiesOn result blocks }
    {
        Window {
            first: 1,
            used: 0,
            runs: [(0, 0); MOST_RUNS],
        }
    }

    /// The LBN of block `vbn`; `None` where it doesn't stand in the window.
    pub fn lbn_of(&self, vbn: u32) -> Option<u32>
        requires on { LiesOn self.now (2 ^ 32 - 1) }
        ensures { MatchOption result (¬ HoldsBlock self.now vbn) (λ lbn. HoldsAt self.now vbn lbn) }
    {
        if vbn < self.first {
            return None;
        }
        let mut left = vbn - self.first;
        for i in 0..usize::from(self.used) {
            let run = self.runs[i];
            if left < run.1 {
                return Some(run.0 + left);
            }
            left -= run.1;
        }
        None
    }

    /// Reads block `vbn`, which stands in the window, into the block that is lent: one transfer.
    ///
    /// # Errors
    ///
    /// `DeviceFault` where it failed. What the block holds then is open.
    pub fn read_in<D: Device>(
        &self,
        device: &mut D,
        vbn: u32,
        into: &mut Block,
    ) -> Result<(), DeviceFault>
        requires on { LiesOn self.now (length (D.disk device.old).image) }
        requires holds { HoldsBlock self.now vbn }
        ensures reads { ReadsIn self.now vbn result into.new (D.disk device.old) (D.disk device.new) }
    {
        let _blocks = device.blocks();
        let Some(lbn) = self.lbn_of(vbn) else {
            return Err(DeviceFault);
        };
        device.read(lbn, into)
    }

    /// Writes block `vbn`, which stands in the window: one transfer.
    ///
    /// # Errors
    ///
    /// `DeviceFault` where it failed. The file's block is the old one or the new one then.
    pub fn write_in<D: Device>(
        &self,
        device: &mut D,
        vbn: u32,
        from: &Block,
    ) -> Result<(), DeviceFault>
        requires on { LiesOn self.now (length (D.disk device.old).image) }
        requires holds { HoldsBlock self.now vbn }
        ensures writes { WritesIn self.now vbn result from.now
            (D.disk device.old) (D.disk device.new) }
    {
        let _blocks = device.blocks();
        let Some(lbn) = self.lbn_of(vbn) else {
            return Err(DeviceFault);
        };
        device.write(lbn, from)
    }
}
