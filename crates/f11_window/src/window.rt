//! A device of some blocks of another.
ghost use Rattle.std.specs.Prelude.{◌≡◌, ◌+◌, ◌<◌, ◌≤◌, ◌↔◌, length, IfErr, IfOk, IsOk};
ghost use Rattle.f11_dev.specs.Disk.{Reads, Syncs, Writes};
ghost use Rattle.f11_dev.specs.Run.{ReadsRun};
ghost use Rattle.f11_dev.specs.Zeros.{WritesZeros};
ghost use Rattle.f11_window.specs.Part.{KeepsOutside};

use f11_dev::{Block, Device, DeviceFault, ReadsRuns};
use std::snapshot::Snapshot;

/// How many blocks there are from the beginning of one partition of a big disk to that of the next, as RT-11's handler DU counts them.
pub const PARTITION_STEP: u32 = 65_536;

/// The most blocks that a partition has: RT-11 counts the blocks of a device in a word, so the last block of a partition is in no volume.
pub const PARTITION_BLOCKS: u32 = 65_535;

/// The blocks of another device, of 512 bytes each, from one on, so many, numbered from 0. Each call is one call of the device within, and
/// fails where that does; no call changes a block outside.
#[derive(Drop)]
pub struct Window<D: Device> {
    inner: D,
    /// Which block of the device within is block 0.
    first: u32,
    blocks: u32,
    /// The device within as it was when the window was made; only clauses read it.
    made: Snapshot<D>,
    ghost within: { first + blocks ≤ length (D.disk inner).image },
    ghost outside: { KeepsOutside first blocks (D.disk made.value) (D.disk inner) },
}

impl<D: Device> Window<D> {
    ghost use Rattle.f11_window.specs.Window.{
      behind_window,
      blocks_of,
      first_of,
      made_of,
      partition_blocks,
      partition_first,
      IsMade,
    };

    /// A window over `blocks` blocks of a device from block `first` on; there may be none. Where the device
    /// hasn't so many from there on it is given back as it is.
    pub fn new(device: D, first: u32, blocks: u32) -> Result<Window<D>, D>
        ensures made { IfOk result (IsMade device first blocks) }
        ensures refused { IfErr result (λ back. back ≡ device) }
        ensures when { IsOk result ↔ (first + blocks ≤ length (D.disk device).image) }
    {
        let all = device.blocks();
        if first > all || blocks > all - first {
            return Err(device);
        }
        let made = Snapshot::of(&device);
        Ok(Window {
            inner: device,
            first,
            blocks,
            made,
        })
    }

    /// A window over partition `number`, from 0 to 65,535, of a big disk as RT-11 divides it: from block 65,536 times that number on at
    /// most 65,535 blocks, and as many as there are. Where the device has no block there it is given back as it is.
    pub fn partition(device: D, number: u16) -> Result<Window<D>, D>
        ensures made { IfOk result
            (IsMade device (partition_first number) (partition_blocks number (length (D.disk device).image))) }
        ensures refused { IfErr result (λ back. back ≡ device) }
        ensures when { IsOk result ↔ (partition_first number < length (D.disk device).image) }
    {
        let first = PARTITION_STEP * number as u32;
        let all = device.blocks();
        if first >= all {
            return Err(device);
        }
        Window::new(device, first, (all - first).min(PARTITION_BLOCKS))
    }

    /// The device within, as it is: since the window was made no block outside it has changed.
    pub fn device(self) -> D
        ensures behind { result ≡ behind_window self }
        ensures outside { KeepsOutside (first_of self) (blocks_of self) (D.disk (made_of self)) (D.disk result) }
    {
        let Window {
            inner,
            first: _,
            blocks: _,
            made: _,
        } = self;
        inner
    }
}

impl<D: Device> Device for Window<D> {
    ghost use Rattle.f11_window.specs.PartLaws.{part-is_image};
    ghost use Rattle.f11_window.specs.Window.{window_disk, PassesOn};

    ghost disk = { window_disk D.disk };

    ghost is_image = { λ w. part-is_image w.first w.blocks (D.disk w.inner).image (D.is_image w.inner) };

    fn blocks(&self) -> u32 {
        self.blocks
    }

    fn read(&mut self, lbn: u32, into: &mut Block) -> Result<(), DeviceFault>
        requires { lbn < length (window_disk D.disk self.old).image }
        ensures read { PassesOn D.disk lbn (λ at. Reads result at into.new) self.old self.new }
    {
        self.inner.read(self.first + lbn, into)
    }

    fn write(&mut self, lbn: u32, from: &Block) -> Result<(), DeviceFault>
        requires { lbn < length (window_disk D.disk self.old).image }
        ensures write { PassesOn D.disk lbn (λ at. Writes result at from.now) self.old self.new }
    {
        self.inner.write(self.first + lbn, from)
    }

    fn write_zeros(&mut self, lbn: u32, count: u32) -> Result<(), DeviceFault>
        requires { lbn + count ≤ length (window_disk D.disk self.old).image }
        ensures zeros { PassesOn D.disk lbn (λ at. WritesZeros result at count) self.old self.new }
    {
        self.inner.write_zeros(self.first + lbn, count)
    }

    fn sync(&mut self) -> Result<(), DeviceFault>
        ensures sync { PassesOn D.disk 0 (λ at. Syncs result) self.old self.new }
    {
        self.inner.sync()
    }
}

impl<D: ReadsRuns> ReadsRuns for Window<D> {
    ghost use Rattle.f11_window.specs.Window.{window_disk, PassesOn};

    fn read_run(&mut self, lbn: u32, into: &mut [Block]) -> Result<(), DeviceFault>
        requires some { 0 < length into.old }
        requires within { lbn + length into.old ≤ length (window_disk D.disk self.old).image }
        ensures run { PassesOn D.disk lbn (λ at. ReadsRun result at into.new) self.old self.new }
    {
        self.inner.read_run(self.first + lbn, into)
    }
}
