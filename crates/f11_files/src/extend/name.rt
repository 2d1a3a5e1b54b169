//! Blocks that a file's last header is to name.
ghost use Rattle.std.specs.Prelude.{◌≡◌, ◌+◌, ◌≤◌, false, IsTrue, IfOk, OnErr, OnOk};
ghost use Rattle.f11_image_store.specs.Confines.{only_header};
ghost use Rattle.f11_files.specs.Structure.{bitmap_in, home_of, IsStructureFor, StaysFor, WritesParts};
ghost use Rattle.f11_files.specs.Extending.Slots.{GetsBlocks, MayCome, StaysBehind};
ghost use Rattle.f11_files.specs.Extending.Tail.{HoldsLast, MayBeGiven, NamesRun, FailsToName, HasNoPlace};

use crate::extend::pieces::append_all;
use crate::extend::slots::keep_slots;
use crate::extend::tail::Tail;
use crate::structure::Structure;
use f11_dev::{Device, DeviceFault};

impl Structure {
    /// Names `count` blocks of zeros from `lbn` on, which no header names, in the last header of a file, and writes it: they are slots
    /// then, where that is the index file. Says whether it did: where it has too few places for them, nothing is done.
    ///
    /// # Errors
    ///
    /// `DeviceFault` where the transfer failed.
    pub(crate) fn name_run<D: Device>(
        &mut self,
        device: &mut D,
        tail: &mut Tail,
        lbn: u32,
        count: u32,
    ) -> Result<bool, DeviceFault>
        requires is_for { IsStructureFor self.old (D.disk device.old) }
        requires last { HoldsLast self.old tail.old (D.disk device.old) }
        requires gets { GetsBlocks tail.old.file.number }
        requires given { MayBeGiven (home_of self.old) lbn count (D.disk device.old) }
        requires within { lbn + count ≤ (bitmap_in self.old).size }
        requires come { MayCome self.old tail.old.file.number count (D.disk device.old) }
        ensures names { IfOk result (λ named. IsTrue named → NamesRun self.old self.new tail.old
            tail.new lbn count (D.disk device.old) (D.disk device.new)) }
        ensures full { IfOk result (λ named. named ≡ false → (self.new ≡ self.old)
            × HasNoPlace tail.old tail.new count (D.disk device.old) (D.disk device.new)) }
        ensures failed { OnErr result
            (FailsToName self.old tail.old lbn count (D.disk device.old) (D.disk device.new)) }
        ensures stays { OnOk result (StaysFor false self.old self.new (D.disk device.new)) }
        ensures home { home_of self.new ≡ home_of self.old }
        ensures confined { WritesParts self.old (only_header tail.old.number) (D.disk device.old)
            (D.disk device.new) }
        ensures places { IfOk result (λ named. IsTrue named
            → (tail.new.number ≡ tail.old.number) × StaysBehind self.old self.new lbn count) }
    {
        if !append_all(&mut tail.block, lbn, count) {
            return Ok(false);
        }
        match device.write(self.index.lbn_of_header(tail.number), &tail.block) {
            Ok(()) => {}
            Err(fault) => return Err(fault),
        }
        keep_slots(&mut self.index, tail.file, lbn, count);
        Ok(true)
    }
}
