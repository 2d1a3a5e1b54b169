//! The link of a file's last header to a new one.
ghost use Rattle.std.specs.Prelude.{◌≡◌, ◌+◌, ◌≤◌, ◌<◌, false, IsTrue, OnOk, OnErr};
ghost use Rattle.f11_dev.specs.Went.{Went};
ghost use Rattle.f11_files.specs.Extending.Link.{MayFollow, Linking, LinksTail, NamesThese};
ghost use Rattle.f11_files.specs.Extending.Slots.{GetsBlocks, MayCome, StaysBehind};
ghost use Rattle.f11_image_store.specs.Confines.{only_header};
ghost use Rattle.f11_files.specs.Structure.{bitmap_in, home_of, IsStructureFor, StaysFor, WritesParts};
ghost use Rattle.f11_files.specs.Extending.Tail.{HoldsLast, whose};
ghost use Rattle.f11_files.specs.Extending.Zeros.{HoldsZeros};
ghost use Rattle.f11_map.specs.HeaderBlock.{segment_number};
ghost use Rattle.f11_index.specs.Table.{table_of};

use crate::extend::slots::keep_slots;
use crate::extend::tail::Tail;
use crate::structure::Structure;
use f11_dev::{Device, DeviceFault};
use f11_map::in_hand::set_link;
use f11_store::FileId;

impl Structure {
    /// Links a file's last header to a new one, which names `count` blocks of zeros from `lbn` on, and writes it: that one follows it then,
    /// and where the file is the index file, the blocks are slots.
    ///
    /// # Errors
    ///
    /// `DeviceFault` where the transfer failed.
    pub(crate) fn link_tail<D: Device>(
        &mut self,
        device: &mut D,
        tail: &mut Tail,
        id: FileId,
        lbn: u32,
        count: u32,
    ) -> Result<(), DeviceFault>
        requires is_for { IsStructureFor self.old (D.disk device.old) }
        requires last { HoldsLast self.old tail.old (D.disk device.old) }
        requires gets { GetsBlocks tail.old.file.number }
        requires early { segment_number tail.old.block < 255 }
        requires next { IsTrue (D.disk device.old).honest
            → MayFollow (table_of (D.disk device.old).image (home_of self.old)) tail.old id }
        requires named { NamesThese self.old id lbn count (D.disk device.old) }
        requires within { lbn + count ≤ (bitmap_in self.old).size }
        requires zeros { IsTrue (D.disk device.old).honest
            → HoldsZeros (D.disk device.old).image lbn count }
        requires come { MayCome self.old tail.old.file.number count (D.disk device.old) }
        ensures file { whose tail.new ≡ whose tail.old }
        ensures links { OnOk result (LinksTail self.old self.new tail.old id count
            (D.disk device.old) (D.disk device.new)) }
        ensures failed { OnErr result
            (Went (Linking self.old tail.old id count (D.disk device.old))
            (D.disk device.old) (D.disk device.new) 1 1) }
        ensures stays { OnOk result (StaysFor false self.old self.new (D.disk device.new)) }
        ensures home { home_of self.new ≡ home_of self.old }
        ensures confined { WritesParts self.old (only_header tail.old.number) (D.disk device.old)
            (D.disk device.new) }
        ensures places { OnOk result (StaysBehind self.old self.new lbn count) }
    {
        set_link(&mut tail.block, id);
        match device.write(self.index.lbn_of_header(tail.number), &tail.block) {
            Ok(()) => {}
            Err(fault) => return Err(fault),
        }
        keep_slots(&mut self.index, tail.file, lbn, count);
        Ok(())
    }
}
