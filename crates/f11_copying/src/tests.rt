//! Files that are made of the blocks of a source, read back by requests.
ghost use Rattle.std.specs.Prelude.{IfOk};
ghost use Rattle.f11_copying.specs.OldFile.{is_first};

use crate::{Blocks, CopyFault, FileToMake, Moved, OldFile, copy_file};
use f11_bytes::{BLOCK_SIZE, Block};
use f11_dev::{Device, DeviceFault, Memory};
use f11_home::find;
use f11_index::IndexFile;
use f11_making::Asker;
use f11_making::f11_fcp::Volume;
use f11_making::f11_fcp::f11_vfy::{InitError, InitParams, Report, init, verify};
use f11_rad50::Name;
use f11_reader::FileReader;
use f11_store::{FileId, Lun, Mode, Refusal, Reply, Request, Task, Uic};
use std::alloc::Global;
use std::test::Fail;

/// The operator.
const SYSTEM: Uic = Uic {
    group: 1,
    member: 1,
};

/// Whose the file is.
const OWNER: Uic = Uic {
    group: 0o200,
    member: 0o15,
};

/// The master file directory.
const MASTER: FileId = FileId {
    number: 4,
    sequence: 4,
    volume: 0,
};

/// A source of so many blocks, each of its own number.
#[derive(Drop)]
struct Numbered {
    next: u8,
    left: u8,
}

impl Blocks for Numbered {
    ghost gives = { λ _ _ _. Unit {0} };

    fn next(&mut self, block: &mut Block) -> bool {
        if self.left == 0 {
            return false;
        }
        *block = [self.next; BLOCK_SIZE];
        self.left -= 1;
        self.next = self.next.wrapping_add(1);
        true
    }
}

fn asker() -> Asker {
    match (Task::new(0), Lun::new(0)) {
        (Some(task), Some(lun)) => Asker {
            task,
            lun,
            uic: SYSTEM,
        },
        _ => unreachable!(),
    }
}

/// A fresh volume of 100 blocks.
fn volume(alloc: Global) -> Result<Volume<Memory>, Fail> {
    let params = InitParams {
        label: b"COPIES",
        slots: 16,
        max_files: 4000,
        owner: SYSTEM,
        date: [0; 14],
    };
    let made = match init(Memory::new(alloc, 100)?, &params) {
        Ok(made) => made.device(),
        Err(InitError::BadParameter(_) | InitError::DeviceFault(_)) => return Err(DeviceFault)?,
    };
    let Ok(Report::Accepted(accepted, _)) = verify(alloc, made) else {
        return Err(DeviceFault)?;
    };
    match Volume::mount(alloc, accepted) {
        Ok(volume) => Ok(volume),
        Err(_) => Err(DeviceFault)?,
    }
}

/// A file that is to have so many blocks.
fn file_of(blocks: u32, in_one_run: bool) -> FileToMake {
    let mut ident = [0; 46];
    (ident[0], ident[10], ident[45]) = (1, 7, 9);
    let mut attr = [0; 32];
    (attr[0], attr[2], attr[6], attr[10], attr[12]) = (1, 4, 3, 3, 8);
    FileToMake {
        owner: OWNER,
        protection: 0o177_000,
        ident,
        attr,
        blocks,
        in_one_run,
    }
}

fn ask<D: Device>(
    volume: &mut Volume<D>,
    request: Request,
    block: &mut Block,
) -> Result<Reply, Refusal> {
    let by = asker();
    volume.serve(by.task, by.uic, &request, block)
}

/// The file that the master file directory has under a name.
fn found<D: Device>(volume: &mut Volume<D>, name: &Name) -> Result<Reply, Refusal> {
    ask(volume, Request::Find(MASTER, *name), &mut [0; BLOCK_SIZE])
}

/// Whether a file is the one that was to be made, but for its blocks, and has the contiguous mark (UC.CON) as it is said to.
fn is_made<D: Device>(volume: &mut Volume<D>, id: FileId, file: &FileToMake, marked: bool) -> bool {
    match ask(volume, Request::ReadAttr(id), &mut [0; BLOCK_SIZE]) {
        Ok(Reply::Attr(attr)) => {
            attr.owner == file.owner
                && attr.protection == file.protection
                && attr.ident == file.ident
                && attr.attr == file.attr
                && (attr.characteristics & 128 != 0) == marked
        }
        _ => false,
    }
}

/// Whether the block at a VBN of a file has this number throughout.
fn has<D: Device>(volume: &mut Volume<D>, id: FileId, vbn: u32, number: u8) -> bool {
    let (by, mut block) = (asker(), [0; BLOCK_SIZE]);
    let read = ask(volume, Request::Access(id, Mode::Read, by.lun), &mut block).is_ok()
        && ask(volume, Request::ReadBlock(by.lun, vbn), &mut block).is_ok()
        && block == [number; BLOCK_SIZE];
    ask(volume, Request::Deaccess(by.lun), &mut [0; BLOCK_SIZE]).is_ok() && read
}

#[test]
fn a_file_is_made_of_its_blocks(rt: HostRuntime) -> Result<(), Fail> {
    let name = Name::parse(b"A.DAT;3").map_err(|_| DeviceFault)?;
    for in_one_run in [false, true] {
        let mut volume = volume(rt.alloc())?;
        let mut source = Numbered { next: 5, left: 4 };
        let file = file_of(3, in_one_run);
        let made = copy_file(&mut volume, &asker(), &mut source, &file, MASTER, &name);
        let Ok(id) = made else {
            return Err(DeviceFault)?;
        };
        assert!(rt; source.left == 1 && found(&mut volume, &name) == Ok(Reply::Found(id)));
        assert!(rt; is_made(&mut volume, id, &file, in_one_run));
        for (vbn, number) in [(1, 5), (2, 6), (3, 7)] {
            assert!(rt; has(&mut volume, id, vbn, number), "{vbn}");
        }
        assert!(rt; !has(&mut volume, id, 4, 8));
    }
    Ok(())
}

#[test]
fn a_file_without_blocks_is_made(rt: HostRuntime) -> Result<(), Fail> {
    let name = Name::parse(b"A.DAT;3").map_err(|_| DeviceFault)?;
    let mut volume = volume(rt.alloc())?;
    let mut source = Numbered { next: 5, left: 4 };
    let file = file_of(0, true);
    let made = copy_file(&mut volume, &asker(), &mut source, &file, MASTER, &name);
    let Ok(id) = made else {
        return Err(DeviceFault)?;
    };
    assert!(rt; source.left == 4 && is_made(&mut volume, id, &file, false));
    assert!(rt; !has(&mut volume, id, 1, 0));
    Ok(())
}

#[test]
fn what_breaks_off_leaves_nothing(rt: HostRuntime) -> Result<(), Fail> {
    let name = Name::parse(b"A.DAT;3").map_err(|_| DeviceFault)?;
    let mut volume = volume(rt.alloc())?;
    for (left, blocks, fault) in [
        (2, 3, CopyFault::Unread),
        (9, 90, CopyFault::Files(Refusal::DeviceFull)),
    ] {
        let mut source = Numbered { next: 5, left };
        let made = copy_file(
            &mut volume,
            &asker(),
            &mut source,
            &file_of(blocks, true),
            MASTER,
            &name,
        );
        assert!(rt; made == Err(fault), "{blocks}");
        assert!(rt;
            found(&mut volume, &name) == Err(Refusal::NoSuchEntry),
            "{blocks}"
        );
    }
    // nothing is held, and all that was taken is free again
    let mut source = Numbered { next: 5, left: 70 };
    let made = copy_file(
        &mut volume,
        &asker(),
        &mut source,
        &file_of(70, true),
        MASTER,
        &name,
    );
    assert!(rt; made.is_ok());
    let again = copy_file(
        &mut volume,
        &asker(),
        &mut source,
        &file_of(0, true),
        MASTER,
        &name,
    );
    assert!(rt; again == Err(CopyFault::Files(Refusal::DuplicateName)));
    Ok(())
}

/// A file of the volume on a device, as it is copied.
fn old_file(alloc: Global, mut device: Memory, id: FileId) -> Result<OldFile<Memory>, Fail>
    ensures { IfOk result (λ old. is_first old) }
{
    let Ok(home) = find(&mut device) else {
        return Err(DeviceFault)?;
    };
    let Ok(index) = IndexFile::read(alloc, &mut device, &home) else {
        return Err(DeviceFault)?;
    };
    match FileReader::open(&mut device, &index, id) {
        Ok(Some(reader)) => Ok(OldFile::new(device, index, reader)),
        Ok(None) | Err(_) => Err(DeviceFault)?,
    }
}

#[test]
fn a_file_of_another_volume_is_copied(rt: HostRuntime) -> Result<(), Fail> {
    let name = Name::parse(b"A.DAT;3").map_err(|_| DeviceFault)?;
    let file = file_of(3, true);
    let mut source = Numbered { next: 5, left: 3 };
    let mut from = volume(rt.alloc())?;
    let made = copy_file(&mut from, &asker(), &mut source, &file, MASTER, &name);
    let Ok(id) = made else {
        return Err(DeviceFault)?;
    };
    let Ok(accepted) = from.dismount() else {
        return Err(DeviceFault)?;
    };
    let mut old = old_file(rt.alloc(), accepted.device(), id)?;
    // none of its blocks is among the first five
    let cut = old.told(5);
    assert!(rt; cut.is_ok_and(|told| told.blocks == 0 && told.attr[8..14] == [0, 0, 1, 0, 0, 0]));
    let Ok(told) = old.told(100) else {
        return Err(DeviceFault)?;
    };
    assert!(rt; told == file);
    let mut to = volume(rt.alloc())?;
    let copied = copy_file(&mut to, &asker(), &mut old, &told, MASTER, &name);
    let Ok(copy) = copied else {
        return Err(DeviceFault)?;
    };
    assert!(rt; is_made(&mut to, copy, &file, true));
    for (vbn, number) in [(1, 5), (2, 6), (3, 7)] {
        assert!(rt; has(&mut to, copy, vbn, number), "{vbn}");
    }
    assert!(rt; !has(&mut to, copy, 4, 8));
    Ok(())
}

#[test]
fn a_copied_file_is_found_by_its_number(rt: HostRuntime) -> Result<(), Fail> {
    let Some(mut moved) = Moved::none(rt.alloc()) else {
        return Err(DeviceFault)?;
    };
    assert!(rt; moved.get(9) == None && moved.get(0) == None && moved.get(u16::MAX) == None);
    moved.add(9, MASTER);
    assert!(rt; moved.get(9) == Some(MASTER) && moved.get(8) == None && moved.get(10) == None);
    moved.add(9, MASTER);
    moved.add(u16::MAX, MASTER);
    assert!(rt; moved.get(9) == Some(MASTER) && moved.get(u16::MAX) == Some(MASTER));
    Ok(())
}
