//! Headers that are taken where none is free: the index file gets a slot first, and takes memory for it. Each on a volume of its own, since
//! there may be memory left for the next.
use crate::files::opened;
use crate::tasks::{ask, mounted};
use crate::volumes::{rt_verified, verified, with_areas};
use f11_commands::f11_fcp::Volume;
use f11_commands::f11_files::Files;
use f11_commands::f11_flx::{CopyMode, FlxRefusal, copy_from_rt};
use f11_dev::{DeviceFault, Memory};
use f11_fixtures::{SEVENS, SYSTEM, file, get, keep, linked, put_words, volumes};
use f11_rad50::Name;
use f11_store::{FileId, Lun, Mode, Refusal, Reply, Request, Task};
use f11_vfy::{Accepted, Report};
use rt11_volume::{RtAccepted, RtName, RtReport};
use std::alloc::Global;
use std::test::Fail;

/// The blocks of the volumes here; those from 22 on are free, and hold sevens.
const BLOCKS: u32 = 40;

/// A directory without blocks, whose header has no place for a pointer.
const FULL: FileId = FileId {
    number: 6,
    sequence: 1,
    volume: 0,
};

/// A volume whose 16 slots are in use: 6 with that directory's header, those behind it with dead ones.
fn crowded(alloc: Global) -> Result<Memory, DeviceFault> {
    let mut device = volumes::fresh(alloc, BLOCKS)?;
    for lbn in 22..BLOCKS {
        keep(&mut device, lbn, &SEVENS)?;
    }
    keep(&mut device, 8, &linked(FULL, 0, file(0, 0), &[]))?;
    let words = [(14, 1), (16, 16), (52, 6778), (100, 0), (510, 19884)];
    put_words(&mut device, 8, &words)?;
    put_words(&mut device, 2, &[(0, 0xffff)])?;
    Ok(device)
}

/// That volume, which has to be accepted.
fn accepted(alloc: Global, device: Memory) -> Result<Accepted<Memory>, DeviceFault> {
    match verified(alloc, device) {
        Ok(Report::Accepted(accepted, _)) => Ok(accepted),
        _ => Err(DeviceFault),
    }
}

/// It as it was, where no block of its device is another.
fn unchanged(alloc: Global, mut device: Memory) -> Result<Accepted<Memory>, DeviceFault> {
    let mut before = crowded(alloc)?;
    for lbn in 0..BLOCKS {
        if get(&mut device, lbn)? != get(&mut before, lbn)? {
            return Err(DeviceFault);
        }
    }
    accepted(alloc, device)
}

/// A file without blocks.
const FILE: Request = Request::Create {
    protection: 0,
    ident: [0; 46],
    attr: [0; 32],
};

/// What takes a header: of tasks, of files, and a copy of a file of two blocks.
#[derive(Clone, Copy, Debug)]
enum Taking {
    Create,
    Extend,
    Enter,
    Copy,
}

fn copied(
    rt: &mut RtAccepted<Memory>,
    volume: &mut Volume<Memory>,
    task: Task,
    lun: Lun,
) -> Result<u32, FlxRefusal> {
    let (Ok(from), Ok(to)) = (RtName::parse(b"A.TXT"), Name::parse(b"A.TXT;1")) else {
        return Err(FlxRefusal::BadRecord);
    };
    copy_from_rt(
        rt,
        &from,
        volume,
        task,
        lun,
        SYSTEM,
        file(4, 4),
        &to,
        0,
        CopyMode::Image,
    )
}

impl Taking {
    /// Asks it. How many blocks were copied is answered as a file's length.
    fn of(
        self,
        rt: &mut RtAccepted<Memory>,
        volume: &mut Volume<Memory>,
    ) -> Result<Reply, Refusal> {
        let (Some(task), Some(lun), Ok(name)) = (Task::new(0), Lun::new(0), Name::parse(b"A.TXT;1"))
        else {
            return Err(Refusal::BadArgument);
        };
        match self {
            Taking::Create => ask(volume, task, &FILE),
            Taking::Extend => {
                let _ = ask(volume, task, &Request::Access(FULL, Mode::Write, lun));
                ask(volume, task, &Request::Extend(lun, 1))
            }
            Taking::Enter => ask(volume, task, &Request::Enter(FULL, name, FULL)),
            Taking::Copy => match copied(rt, volume, task, lun) {
                Ok(blocks) => Ok(Reply::Length(blocks)),
                Err(FlxRefusal::Files(refusal)) => Err(refusal),
                Err(_) => Err(Refusal::BadArgument),
            },
        }
    }
}

/// The counts of a volume.
fn counts(volume: &mut Volume<Memory>) -> Result<Reply, Refusal> {
    match Task::new(0) {
        Some(task) => ask(volume, task, &Request::Space),
        None => Err(Refusal::BadArgument),
    }
}

/// The counts where so many blocks are free, and no header.
fn counted(free: u32, slots: u32) -> Result<Reply, Refusal> {
    Ok(Reply::Space {
        free,
        headers: 0,
        slots,
    })
}

fn begun(alloc: Global, volume: Accepted<Memory>) -> Result<Volume<Memory>, DeviceFault> {
    match mounted(alloc, volume) {
        Ok(volume) => Ok(volume),
        Err(_) => Err(DeviceFault),
    }
}

fn ended(volume: Volume<Memory>) -> Result<Memory, DeviceFault> {
    match volume.dismount() {
        Ok(volume) => Ok(volume.device()),
        Err(_) => Err(DeviceFault),
    }
}

/// A volume of which a request found no memory, mounted again where it is as it was.
fn again(alloc: Global, mut volume: Volume<Memory>) -> Result<Volume<Memory>, DeviceFault> {
    if counts(&mut volume) != counted(18, 16) {
        return Err(DeviceFault);
    }
    begun(alloc, unchanged(alloc, ended(volume)?)?)
}

/// What is answered on such a volume, which has so many blocks free then; it is asked once more where there was no memory.
fn taken(alloc: Global, taking: Taking, free: u32) -> Result<Result<Reply, Refusal>, Fail> {
    let Ok(RtReport::Accepted(mut rt, _)) = rt_verified(alloc, with_areas(alloc)?) else {
        return Err(DeviceFault)?;
    };
    let mut volume = begun(alloc, accepted(alloc, crowded(alloc)?)?)?;
    let mut answer = taking.of(&mut rt, &mut volume);
    if answer == Err(Refusal::NoMemory) {
        volume = again(alloc, volume)?;
        answer = taking.of(&mut rt, &mut volume);
    }
    if counts(&mut volume) != counted(free, 17) {
        return Err(DeviceFault)?;
    }
    let _ = accepted(alloc, ended(volume)?)?;
    Ok(answer)
}

#[test]
fn headers_of_requests_get_slots(rt: HostRuntime) -> Result<(), Fail> {
    for (taking, reply, free) in [
        (Taking::Create, Reply::Created(file(17, 1)), 17),
        (Taking::Extend, Reply::Length(1), 16),
        (Taking::Enter, Reply::Done, 16),
        (Taking::Copy, Reply::Length(2), 15),
    ] {
        assert_eq!(rt; taken(rt.alloc(), taking, free)?, Ok(reply), "{taking:?}");
    }
    Ok(())
}

/// A file is extended by a block, or a new one is made: its length, or its number.
fn call(files: &mut Files<Memory>, extends: bool) -> Result<u32, Refusal> {
    if extends {
        return files.extend(FULL, 1);
    }
    match files.create(SYSTEM, 0, &[0; 46], &[0; 32]) {
        Ok(id) => Ok(u32::from(id.number)),
        Err(refusal) => Err(refusal),
    }
}

fn open(alloc: Global, volume: Accepted<Memory>) -> Result<Files<Memory>, DeviceFault> {
    match opened(alloc, volume) {
        Ok(files) => Ok(files),
        Err(_) => Err(DeviceFault),
    }
}

/// What is answered on such a volume, and the counts afterwards; it is called once more where there was no memory and all is as it was.
fn called(alloc: Global, extends: bool) -> Result<(Result<u32, Refusal>, (u32, u32, u32)), Fail> {
    let mut files = open(alloc, accepted(alloc, crowded(alloc)?)?)?;
    let mut answer = call(&mut files, extends);
    if answer == Err(Refusal::NoMemory) {
        if files.failed() || files.space() != (18, 0, 16) {
            return Err(DeviceFault)?;
        }
        files = open(alloc, unchanged(alloc, files.abandon())?)?;
        answer = call(&mut files, extends);
    }
    let counts = files.space();
    let _ = accepted(alloc, files.abandon())?;
    Ok((answer, counts))
}

#[test]
fn headers_of_files_get_slots(rt: HostRuntime) -> Result<(), Fail> {
    assert_eq!(rt; called(rt.alloc(), false)?, (Ok(17), (17, 0, 17)));
    assert_eq!(rt; called(rt.alloc(), true)?, (Ok(1), (16, 0, 17)));
    Ok(())
}
