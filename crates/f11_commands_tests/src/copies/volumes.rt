//! The two volumes of a copy, each with a file A.TXT or without.
use f11_bytes::Block;
use f11_commands::f11_flx::f11_fcp::Volume;
use f11_commands::f11_flx::{CopyMode, FlxRefusal, copy_from_rt, copy_to_rt};
use f11_dev::{Device, DeviceFault, Memory};
pub use f11_fixtures::volumes::mounted;
use f11_fixtures::{SYSTEM, ZEROS, file, memory, volumes};
use f11_rad50::Name;
use f11_store::{Lun, Mode, Refusal, Reply, Request, Task};
use rt11_volume::{RtAccepted, RtName, RtReport};
use std::alloc::Global;
use std::test::Fail;

/// Both modes.
pub const MODES: [CopyMode; 2] = [CopyMode::Image, CopyMode::Text];

fn task() -> Task {
    match Task::new(0) {
        Some(task) => task,
        None => unreachable!(),
    }
}

fn lun() -> Lun {
    match Lun::new(0) {
        Some(lun) => lun,
        None => unreachable!(),
    }
}

/// A block that begins with a text, and then has zeros.
fn block_of(text: &[u8; 8]) -> Block {
    let mut block = ZEROS;
    for (i, byte) in text.iter().enumerate() {
        if i < 8 {
            block[i] = *byte;
        }
    }
    block
}

/// Asks a request, with a block that is lent.
fn ask_with<D: Device>(
    volume: &mut Volume<D>,
    request: Request,
    block: &mut Block,
) -> Result<Reply, Refusal> {
    volume.serve(task(), SYSTEM, &request, block)
}

/// Asks a request.
pub fn ask<D: Device>(volume: &mut Volume<D>, request: Request) -> Result<Reply, Refusal> {
    let mut block = ZEROS;
    ask_with(volume, request, &mut block)
}

/// Gives the access of a copy up.
pub fn give_up<D: Device>(volume: &mut Volume<D>) -> Result<Reply, Refusal> {
    ask(volume, Request::Deaccess(lun()))
}

/// Finds A.TXT in the master file directory.
pub fn find<D: Device>(volume: &mut Volume<D>) -> Result<Reply, Refusal> {
    match Name::parse(b"A.TXT;1") {
        Ok(name) => ask(volume, Request::Find(file(4, 4), name)),
        Err(_) => Err(Refusal::Damaged),
    }
}

/// The volume of a device, which has to be accepted.
pub fn accepted<E: Device + Drop>(alloc: Global, device: E) -> Result<RtAccepted<E>, Fail> {
    match rt11_volume::verify(alloc, device) {
        Ok(RtReport::Accepted(volume, _)) => Ok(volume),
        _ => Err(DeviceFault)?,
    }
}

/// A fresh volume.
pub fn files(alloc: Global) -> Result<Memory, Fail> {
    Ok(volumes::fresh(alloc, 100)?)
}

/// One with a file 6,1 of one block, whose records have four bytes each, two of them.
pub fn files_with_source(alloc: Global) -> Result<Memory, Fail> {
    let mut volume = mounted(alloc, files(alloc)?)?;
    let mut attr = [0; 32];
    (attr[0], attr[2], attr[6], attr[10], attr[12]) = (1, 4, 1, 1, 8);
    let asked = [
        Request::Create {
            protection: 0,
            ident: [0; 46],
            attr,
        },
        Request::Access(file(6, 1), Mode::Write, lun()),
        Request::Extend(lun(), 1),
        Request::WriteBlock(lun(), 1),
        Request::Deaccess(lun()),
    ];
    for request in asked {
        if ask_with(&mut volume, request, &mut block_of(b"ABCDEFGH")).is_err() {
            return Err(DeviceFault)?;
        }
    }
    match volume.dismount() {
        Ok(accepted) => Ok(accepted.device()),
        Err(_) => Err(DeviceFault)?,
    }
}

/// A fresh RT-11 volume of one segment.
pub fn rt(alloc: Global) -> Result<Memory, Fail> {
    match rt11_volume::init(memory(alloc, 20)?, 1) {
        Ok(made) => Ok(made.device()),
        Err(_) => Err(DeviceFault)?,
    }
}

/// One with a file of two blocks, each of which has a line.
pub fn rt_with_source(alloc: Global) -> Result<Memory, Fail> {
    let mut volume = accepted(alloc, rt(alloc)?)?;
    if has_made(&mut volume).is_ok() {
        Ok(volume.device())
    } else {
        Err(DeviceFault)?
    }
}

fn has_made<E: Device>(volume: &mut RtAccepted<E>) -> Result<(), FlxRefusal> {
    let name = rt_name()?;
    for done in [
        volume.create(&name, 2, 0),
        volume.write(&name, 0, &block_of(b"ABCDEF\r\n")),
        volume.write(&name, 1, &block_of(b"GHIJKL\r\n")),
    ] {
        match done {
            Ok(()) => {}
            Err(refusal) => return Err(FlxRefusal::Rt(refusal)),
        }
    }
    Ok(())
}

fn rt_name() -> Result<RtName, FlxRefusal> {
    match RtName::parse(b"A.TXT") {
        Ok(name) => Ok(name),
        Err(_) => Err(FlxRefusal::BadRecord),
    }
}

/// How many blocks A.TXT has on an RT-11 volume; 99 where it isn't there.
pub fn length_on<E: Device>(volume: &mut RtAccepted<E>) -> u16 {
    let Ok(name) = rt_name() else {
        return 99;
    };
    match volume.find(&name) {
        Ok((_, length)) => length,
        Err(_) => 99,
    }
}

/// Copies file 6,1.
pub fn copy_out<D: Device, E: Device>(
    volume: &mut Volume<D>,
    rt: &mut RtAccepted<E>,
    mode: CopyMode,
) -> Result<u32, FlxRefusal> {
    let name = rt_name()?;
    copy_to_rt(
        volume,
        task(),
        lun(),
        SYSTEM,
        file(6, 1),
        rt,
        &name,
        0,
        mode,
    )
}

/// Copies A.TXT into the master file directory.
pub fn copy_in<D: Device, E: Device>(
    rt: &mut RtAccepted<E>,
    volume: &mut Volume<D>,
    mode: CopyMode,
) -> Result<u32, FlxRefusal> {
    let name = rt_name()?;
    let Ok(to) = Name::parse(b"A.TXT;1") else {
        return Err(FlxRefusal::BadRecord);
    };
    copy_from_rt(
        rt,
        &name,
        volume,
        task(),
        lun(),
        SYSTEM,
        file(4, 4),
        &to,
        0,
        mode,
    )
}
