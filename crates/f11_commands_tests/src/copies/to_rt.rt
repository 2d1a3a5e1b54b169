//! Copies to an RT-11 volume of which a transfer fails.
use crate::copies::volumes::{
    MODES, accepted, copy_out, files_with_source, give_up, length_on, mounted, rt,
};
use f11_commands::f11_flx::f11_fcp::Failed;
use f11_commands::f11_flx::{CopyMode, FlxRefusal};
use f11_dev::FailOnce;
use f11_fixtures::are_alike;
use f11_store::{Refusal, Reply};
use rt11_volume::RtRefusal;
use std::alloc::Global;
use std::test::Fail;

/// By how many transfers the volumes are verified and mounted, and how many a copy makes.
#[derive(Clone, Copy)]
struct Transfers {
    files_begun: u64,
    files: u64,
    rt_begun: u64,
    rt: u64,
}

fn counted(alloc: Global, mode: CopyMode) -> Result<Transfers, Fail> {
    let made = files_with_source(alloc)?.transfers();
    let rt_made = rt(alloc)?.transfers();
    let mut target = accepted(alloc, rt(alloc)?)?;
    let mut volume = mounted(alloc, files_with_source(alloc)?)?;
    let begun = volume.lent().transfers();
    let _ = copy_out(&mut volume, &mut target, mode);
    let rt_begun = accepted(alloc, rt(alloc)?)?.device().transfers();
    Ok(Transfers {
        files_begun: begun.saturating_sub(made),
        files: volume.lent().transfers().saturating_sub(begun),
        rt_begun: rt_begun.saturating_sub(rt_made),
        rt: target.device().transfers().saturating_sub(rt_begun),
    })
}

/// Where a transfer of the Files-11 volume, from 1, fails the copy and the volume: how many blocks the file has that stays on the other one, 99 where
/// there is none.
fn left_behind(alloc: Global, mode: CopyMode, at: u64) -> Result<Option<u16>, Fail> {
    let mut target = accepted(alloc, rt(alloc)?)?;
    let mut volume = mounted(alloc, FailOnce::new(files_with_source(alloc)?, at, false))?;
    let copied = copy_out(&mut volume, &mut target, mode);
    let later = give_up(&mut volume);
    let Err(Failed(device)) = volume.dismount() else {
        return Ok(None);
    };
    let is_told = copied == Err(FlxRefusal::Files(Refusal::DeviceFault))
        && later == Err(Refusal::VolumeFailed);
    if !is_told || !are_alike(device.into_inner(), files_with_source(alloc)?)? {
        return Ok(None);
    }
    let mut target = accepted(alloc, target.device())?;
    Ok(Some(length_on(&mut target)))
}

/// Whether each transfer of the Files-11 volume does: before the file is made there is none, and then it stays.
fn fails_at_each(alloc: Global, mode: CopyMode) -> Result<bool, Fail> {
    let known = counted(alloc, mode)?;
    let (mut without, mut with) = (0_u64, 0_u64);
    for transfer in 1..=known.files {
        match left_behind(alloc, mode, known.files_begun.saturating_add(transfer))? {
            Some(99) => without = without.saturating_add(1),
            Some(1) => with = with.saturating_add(1),
            _ => return Ok(false),
        }
        if with > 0 && without.saturating_add(with) != transfer {
            return Ok(false);
        }
    }
    Ok(without > 2 && with > 0)
}

/// Whether a transfer of the RT-11 volume, from 1, fails the copy and that volume alone: the source is held, and stays.
fn fails_target(alloc: Global, mode: CopyMode, at: u64, lands: bool) -> Result<bool, Fail> {
    let mut target = accepted(alloc, FailOnce::new(rt(alloc)?, at, lands))?;
    let mut volume = mounted(alloc, files_with_source(alloc)?)?;
    let copied = copy_out(&mut volume, &mut target, mode);
    let is_failed = length_on(&mut target) == 99;
    let later = give_up(&mut volume);
    let Ok(files) = volume.dismount() else {
        return Ok(false);
    };
    let is_told = copied == Err(FlxRefusal::Rt(RtRefusal::DeviceFault))
        && is_failed
        && later == Ok(Reply::Done);
    Ok(is_told && are_alike(files.device(), files_with_source(alloc)?)?)
}

/// Whether each transfer of the RT-11 volume does: two read the directory and two write it, and the block is written behind two that read
/// that again.
fn fails_at_each_of_target(alloc: Global, mode: CopyMode) -> Result<bool, Fail> {
    let known = counted(alloc, mode)?;
    for transfer in 1..=known.rt {
        for lands in [false, true] {
            if !fails_target(alloc, mode, known.rt_begun.saturating_add(transfer), lands)? {
                return Ok(false);
            }
        }
    }
    Ok(known.rt >= 5)
}

#[test]
fn a_transfer_of_the_source_fails(rt: HostRuntime) -> Result<(), Fail> {
    for mode in MODES {
        assert!(rt; fails_at_each(rt.alloc(), mode)?, "{mode:?}");
    }
    Ok(())
}

#[test]
fn a_transfer_of_the_new_file_fails(rt: HostRuntime) -> Result<(), Fail> {
    for mode in MODES {
        assert!(rt; fails_at_each_of_target(rt.alloc(), mode)?, "{mode:?}");
    }
    Ok(())
}
