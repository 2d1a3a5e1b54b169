//! Copies from an RT-11 volume of which a transfer fails.
use crate::copies::volumes::{
    MODES, accepted, copy_in, files, find, give_up, length_on, mounted, rt_with_source,
};
use f11_commands::f11_flx::f11_fcp::{Failed, Volume};
use f11_commands::f11_flx::{CopyMode, FlxRefusal};
use f11_dev::{FailOnce, Memory};
use f11_fixtures::are_alike;
use f11_fixtures::f11_vfy::{Report, verify};
use f11_store::{Refusal, Reply};
use rt11_volume::{RtAccepted, RtRefusal};
use std::alloc::Global;
use std::test::Fail;

/// By how many transfers the volumes are verified and mounted, and how many a copy makes.
#[derive(Clone, Copy)]
struct Transfers {
    files_begun: u64,
    files: u64,
    rt_begun: u64,
    rt: u64,
}

fn counted(alloc: Global, mode: CopyMode) -> Result<Transfers, Fail> {
    let made = files(alloc)?.transfers();
    let rt_made = rt_with_source(alloc)?.transfers();
    let mut source = accepted(alloc, rt_with_source(alloc)?)?;
    let mut volume = mounted(alloc, files(alloc)?)?;
    let begun = volume.lent().transfers();
    let _ = copy_in(&mut source, &mut volume, mode);
    let rt_begun = accepted(alloc, rt_with_source(alloc)?)?
        .device()
        .transfers();
    Ok(Transfers {
        files_begun: begun.saturating_sub(made),
        files: volume.lent().transfers().saturating_sub(begun),
        rt_begun: rt_begun.saturating_sub(rt_made),
        rt: source.device().transfers().saturating_sub(rt_begun),
    })
}

/// Whether a transfer of the Files-11 volume, from 1, fails the copy and the volume, which is accepted then; the other one stays.
fn fails_files(alloc: Global, mode: CopyMode, at: u64, lands: bool) -> Result<bool, Fail> {
    let mut source = accepted(alloc, rt_with_source(alloc)?)?;
    let mut volume = mounted(alloc, FailOnce::new(files(alloc)?, at, lands))?;
    let copied = copy_in(&mut source, &mut volume, mode);
    let later = give_up(&mut volume);
    let Err(Failed(device)) = volume.dismount() else {
        return Ok(false);
    };
    let is_told = copied == Err(FlxRefusal::Files(Refusal::DeviceFault))
        && later == Err(Refusal::VolumeFailed);
    let is_kept = are_alike(source.device(), rt_with_source(alloc)?)?;
    Ok(
        is_told
            && is_kept
            && matches!(
                verify(alloc, device.into_inner()),
                Ok(Report::Accepted(_, _))
            ),
    )
}

/// Whether each transfer of the Files-11 volume does.
fn fails_at_each(alloc: Global, mode: CopyMode) -> Result<bool, Fail> {
    let known = counted(alloc, mode)?;
    for transfer in 1..=known.files {
        for lands in [false, true] {
            if !fails_files(
                alloc,
                mode,
                known.files_begun.saturating_add(transfer),
                lands,
            )? {
                return Ok(false);
            }
        }
    }
    Ok(known.files > 20)
}

/// What is left where a transfer of the RT-11 volume fails: whether the access of the copy is held.
fn is_held(volume: &mut Volume<Memory>, source: &mut RtAccepted<FailOnce<Memory>>) -> Option<bool> {
    if length_on(source) != 99 || find(volume).is_ok() {
        return None;
    }
    match give_up(volume) {
        Ok(Reply::Done) => Some(true),
        Err(Refusal::NoSuchAccess) => Some(false),
        _ => None,
    }
}

/// Whether a transfer of the RT-11 volume, from 1, fails the copy and that volume alone: the new file isn't entered, and is held if it was made.
fn fails_source(alloc: Global, mode: CopyMode, at: u64, is_made: bool) -> Result<bool, Fail> {
    let mut source = accepted(alloc, FailOnce::new(rt_with_source(alloc)?, at, false))?;
    let mut volume = mounted(alloc, files(alloc)?)?;
    let copied = copy_in(&mut source, &mut volume, mode);
    let held = is_held(&mut volume, &mut source);
    let Ok(device) = volume.dismount() else {
        return Ok(false);
    };
    Ok(
        copied == Err(FlxRefusal::Rt(RtRefusal::DeviceFault))
            && held == Some(is_made)
            && matches!(verify(alloc, device.device()), Ok(Report::Accepted(_, _))),
    )
}

/// The file is found by two transfers, and each block is read by one: those of a text once more before the file is made.
fn fails_at_each_of_source(alloc: Global, mode: CopyMode, judged: u64) -> Result<bool, Fail> {
    let known = counted(alloc, mode)?;
    for transfer in 1..=known.rt {
        if !fails_source(
            alloc,
            mode,
            known.rt_begun.saturating_add(transfer),
            transfer > judged,
        )? {
            return Ok(false);
        }
    }
    Ok(known.rt == judged.saturating_add(2))
}

#[test]
fn a_transfer_of_the_new_file_fails(rt: HostRuntime) -> Result<(), Fail> {
    for mode in MODES {
        assert!(rt; fails_at_each(rt.alloc(), mode)?, "{mode:?}");
    }
    Ok(())
}

#[test]
fn a_transfer_of_the_source_fails(rt: HostRuntime) -> Result<(), Fail> {
    assert!(rt; fails_at_each_of_source(rt.alloc(), CopyMode::Image, 2)?);
    assert!(rt; fails_at_each_of_source(rt.alloc(), CopyMode::Text, 4)?);
    Ok(())
}
