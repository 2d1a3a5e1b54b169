//! Transfers that fail in calls on the files of RT-11 volumes.
use crate::rt11::calls::{Call, accepted, fresh, numbered, with_files};
use f11_dev::{Device, FailOnce, Memory};
use f11_fixtures::{SEVENS, ZEROS, get};
use rt11_volume::{RtAccepted, RtRefusal};
use std::alloc::Global;
use std::test::Fail;

/// The calls on files, each with its file's number and its transfers: two segments of two blocks are read, and of the file the block at
/// 19. What changes the second segment writes it; a split reads segment 1 again, and writes three segments.
const CALLS: [(Call, u16, u64); 6] = [
    (Call::List, 7, 4),
    (Call::Find, 7, 4),
    (Call::Read(0), 7, 5),
    (Call::Write(0), 7, 5),
    (Call::Delete, 7, 6),
    (Call::Create(1), 8, 12),
];

/// A volume with eight files of one block and a full second segment; one transfer fails of those behind the four by which it was verified.
fn failing(
    alloc: Global,
    transfer: u64,
    lands: bool,
) -> Result<RtAccepted<FailOnce<Memory>>, Fail> {
    let volume = with_files(alloc, fresh(alloc, 100, 3, 128)?, 8)?;
    let device = FailOnce::new(volume.device(), transfer.saturating_add(4), lands);
    Ok(accepted(alloc, device)?)
}

/// Makes a call on file n.
fn make<D: Device>(
    alloc: Global,
    volume: &mut RtAccepted<D>,
    call: Call,
    n: u16,
) -> Result<(), RtRefusal> {
    match numbered(n) {
        Ok(name) => call.make(alloc, volume, &name),
        Err(_) => Err(RtRefusal::NoSuchFile),
    }
}

/// Whether each call is refused as `Failed`.
fn has_failed(alloc: Global, volume: &mut RtAccepted<FailOnce<Memory>>) -> bool {
    CALLS.iter().all(|(call, n, _)| make(alloc, volume, *call, *n) == Err(RtRefusal::Failed))
}

/// Whether a device has the 100 blocks that it had, with zeros behind the directory but for the block of a file, where that was written.
fn keeps_files(device: &mut Memory, is_written: bool) -> Result<bool, Fail> {
    for lbn in 12..100 {
        let wanted = if is_written && lbn == 19 {
            SEVENS
        } else {
            ZEROS
        };
        if get(device, lbn)? != wanted {
            return Ok(false);
        }
    }
    Ok(device.blocks() == 100)
}

/// Whether a call is refused where this transfer of it fails, and each call after it; the files stay, and where the directory was read
/// alone, the call succeeds on what is left.
fn is_refused(alloc: Global, call: Call, n: u16, transfer: u64, lands: bool) -> Result<bool, Fail> {
    let mut volume = failing(alloc, transfer, lands)?;
    let done = make(alloc, &mut volume, call, n);
    let is_fault = done == Err(RtRefusal::DeviceFault) && has_failed(alloc, &mut volume);
    let mut device = volume.device().into_inner();
    let is_written = matches!(call, Call::Write(_)) && transfer == 5 && lands;
    let is_kept = is_fault && keeps_files(&mut device, is_written)?;
    // the transfers of the directory's first walk read it
    if transfer > 4 {
        return Ok(is_kept);
    }
    let mut volume = accepted(alloc, device)?;
    Ok(is_kept && make(alloc, &mut volume, call, n).is_ok())
}

#[test]
fn a_transfer_of_a_call_fails(rt: HostRuntime) -> Result<(), Fail> {
    for (call, n, transfers) in CALLS {
        for (transfer, lands) in (1..=transfers).flat_map(|k| [(k, false), (k, true)]) {
            let is_refused = is_refused(rt.alloc(), call, n, transfer, lands)?;
            assert!(rt; is_refused, "{call:?} {transfer} {lands}");
        }
        let mut volume = failing(rt.alloc(), transfers + 1, true)?;
        let done = make(rt.alloc(), &mut volume, call, n);
        assert_eq!(rt; done, Ok(()), "{call:?}");
    }
    Ok(())
}
