//! The index file of a Files-11 volume that grows.
use crate::volumes::calls::{Call, Given, Row, go, is_accepted, opened, transfers};
use f11_bytes::read_word;
use f11_dev::{Device, FailOnce, Memory};
use f11_fixtures::{get, has_words, put_words, volumes};
use f11_store::Refusal;
use std::alloc::Global;
use std::test::Fail;

/// A block in between, so that no two of the index file's join.
const IN_TURN: [Row; 2] = [
    (Call::Create, Ok(Given::File(6, 1)), None),
    (Call::GrowInTurn(17, 119), Ok(Given::Done), None),
];

/// None of the new slots was given a sequence number; then one more is added in header 7.
const NEW_SLOTS: [Row; 2] = [
    (Call::CreateIn(9, 119), Ok(Given::Done), None),
    (Call::Create, Ok(Given::File(120, 1)), None),
];

/// The last header of the index file has no place left: it gets no slot by itself, though blocks are free.
const NO_PLACE: [Row; 6] = [
    (Call::Create, Ok(Given::File(6, 1)), None),
    (Call::GrowInTurn(17, 117), Ok(Given::Done), None),
    (Call::CreateIn(7, 117), Ok(Given::Done), None),
    (Call::Create, Err(Refusal::NoHeader), Some(1)),
    (Call::Extend((6, 1), 103), Err(Refusal::NoHeader), Some(2)),
    (Call::Extend((6, 1), 1), Ok(Given::Count(102)), None),
];

#[test]
fn an_index_file_without_a_place_gets_no_slot(rt: HostRuntime) -> Result<(), Fail> {
    let device = volumes::fresh(rt.alloc(), 400)?;
    let (_, wrong) = go(rt.alloc(), device, &NO_PLACE)?;
    assert_eq!(rt; wrong, None);
    Ok(())
}

#[test]
fn the_index_file_gets_a_header(rt: HostRuntime) -> Result<(), Fail> {
    let device = volumes::fresh(rt.alloc(), 400)?;
    let (mut device, wrong) = go(rt.alloc(), device, &IN_TURN)?;
    assert_eq!(rt; wrong, None);
    // the last header of the index file is 7, in segment 1
    assert!(rt; has_words(&mut device, 9, &[(2, 7), (92, 1)])?);
    assert!(rt; has_words(&mut device, 3, &[(94, 7), (96, 1)])?);
    let (_, wrong) = go(rt.alloc(), device, &NEW_SLOTS)?;
    assert_eq!(rt; wrong, None);
    Ok(())
}

/// Whether two slots are added, or the call answers `DeviceFault` where one of its five transfers fails; and the volume is accepted then.
fn grows(alloc: Global, at: u64, lands: bool, fails: bool) -> Result<bool, Fail> {
    let device = volumes::fresh(alloc, volumes::BLOCKS)?;
    let mut files = opened(alloc, FailOnce::new(device, at, lands))?;
    let answer = Call::GrowIndex(2).make(&mut files);
    let wanted = if fails {
        Err(Refusal::DeviceFault)
    } else {
        Ok(Given::Count(18))
    };
    Ok(answer == wanted && is_accepted(alloc, files.abandon().into_inner()))
}

#[test]
fn a_transfer_of_growing_the_index_file_fails(rt: HostRuntime) -> Result<(), Fail> {
    let device = volumes::fresh(rt.alloc(), volumes::BLOCKS)?;
    let made = device.transfers();
    let opening = transfers(&opened(rt.alloc(), device)?).saturating_sub(made);
    for (k, lands) in (1..=6).flat_map(|k| [(k, false), (k, true)]) {
        let at = opening.saturating_add(k);
        assert!(rt; grows(rt.alloc(), at, lands, k < 6)?, "{k}");
    }
    Ok(())
}

/// As many slots as the home block allows, of which a fresh volume has 16: 1,224 more may need 12 headers, and 11 are free.
const ALL_SLOTS: [Row; 7] = [
    (Call::GrowIndex(3985), Err(Refusal::IndexLimit), Some(0)),
    (Call::GrowIndex(1224), Err(Refusal::NoHeader), None),
    (Call::GrowIndex(1223), Ok(Given::Count(1239)), None),
    (Call::GrowIndex(2761), Ok(Given::Count(4000)), None),
    (Call::Space, Ok(Given::Space(90, 3995, 4000)), Some(0)),
    (Call::Create, Ok(Given::File(6, 1)), None),
    (Call::GrowIndex(1), Err(Refusal::IndexLimit), Some(0)),
];

#[test]
fn an_index_file_gets_all_slots(rt: HostRuntime) -> Result<(), Fail> {
    let device = volumes::fresh(rt.alloc(), 4096)?;
    let (_, wrong) = go(rt.alloc(), device, &ALL_SLOTS)?;
    assert_eq!(rt; wrong, None);
    Ok(())
}

/// A fresh volume whose index file has the contiguous mark.
fn contiguous(alloc: Global) -> Result<Memory, Fail> {
    let mut device = volumes::fresh(alloc, volumes::BLOCKS)?;
    let sum = read_word(&get(&mut device, 3)?, 510).wrapping_add(0x80);
    put_words(&mut device, 3, &[(12, 0x80), (510, sum)])?;
    Ok(device)
}

/// A slot more, and then one that finds no mark to take away.
const A_SLOT_MORE: [Row; 2] = [
    (Call::GrowIndex(1), Ok(Given::Count(17)), None),
    (Call::GrowIndex(1), Ok(Given::Count(18)), None),
];

#[test]
fn an_index_file_that_grows_is_not_contiguous(rt: HostRuntime) -> Result<(), Fail> {
    let (mut device, wrong) = go(rt.alloc(), contiguous(rt.alloc())?, &A_SLOT_MORE)?;
    assert_eq!(rt; wrong, None);
    assert!(rt; has_words(&mut device, 3, &[(2, 1), (12, 0)])?);
    Ok(())
}
