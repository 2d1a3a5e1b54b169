//! The slots that the index file gets before a file of the host is made.
ghost use Rattle.std.specs.Prelude.{◌≡◌, true, false, IfErr, IsTrue, OnOk};
ghost use Rattle.f11_serving.specs.fcp.Lists.{store_of_volume};
ghost use Rattle.f11_serving.specs.fcp.Serving.{is_spent, state_in};
ghost use Rattle.f11_serving.specs.files.Answers.{is_fatal};
ghost use Rattle.f11_making.specs.Asking.{Denies, Grants, asks};
ghost use Rattle.f11_making.specs.Volume.{of_volume};
ghost use Rattle.f11_store.specs.declared.requests.Request.TheVariants as request;
ghost use Rattle.f11_commands.specs.Copying.{operator};
ghost use Rattle.f11_commands.specs.PutSlots.{AsksForSlots, slots_before as slots_before_file, slots_for};

use crate::finding::{OPERATOR, first_task};
use f11_bytes::BLOCK_SIZE;
use f11_dev::Device;
use f11_making::is_fatal;
use f11_serving::f11_fcp::Volume;
use f11_store::{Refusal, Request};

/// How many places for blocks a header has.
const PLACES: u64 = 102;

/// The fewest slots that are asked for at once: they adjoin, and so take one place in the index file's header.
const FEWEST: u64 = 16;

/// The most headers that making a file takes: 256 of its own, and one of its directory.
const MOST: u64 = 257;

/// How many slots are asked for, where so many blocks and headers are free: none where the headers are enough, where no file has so many
/// blocks, or where these and the slots wouldn't leave one for the directory.
fn slots_for(blocks: u64, free: u32, headers: u32) -> u32
    ensures { result ≡ slots_for blocks free headers }
{
    let needed = blocks.div_ceil(PLACES).max(1) + 1;
    if needed <= u64::from(headers) || needed > MOST {
        return 0;
    }
    let more = FEWEST.max(needed.saturating_sub(u64::from(headers)));
    if u64::from(free) <= blocks + more {
        return 0;
    }
    more as u32
}

/// How many slots a volume is to get before a file of at most so many blocks is made on it.
pub fn slots_before<D: Device>(volume: &Volume<D>, blocks: u64) -> u32
    ensures { IsTrue (state_in volume.now).disk.honest → is_spent volume.now ≡ false
        → result ≡ slots_before_file blocks (store_of_volume volume.now) }
{
    let (free, headers) = volume.free();
    slots_for(blocks, free, headers)
}

/// Asks for so many slots.
///
/// # Errors
///
/// The refusal.
fn grow<D: Device>(volume: &mut Volume<D>, slots: u32) -> Result<(), Refusal>
    ensures granted { OnOk result (Grants of_volume operator
        (asks (request.GrowIndex slots)) volume.old volume.new) }
    ensures denied { IfErr result (λ e. Denies of_volume operator
        (asks (request.GrowIndex slots)) e volume.old volume.new) }
{
    let mut block = [0; BLOCK_SIZE];
    volume.serve(
        first_task(),
        OPERATOR,
        &Request::GrowIndex(slots),
        &mut block,
    )?;
    Ok(())
}

/// Asks for so many slots, where there are any. That they are refused is no failure: what needs them is refused itself then.
///
/// # Errors
///
/// `DeviceFault` and `Damaged` alone.
pub fn ask_for_slots<D: Device>(volume: &mut Volume<D>, slots: u32) -> Result<(), Refusal>
    ensures asked { OnOk result (AsksForSlots of_volume slots volume.old volume.new) }
    ensures fails { IfErr result (λ e. (is_fatal e ≡ true)
        × Denies of_volume operator (asks (request.GrowIndex slots)) e volume.old volume.new) }
{
    if slots == 0 {
        return Ok(());
    }
    match grow(volume, slots) {
        Ok(()) => Ok(()),
        Err(refusal) => {
            if is_fatal(refusal) {
                Err(refusal)
            } else {
                Ok(())
            }
        }
    }
}
