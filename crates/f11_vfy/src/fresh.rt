//! Making a fresh volume.
ghost use Rattle.std.specs.Prelude.{◌≡◌, ◌<◌, length, IfOk, IfErr, OnOk, OnErr};
ghost use Rattle.f11_volume.specs.Fresh.{used_by};
ghost use Rattle.f11_vfy.specs.Init.{Lays, FailsToLay, MakesFreshVolume, FailsToMakeFreshVolume, Inits, HasFailed};
ghost use Rattle.f11_vfy.specs.Accepted.{device_of};

use crate::accepted::Accepted;
use f11_bytes::{Block, zeros};
use f11_dev::{Device, DeviceFault};
use f11_volume::f11_layout::{InitParams, Layout};

/// Why no volume was made; the device comes back.
#[derive(Drop)]
pub enum InitError<D: Device> {
    /// The label isn't 1 to 12 of the characters A to Z and 0 to 9, slots aren't 16 to 16,000, files aren't from slots to
    /// 65,500, the device has more than 516,096 blocks, or fewer than the layout needs. Nothing was written.
    BadParameter(D),
    /// A transfer failed. No block behind the layout changed; the image has no home block but one that it had, or is accepted.
    DeviceFault(D),
}

/// Where the home block of a fresh volume is: the first candidate (Files-11 On-Disk Structure Level 1, "Home Block").
const HOME: u32 = 1;

/// Makes a fresh volume of all blocks of the device (profile: its layout). It writes each block of the layout once and no other,
/// the home block last of all, and takes no memory. So an image without a home block has none at any stop before that write.
///
/// # Errors
///
/// `BadParameter` where no volume can be made with these, and then nothing is written; `DeviceFault` where a write failed.
pub fn init<D: Device>(device: D, params: &InitParams) -> Result<Accepted<D>, InitError<D>>
    ensures made { IfOk result (λ made. Inits params.now (D.disk device)
        (D.disk (device_of made))) }
    ensures refused { IfErr result (λ error. HasFailed params.now (D.disk device) D.disk error) }
{
    let mut device = device;
    let Some(layout) = Layout::new(params, device.blocks()) else {
        return Err(InitError::BadParameter(device));
    };
    match lay_out(&mut device, &layout) {
        Ok(()) => Ok(Accepted::again(device)),
        Err(DeviceFault) => Err(InitError::DeviceFault(device)),
    }
}

/// Writes the front of a fresh volume with this layout, the home block last.
fn lay_out<D: Device>(device: &mut D, layout: &Layout) -> Result<(), DeviceFault>
    requires { layout.now.blocks ≡ length (D.disk device.old).image }
    ensures done { OnOk result (MakesFreshVolume layout.now (D.disk device.old) (D.disk device.new)) }
    ensures failed { OnErr result (FailsToMakeFreshVolume layout.now (D.disk device.old)
        (D.disk device.new)) }
{
    let mut block = zeros();
    lay(device, layout, 0, &mut block)?;
    for lbn in HOME + 1..layout.used_blocks() {
        lay(device, layout, lbn, &mut block)?;
    }
    lay(device, layout, HOME, &mut block)?;
    Ok(())
}

/// Writes one block of it, which is put together in the caller's.
fn lay<D: Device>(
    device: &mut D,
    layout: &Layout,
    lbn: u32,
    block: &mut Block,
) -> Result<(), DeviceFault>
    requires room { lbn < length (D.disk device.old).image }
    requires front { lbn < used_by layout.now }
    ensures done { OnOk result (Lays layout.now lbn (D.disk device.old) (D.disk device.new)) }
    ensures failed { OnErr result (FailsToLay layout.now lbn (D.disk device.old)
        (D.disk device.new)) }
{
    layout.fill(lbn, block);
    device.write(lbn, block)
}
