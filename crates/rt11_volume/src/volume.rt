//! A volume that was accepted.
ghost use Rattle.std.specs.Prelude.{◌≡◌, false, IfSome, IsTrue};
ghost use Rattle.std.proofs.Props.{props};
ghost use Rattle.rt11_volume.specs.Files.{IsLocated};
ghost use Rattle.rt11_volume.specs.Verifying.Verdict.{IsRtAccepted};

use crate::lookup::file::Located;
use f11_dev::Device;

/// An RT-11 volume without faults, and its device.
///
/// After a call has answered `DeviceFault` each later one answers `Failed`, until the device is verified again.
#[derive(Drop)]
pub struct RtAccepted<D: Device> {
    pub(crate) device: D,
    /// Whether a call has answered `DeviceFault`.
    pub(crate) failed: bool,
    /// The image has no fault where the device is honest and no call has failed.
    pub ghost sound: { IsTrue (D.disk device).honest → failed ≡ false → IsRtAccepted (D.disk device).image },
    /// The file that was found last, unless a call that may write the directory was made since.
    pub(crate) last: Option<Located>,
    /// It lies there still.
    pub ghost lies: { IsTrue (D.disk device).honest → failed ≡ false
        → IfSome last (λ file. IsLocated file (D.disk device).image) } by { Prim.hlevel props },
}

impl<D: Device> RtAccepted<D> {
    ghost use Rattle.rt11_volume.specs.Calls.{volume_device};

    /// Gives the device up, as it is. No transfer is made.
    pub fn device(self) -> D
        ensures { result ≡ volume_device self }
    {
        self.device
    }
}
