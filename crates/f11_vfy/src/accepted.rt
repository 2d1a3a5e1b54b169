//! A device with an accepted volume on it.
ghost use Rattle.std.specs.Prelude.{◌≡◌, IsTrue};
ghost use Rattle.f11_volume.specs.Verdict.{IsAccepted};

use f11_dev::Device;

/// A device whose image has no fault where the device is honest: a value of this type is the proof.
#[derive(Drop)]
pub struct Accepted<D: Device> {
    device: D,
    /// The image has no fault where the device is honest.
    pub ghost accepted: { IsTrue (D.disk device).honest → IsAccepted (D.disk device).image },
}

impl<D: Device> Accepted<D> {
    ghost use Rattle.f11_vfy.specs.Accepted.{device_of};

    /// The device again, once what was done to it left its image accepted.
    pub fn again(device: D) -> Accepted<D>
        requires { IsTrue (D.disk device).honest → IsAccepted (D.disk device).image }
        ensures { device_of result ≡ device }
    {
        Accepted { device }
    }

    /// The device as it is, whose image is accepted where it is honest.
    pub fn device(self) -> D
        ensures device { result ≡ device_of self }
        ensures accepted { IsTrue (D.disk result).honest → IsAccepted (D.disk result).image }
    {
        let Accepted { device } = self;
        device
    }
}
