//! A device is scanned for headers.
ghost use Rattle.std.specs.Prelude.{◌≡◌, ◌+◌, ◌-◌, ◌≤◌, length, min, IfErr, IfOk, OnErr, OnOk};
ghost use Rattle.f11_dev.specs.Looked.{Looked};

use crate::FoundHeader;
use crate::search::first_from;
use f11_dev::{Device, DeviceFault};

/// A device, and the LBN from which its blocks are looked at for headers. Each is read once, in ascending order, and none is written.
#[derive(Drop)]
pub struct Scan<D: Device> {
    device: D,
    place: u32,
    ghost within: { place ≤ length (D.disk device).image },
}

impl<D: Device> Scan<D> {
    ghost use Rattle.f11_scan.specs.Scan.{place_of, scanned_device, scanned_disk, FindsNext, StopsAt};

    /// A scan from block 0 on.
    pub fn new(device: D) -> Scan<D>
        ensures device { scanned_device result ≡ device }
        ensures place { place_of result ≡ 0 }
    {
        Scan { device, place: 0 }
    }

    /// The LBN of the block that is looked at next, or the number of blocks where none is left.
    pub fn place(&self) -> u32
        ensures place { result ≡ place_of self.now }
        ensures within { result ≤ length (scanned_disk D.disk self.now).image }
    {
        self.place
    }

    /// The next header, live or killed, from where the scan is, which then is right behind it; or none up to the end of the device.
    ///
    /// # Errors
    ///
    /// `DeviceFault` where a block couldn't be read. The scan is at that block then: it is read again by another call, and passed by where
    /// [`Scan::skip`] is called first.
    pub fn next(&mut self) -> Result<Option<FoundHeader>, DeviceFault>
        // Which header it is, and that none was passed over, or that there is none.
        ensures next { IfOk result (λ found. FindsNext found (scanned_disk D.disk self.old)
            (place_of self.old) (place_of self.new)) }

        // How far a scan had come that failed.
        ensures stopped { OnErr result (StopsAt (scanned_disk D.disk self.old)
            (place_of self.old) (place_of self.new)) }

        // The device was only read, in at most one transfer a block,
        ensures looked { OnOk result (Looked (scanned_disk D.disk self.old)
            (scanned_disk D.disk self.new) (place_of self.new - place_of self.old) 0) }

        // and one failed exactly where that is answered.
        ensures failed { OnErr result (Looked (scanned_disk D.disk self.old)
            (scanned_disk D.disk self.new) (place_of self.new + 1 - place_of self.old) 1) }
    {
        match first_from(&mut self.device, self.place) {
            Ok(Some(found)) => {
                self.place = found.lbn + 1;
                Ok(Some(found))
            }
            Ok(None) => {
                self.place = self.device.blocks();
                Ok(None)
            }
            Err(lbn) => {
                self.place = lbn;
                Err(DeviceFault)
            }
        }
    }

    /// Passes by the block that would be looked at next; at the end there is none.
    pub fn skip(&mut self)
        ensures place { place_of self.new
            ≡ min (place_of self.old + 1) (length (scanned_disk D.disk self.old).image) }
        ensures device { scanned_device self.new ≡ scanned_device self.old }
    {
        if self.place < self.device.blocks() {
            self.place += 1;
        }
    }

    /// The device, as it is.
    pub fn device(self) -> D
        ensures { result ≡ scanned_device self }
    {
        let Scan { device, place: _ } = self;
        device
    }
}
