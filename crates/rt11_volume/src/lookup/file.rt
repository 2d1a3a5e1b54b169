//! A file on a device, by its name.
ghost use Rattle.std.specs.Prelude.{◌≡◌, ◌⊎◌, ◌+◌, ◌<◌, ◌≤◌, ◌^◌, IfOk, IfErr, IfSome, IsNone, IsErrOf, length};
ghost use Rattle.f11_dev.specs.Looked.{Looked};
ghost use Rattle.rt11_volume.specs.Files.{faults_in, FailsToFindFile, FailsToReach, IsBlockAt};
ghost use Rattle.rt11_volume.specs.InHand.{SaysEntry};
ghost use Rattle.rt11_volume.specs.Searching.Looking.{found_segment, found_entry, FindsFirst};
ghost use Rattle.rt11_volume.specs.Searching.Locating.{IsPlaceOf, Knows, LiesThere, Locates};
ghost use Rattle.rt11_volume.specs.Verifying.Verdict.{IsSoundDisk};
ghost use Rattle.rt11_volume.specs.Segment.{area_start};
ghost use Rattle.rt11_volume.specs.Store.{rt_store_of};

use crate::entry::Entry;
use crate::lookup::entry::{Found, Wanted, find_first};
use crate::refusal::RtRefusal;
use f11_dev::Device;

/// Where a file lies that was found by its name.
#[derive(Clone, Copy)]
pub(crate) struct Located {
    /// The three words of its name.
    pub(crate) name: [u16; 3],
    /// Its first block.
    pub(crate) start: u16,
    /// Its length in blocks.
    pub(crate) length: u16,
}

impl Found {
    /// The entry.
    pub(crate) fn entry(&self) -> Entry
        requires { self.now.i < length (found_segment self.now).entries }
        ensures { SaysEntry result (found_entry self.now) }
    {
        self.segment.entry(self.i)
    }

    /// Where its area begins.
    pub(crate) fn start(&self) -> u32
        requires { self.now.i < length (found_segment self.now).entries }
        ensures start { result ≡ area_start (found_segment self.now) self.now.i }
        ensures low { result < 2 ^ 24 }
    {
        self.segment.area_start(self.i)
    }
}

/// Looks for the file of a name.
pub(crate) fn find_file<D: Device>(device: &mut D, name: [u16; 3]) -> Result<Found, RtRefusal>
    ensures looked { Looked (D.disk device.old) (D.disk device.new) 62 (faults_in result) }
    ensures found { IfOk result (λ found.
        FindsFirst (Wanted.File name) found (D.disk device.old) (D.disk device.new)) }
    ensures refused { IfErr result (λ refusal. FailsToFindFile refusal name (D.disk device.old)) }
    ensures judged { ¬ IsErrOf result RtRefusal.Failed }
{
    find_first(device, &Wanted::File(name))?.ok_or(RtRefusal::NoSuchFile)
}

impl Located {
    /// Its block at a place, from 0, on a device of so many blocks.
    fn block_at(&self, place: u16, blocks: u32) -> Option<u32>
        ensures some { IfSome result (λ lbn. IsPlaceOf self.now place lbn blocks) }
        ensures none { IsNone result → self.now.length ≤ place
            ⊎ blocks ≤ self.now.start + place }
    {
        let lbn = u32::from(self.start) + u32::from(place);
        (place < self.length && lbn < blocks).then_some(lbn)
    }
}

/// Looks for the place of the file of a name.
fn look_for<D: Device>(device: &mut D, name: [u16; 3]) -> Result<Located, RtRefusal>
    ensures looked { Looked (D.disk device.old) (D.disk device.new) 62 (faults_in result) }
    ensures found { IfOk result (λ file. Locates name file (D.disk device.old)) }
    ensures refused { IfErr result (λ refusal. FailsToFindFile refusal name (D.disk device.old)) }
    ensures judged { ¬ IsErrOf result RtRefusal.Failed }
{
    let found = find_file(device, name)?;
    Ok(Located {
        name,
        start: found.start().min(65535) as u16,
        length: found.entry().length,
    })
}

/// Where the file of a name lies. It is looked for unless it is the one that was found last.
pub(crate) fn locate<D: Device>(
    device: &mut D,
    last: &mut Option<Located>,
    name: [u16; 3],
) -> Result<Located, RtRefusal>
    requires { LiesThere last.old (D.disk device.old) (D.disk device.old).image }
    ensures looked { Looked (D.disk device.old) (D.disk device.new) 62 (faults_in result) }
    ensures knows { Knows name 0 result last.old last.new
        (D.disk device.old) (D.disk device.new) }
    ensures lies { LiesThere last.new (D.disk device.old) (D.disk device.old).image }
    ensures found { IfOk result (λ file. Locates name file (D.disk device.old)) }
    ensures refused { IfErr result (λ refusal. FailsToFindFile refusal name (D.disk device.old)) }
    ensures judged { ¬ IsErrOf result RtRefusal.Failed }
{
    if let Some(file) = *last {
        if file.name == name {
            return Ok(file);
        }
    }
    let file = look_for(device, name)?;
    *last = Some(file);
    Ok(file)
}

/// The block at a place of the file of a name, from 0.
pub(crate) fn reach<D: Device>(
    device: &mut D,
    last: &mut Option<Located>,
    name: [u16; 3],
    place: u16,
) -> Result<u32, RtRefusal>
    requires { LiesThere last.old (D.disk device.old) (D.disk device.old).image }
    ensures looked { Looked (D.disk device.old) (D.disk device.new) 62 (faults_in result) }
    ensures knows { Knows name 0 result last.old last.new
        (D.disk device.old) (D.disk device.new) }
    ensures lies { LiesThere last.new (D.disk device.old) (D.disk device.old).image }
    ensures within { IfOk result (λ lbn. lbn < length (D.disk device.new).image) }
    ensures found { IfOk result (λ lbn. IsSoundDisk (D.disk device.old)
        → IsBlockAt name (rt_store_of (D.disk device.old).image) place lbn) }
    ensures refused { IfErr result (λ refusal.
        FailsToReach refusal name place (D.disk device.old)) }
    ensures judged { ¬ IsErrOf result RtRefusal.Failed }
{
    let file = locate(device, last, name)?;
    file.block_at(place, device.blocks())
        .ok_or(RtRefusal::EndOfFile)
}
