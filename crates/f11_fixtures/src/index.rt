//! Index files.
ghost use Rattle.std.specs.Prelude.{length, IfOk};
ghost use Rattle.f11_index.specs.Kept.{index_kept, IndexLiesWithin};

use f11_dev::Device;
use f11_home::find;
use f11_index::{IndexFault, IndexFile};
use std::alloc::Global;

/// Finds the home block of a device, and loads its index file, by three transfers on a small volume.
///
/// # Errors
///
/// Those of [`IndexFile::load`]; `DeviceFault` also where there is no home block.
pub fn load<D: Device>(alloc: Global, device: &mut D) -> Result<IndexFile, IndexFault>
    ensures { IfOk result (λ index. IndexLiesWithin (index_kept index)
        (length (D.disk device.new).image)) }
{
    let Ok(home) = find(device) else {
        return Err(IndexFault::DeviceFault);
    };
    IndexFile::load(alloc, device, &home)
}

/// The LBN of header `n`, where there is such a slot.
pub fn header_lbn(index: &IndexFile, n: u16) -> Option<u32> {
    if n == 0 || u32::from(n) > index.slots() {
        return None;
    }
    Some(index.lbn_of_header(n))
}
