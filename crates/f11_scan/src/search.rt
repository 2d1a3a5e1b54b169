//! The first header from a block on.
ghost use Rattle.std.specs.Prelude.{◌≤◌, length, IfErr, IfOk};
ghost use Rattle.f11_scan.specs.Search.{Searches, SearchFails};

use crate::FoundHeader;
use crate::uses::use_of;
use f11_bytes::zeros;
use f11_dev::Device;

/// The first block from `from` on that is a header, live or killed; `from` may be the number of blocks.
///
/// # Errors
///
/// The LBN of the block that couldn't be read.
pub(crate) fn first_from<D: Device>(device: &mut D, from: u32) -> Result<Option<FoundHeader>, u32>
    requires { from ≤ length (D.disk device.old).image }
    ensures searches { IfOk result (λ found.
        Searches found from (D.disk device.old) (D.disk device.new)) }
    ensures fails { IfErr result (λ lbn.
        SearchFails lbn from (D.disk device.old) (D.disk device.new)) }
{
    let mut block = zeros();
    for lbn in from..device.blocks() {
        match device.read(lbn, &mut block) {
            Ok(()) => {}
            Err(_) => return Err(lbn),
        }
        if let Some(header_use) = use_of(&block) {
            return Ok(Some(FoundHeader {
                lbn,
                header_use,
                block,
            }));
        }
    }
    Ok(None)
}
