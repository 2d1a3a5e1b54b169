//! The protection of files for which none is given.
ghost use Rattle.std.specs.Prelude.{IfErr, IfOk};
ghost use Rattle.f11_actions.specs.Protection.{LooksInVain, TellsProtection};

use f11_bytes::{BLOCK_SIZE, read_word};
use f11_dev::Device;
use f11_home::fields::FILE_PROTECTION;
use f11_home::{HomeFault, find};

/// The protection word that a volume gives files for which none is given: H.DFPR of its home block (Files-11 On-Disk Structure Level 1,
/// "Home Block").
///
/// # Errors
///
/// `NoHome` where the device has no home block, and `DeviceFault` where a transfer failed.
pub fn default_protection<D: Device>(device: &mut D) -> Result<u16, HomeFault>
    ensures told { IfOk result (λ word. TellsProtection (D.disk device.old) (D.disk device.new) word) }
    ensures failed { IfErr result (λ fault. LooksInVain fault (D.disk device.old) (D.disk device.new)) }
{
    let home = find(device)?;
    let mut block = [0; BLOCK_SIZE];
    device.read(home.lbn(), &mut block)?;
    Ok(read_word(&block, FILE_PROTECTION))
}
