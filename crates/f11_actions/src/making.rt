//! The command that makes a directory.
ghost use Rattle.f11_actions.specs.Making.{EndsMaking};

use crate::behind::Behind;
use crate::command::print_actions;
use crate::protection::default_protection;
use f11_commands::{Failure, FileAnswer};
use f11_dev::Device;
use f11_home::HomeFault;
use f11_making::Action;
use f11_rad50::Name;
use f11_store::Uic;
use std::alloc::Global;
use std::io::Write;

/// Makes a directory of this name for its owner, with the protection that the volume gives files for which none is given, as
/// [`print_actions`] does one action, and writes its lines, `NAME.DIR;V made` and the last one. On a volume without a home block, of whose
/// faults the verifier tells, nothing is asked.
///
/// # Errors
///
/// As of [`print_actions`]; [`Failure::DeviceFault`] also where the home block can't be read.
pub fn print_making<D: Device, W: Write>(
    alloc: Global,
    mut device: D,
    name: Name,
    owner: Uic,
    writer: &mut W,
) -> (D, Result<FileAnswer, Failure>)
    ensures ends { EndsMaking name owner result.1 (D.disk device) (D.disk result.0)
        W.contents writer.old writer.new }
{
    let told = default_protection(&mut device);
    match told {
        Ok(protection) => {
            let action = Action::MakeDirectory {
                name,
                owner,
                protection,
            };
            print_actions(alloc, device, &[action], Behind::GoesOn, writer)
        }
        Err(fault) => match fault {
            HomeFault::NoHome => print_actions(alloc, device, &[], Behind::GoesOn, writer),
            HomeFault::DeviceFault => (device, Err(Failure::DeviceFault)),
        },
    }
}
