//! Actions on a mounted volume.
ghost use Rattle.std.specs.Prelude.{◌≡◌, IfErr, IfOk};
ghost use Rattle.f11_actions.specs.Command.{BreaksOff, BreaksOne, DoesAll, DoesOne, ending};
ghost use Rattle.f11_actions.specs.Tried.{is_stopped as stopped_behind};
ghost use Rattle.f11_actions.specs.Lines.{refused_one};

use crate::behind::Behind;
use crate::line::write_line;
use f11_commands::{Failure, MASTER_DIRECTORY, OPERATOR, first_lun, first_task};
use f11_dev::Device;
use f11_fcp::Volume;
use f11_making::{Action, Asker, carry_out};
use f11_store::Refusal;
use std::io::Write;

/// How many actions were done, and how many were refused.
#[derive(Clone, Copy, Debug, PartialEq, Eq)]
pub(crate) struct Counts {
    pub(crate) done: usize,
    pub(crate) refused: usize,
}

/// As which failure an action is told behind which none is done; `None` where the others are.
fn ending(came: &Result<(), Refusal>) -> Option<Failure>
    ensures { result ≡ ending came.now }
{
    match came {
        Err(Refusal::DeviceFault | Refusal::Damaged) => Some(Failure::DeviceFault),
        Err(Refusal::NoMemory) => Some(Failure::NoMemory),
        _ => None,
    }
}

/// 1 where an action was refused, else 0.
fn refused_one(came: &Result<(), Refusal>) -> usize
    ensures { result ≡ refused_one came.now }
{
    match came {
        Ok(()) => 0,
        Err(_) => 1,
    }
}

/// Does an action, for the operator, and writes its line: 1 where it is refused, else 0.
fn act_one<D: Device, W: Write>(
    volume: &mut Volume<D>,
    action: &Action,
    writer: &mut W,
) -> Result<usize, Failure>
    ensures does { IfOk result (λ refused. DoesOne action.now refused volume.old volume.new
        W.contents writer.old writer.new) }
    ensures failed { IfErr result (λ failure. BreaksOne action.now failure volume.old volume.new
        writer.old writer.new) }
{
    let by = Asker {
        task: first_task(),
        lun: first_lun(),
        uic: OPERATOR,
    };
    let came = carry_out(volume, &by, MASTER_DIRECTORY, action);
    if let Some(failure) = ending(&came) {
        return Err(failure);
    }
    match write_line(writer, action, &came) {
        Ok(()) => Ok(refused_one(&came)),
        Err(_) => Err(Failure::CannotWrite),
    }
}

/// Whether none is tried behind so many that were refused.
fn is_stopped(behind: Behind, refused: usize) -> bool
    ensures { result ≡ stopped_behind behind refused }
{
    match behind {
        Behind::GoesOn => false,
        Behind::Stops => refused != 0,
    }
}

/// Does one action after another, and writes the line of each: how many were done, and how many refused.
pub(crate) fn act_all<D: Device, W: Write>(
    volume: &mut Volume<D>,
    actions: &[Action],
    behind: Behind,
    writer: &mut W,
) -> Result<Counts, Failure>
    ensures does { IfOk result (λ counts. DoesAll behind actions.now counts.done counts.refused
        volume.old volume.new W.contents writer.old writer.new) }
    ensures failed { IfErr result (λ failure. BreaksOff behind actions.now failure volume.old volume.new
        W.contents writer.old writer.new) }
{
    let mut done = 0;
    let mut refused = 0;
    for action in actions {
        let one = act_one(volume, action, writer)?;
        refused += one;
        done += 1 - one;
        if is_stopped(behind, refused) {
            return Ok(Counts { done, refused });
        }
    }
    Ok(Counts { done, refused })
}
