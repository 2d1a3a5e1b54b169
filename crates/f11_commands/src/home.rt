//! The command `home`.
ghost use Rattle.std.specs.Prelude.{◌≡◌, ◌⊎◌, IfErr, OnOk};
ghost use Rattle.f11_commands.specs.Home.{home_line, FailsToPrintHome, FindsHomeOrNone, PrintsHome, PrintsNoHome};
ghost use Rattle.f11_commands.specs.Output.{WriterTakes};

use crate::label::Label;
use crate::outcome::{Answer, Failure};
use crate::volume::VolumeFault;
use f11_dev::Device;
use f11_home::{Home, HomeFault, find};
use std::io::{self, Write};

/// Finds the home block of a device and writes its line, `home LBN label L index IBLB IBSZ max FMAX`: its LBN, the
/// label, the LBN and the number of blocks of the index file's bitmap, and the greatest number of files.
///
/// Where there is none it writes `fault F1 no home block`, and answers [`Answer::Fault`].
///
/// # Errors
///
/// [`Failure::DeviceFault`] where a transfer failed, and [`Failure::CannotWrite`] where the writer takes no more:
/// then it may hold a part of the line.
pub fn print_home<D: Device, W: Write>(device: &mut D, writer: &mut W) -> Result<Answer, Failure>
    ensures done { result ≡ Ok Answer.Done
        → PrintsHome D.disk device.old device.new W.contents writer.old writer.new }
    ensures fault { result ≡ Ok Answer.Fault
        → PrintsNoHome D.disk device.old device.new W.contents writer.old writer.new }
    ensures device_fault { result ≡ Err Failure.DeviceFault
        → FailsToPrintHome D.disk device.old device.new W.contents writer.old writer.new }
    ensures cannot_write { result ≡ Err Failure.CannotWrite
        → FindsHomeOrNone (D.disk device.old) (D.disk device.new) }
    ensures failures { IfErr result (λ failure. (failure ≡ Failure.DeviceFault)
        ⊎ (failure ≡ Failure.CannotWrite)) }
{
    match find(device) {
        Ok(home) => {
            write_home(&home, writer)?;
            Ok(Answer::Done)
        }
        Err(HomeFault::DeviceFault) => Err(Failure::DeviceFault),
        Err(HomeFault::NoHome) => {
            writeln!(writer, "fault {}", VolumeFault::NoHome)?;
            Ok(Answer::Fault)
        }
    }
}

/// Writes the line of a home block.
fn write_home<W: Write>(home: &Home, writer: &mut W) -> io::Result<()>
    ensures { OnOk result (WriterTakes W.contents writer.old writer.new (home_line home.now)) }
{
    writeln!(
        writer,
        "home {} label {} index {} {} max {}",
        home.lbn(),
        Label(home.label()),
        home.index_lbn(),
        home.index_blocks(),
        home.max_files()
    )
}
