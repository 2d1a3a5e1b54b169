//! How a command ends.
ghost use Rattle.std.specs.Prelude.{◌≡◌};
ghost use Rattle.f11_commands.specs.FileAnswers.{plain_answer};
ghost use Rattle.f11_commands.specs.declared.outcome.Failure.TheVariants as failures;
ghost use Rattle.f11_commands.specs.declared.outcome.Stop.TheVariants as stops;

use crate::report::System;
use f11_bytes::NoMemory;
use f11_dev::DeviceFault;
use std::io;

/// What a command answers when its work is done. Its lines are on its writer.
#[derive(Clone, Copy, Debug, PartialEq, Eq)]
pub enum Answer {
    /// All is well.
    Done,
    /// A fault of the volume, or a name or parameter that can't be.
    Fault,
}

/// How a command on a file ended. Its lines are on the writer.
#[derive(Clone, Copy, Debug, PartialEq, Eq)]
pub enum FileAnswer {
    /// All is well.
    Done,
    /// It was refused, and that was written.
    Refused,
    /// The volume of this file system has a fault, and its report was written.
    Faulty(System),
    /// Both volumes of a copy have, and their reports were written.
    BothFaulty,
}

impl FileAnswer {
    /// What any command answers that ended so: a refusal and a faulty volume are a fault.
    pub fn answer(self) -> Answer
        ensures { result ≡ plain_answer self }
    {
        match self {
            FileAnswer::Done => Answer::Done,
            FileAnswer::Refused => Answer::Fault,
            FileAnswer::Faulty(_) => Answer::Fault,
            FileAnswer::BothFaulty => Answer::Fault,
        }
    }
}

/// Why a command's work isn't done.
#[derive(Clone, Copy, Debug, PartialEq, Eq)]
pub enum Failure {
    /// A transfer failed.
    DeviceFault,
    /// The writer takes no more.
    CannotWrite,
    /// No memory is left.
    NoMemory,
}

impl From<DeviceFault> for Failure {
    ghost from_gives = { λ _ failure. failure ≡ failures.DeviceFault };

    fn from(_: DeviceFault) -> Self {
        Failure::DeviceFault
    }
}

impl From<NoMemory> for Failure {
    ghost from_gives = { λ _ failure. failure ≡ failures.NoMemory };

    fn from(_: NoMemory) -> Self {
        Failure::NoMemory
    }
}

/// An error of a command's writer.
impl From<io::Error> for Failure {
    ghost from_gives = { λ _ failure. failure ≡ failures.CannotWrite };

    fn from(_: io::Error) -> Self {
        Failure::CannotWrite
    }
}

/// Why a file's content wasn't written to its end.
#[derive(Clone, Copy, Debug, PartialEq, Eq)]
pub(crate) enum Stop {
    /// A transfer failed behind so many bytes.
    DeviceFault(u64),
    /// The writer takes no more.
    CannotWrite,
}

impl From<io::Error> for Stop {
    ghost from_gives = { λ _ stop. stop ≡ stops.CannotWrite };

    fn from(_: io::Error) -> Self {
        Stop::CannotWrite
    }
}
