//! How the program ends.
ghost use Rattle.std.specs.Prelude.{◌≡◌};
ghost use Rattle.f11_pip.specs.Outcome.{status_of};
ghost use Rattle.f11_pip.specs.declared.outcome.Failure.TheVariants as failures;

use f11_commands::{Answer, PutFailure, RunFailure};
use f11_dev::{CannotOpen, NoMemory};
use std::alloc::AllocError;
use std::{fmt, io};

/// Why the work isn't done. Its line is on standard error.
#[derive(Clone, Copy, Debug, PartialEq, Eq)]
pub enum Failure {
    /// The words don't parse, ask for help, or there are none.
    Usage,
    /// A file can't be opened, or a host's file not be read to its length.
    CannotOpen,
    /// A transfer failed.
    DeviceFault,
    /// A script can't be read, or its answers can't be written.
    ScriptFault,
    /// Standard output takes no more, or a file of the host that is made.
    CannotWrite,
    /// No memory is left.
    NoMemory,
}

impl fmt::Display for Failure {
    ghost use Rattle.std.specs.Prelude.{Some};
    ghost use Rattle.f11_pip.specs.Outcome.{failure_line};

    ghost output = { λ failure. Some (failure_line failure) };

    fn fmt<W: fmt::Write>(&self, f: &mut fmt::Formatter<W>) -> fmt::Result {
        f.write_str(match self {
            Failure::Usage => "f11_pip: usage",
            Failure::CannotOpen => "f11_pip: cannot open",
            Failure::DeviceFault => "f11_pip: device fault",
            Failure::ScriptFault => "f11_pip: script fault",
            Failure::CannotWrite => "f11_pip: cannot write",
            Failure::NoMemory => "f11_pip: no memory",
        })
    }
}

impl From<CannotOpen> for Failure {
    ghost from_gives = { λ _ failure. failure ≡ failures.CannotOpen };

    fn from(_: CannotOpen) -> Self {
        Failure::CannotOpen
    }
}

/// A command's failure is the program's.
impl From<f11_commands::Failure> for Failure {
    ghost use Rattle.f11_pip.specs.Outcome.{failure_of_command};

    ghost from_gives = { λ command failure. failure ≡ failure_of_command command };

    fn from(failure: f11_commands::Failure) -> Self {
        match failure {
            f11_commands::Failure::DeviceFault => Failure::DeviceFault,
            f11_commands::Failure::CannotWrite => Failure::CannotWrite,
            f11_commands::Failure::NoMemory => Failure::NoMemory,
        }
    }
}

/// A script that isn't served to its end.
impl From<RunFailure> for Failure {
    ghost use Rattle.f11_pip.specs.Outcome.{failure_of_run};

    ghost from_gives = { λ run failure. failure ≡ failure_of_run run };

    fn from(failure: RunFailure) -> Self {
        match failure {
            RunFailure::Command(failure) => Failure::from(failure),
            RunFailure::Script(_) => Failure::ScriptFault,
        }
    }
}

/// A file of the host that isn't put on a volume.
impl From<PutFailure> for Failure {
    ghost use Rattle.f11_pip.specs.Outcome.{failure_of_put};

    ghost from_gives = { λ put failure. failure ≡ failure_of_put put };

    fn from(failure: PutFailure) -> Self {
        match failure {
            PutFailure::Command(failure) => Failure::from(failure),
            PutFailure::Unread => Failure::CannotOpen,
        }
    }
}

/// An error of standard output.
impl From<io::Error> for Failure {
    ghost from_gives = { λ _ failure. failure ≡ failures.CannotWrite };

    fn from(_: io::Error) -> Self {
        Failure::CannotWrite
    }
}

impl From<NoMemory> for Failure {
    ghost from_gives = { λ _ failure. failure ≡ failures.NoMemory };

    fn from(_: NoMemory) -> Self {
        Failure::NoMemory
    }
}

impl From<AllocError> for Failure {
    ghost from_gives = { λ _ failure. failure ≡ failures.NoMemory };

    fn from(_: AllocError) -> Self {
        Failure::NoMemory
    }
}

/// Words that aren't taken.
impl From<f11_words::Failure> for Failure {
    ghost use Rattle.f11_pip.specs.Outcome.{failure_of_words};

    ghost from_gives = { λ words failure. failure ≡ failure_of_words words };

    fn from(failure: f11_words::Failure) -> Self {
        match failure {
            f11_words::Failure::Usage => Failure::Usage,
            f11_words::Failure::NoMemory => Failure::NoMemory,
        }
    }
}

/// The exit status of an outcome: 0 where all is well, 1 at a fault, 2 for wrong words, 3 where a file, a
/// device or a script fails, 4 for want of memory.
pub fn status(outcome: Result<Answer, Failure>) -> u8
    ensures { result ≡ status_of outcome }
{
    match outcome {
        Ok(Answer::Done) => 0,
        Ok(Answer::Fault) => 1,
        Err(Failure::Usage) => 2,
        Err(
            Failure::CannotOpen
            | Failure::DeviceFault
            | Failure::ScriptFault
            | Failure::CannotWrite,
        ) => 3,
        Err(Failure::NoMemory) => 4,
    }
}
