//! What is answered where a walk along headers fails, and which answers fail the volume.
ghost use Rattle.std.specs.Prelude.{◌≡◌, ◌==◌};
ghost use Rattle.f11_files.specs.Answers.{is_refused, is_fatal, refusal_for};
ghost use Rattle.f11_store.specs.Refusal.{refusal_number};

use f11_chain::ChainFault;
use f11_store::Refusal;

/// Whether an answer fails the volume: a transfer failed, or its structure was met broken.
pub(crate) fn is_fatal<T>(answer: &Result<T, Refusal>) -> bool
    ensures { result ≡ is_refused is_fatal answer.now }
{
    matches!(answer, Err(Refusal::DeviceFault) | Err(Refusal::Damaged))
}

/// What a fault of a walk along a file's headers is to those who ask.
pub(crate) fn refusal_for(fault: ChainFault) -> Refusal
    ensures { result ≡ refusal_for fault }
{
    match fault {
        ChainFault::EndOfFile => Refusal::EndOfFile,
        ChainFault::DeviceFault => Refusal::DeviceFault,
        ChainFault::Damaged => Refusal::Damaged,
    }
}

/// Whether a refusal is that no file has the identification.
pub(crate) fn is_no_file(refusal: Refusal) -> bool
    ensures { result ≡ (refusal_number refusal == 6) }
{
    matches!(refusal, Refusal::NoSuchFile)
}

/// Whether a refusal is that no header is free.
pub(crate) fn is_no_header(refusal: Refusal) -> bool
    ensures { result ≡ (refusal_number refusal == 17) }
{
    matches!(refusal, Refusal::NoHeader)
}
