//! Which blocks of a file aren't there.
ghost use Rattle.std.specs.Prelude.{◌≡◌, Some};
ghost use Rattle.f11_commands.specs.TakingOut.{end_before as end_cut};

use std::fmt;

/// Where a file ends in bytes that is taken out up to an end, or before the first block, if there is one, by which it breaks off.
pub(crate) fn end_before(end: u64, broke: Option<u64>) -> u64
    ensures { result ≡ end_cut end broke }
{
    match broke {
        Some(vbn) => end.min(vbn.saturating_sub(1).saturating_mul(512)),
        None => end,
    }
}

/// Which blocks of a file aren't there, by their VBNs.
#[derive(Clone, Copy)]
pub(crate) struct ShownMissing {
    /// The first for which zeros were given, if there is one: it lies past the image's end.
    pub(crate) zeros: Option<u64>,
    /// The first that wasn't given, if there is one: the file broke off there.
    pub(crate) broke: Option<u64>,
}

impl fmt::Display for ShownMissing {
    ghost use Rattle.f11_commands.specs.TakingOut.{missing_text};

    ghost output = { λ missing. Some (missing_text missing.zeros missing.broke) };

    fn fmt<W: fmt::Write>(&self, f: &mut fmt::Formatter<W>) -> fmt::Result {
        if let Some(vbn) = self.zeros {
            write!(f, " zeros from VBN {vbn}")?;
        }
        match self.broke {
            Some(vbn) => write!(f, " broke off at VBN {vbn}"),
            None => Ok(()),
        }
    }
}
