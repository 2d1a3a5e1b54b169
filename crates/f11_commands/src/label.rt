//! The label of a volume, as it is shown.
ghost use Rattle.std.specs.Prelude.{◌≡◌};
ghost use Rattle.f11_commands.specs.Label.{is_filler, shown_byte, without_filler};

use std::fmt;

/// The 12 bytes of a volume's label.
///
/// They are shown without the zeros and spaces at their end, and a byte that isn't from 32 to 126 as `?` (profile).
#[derive(Clone, Copy, Debug, PartialEq, Eq)]
pub struct Label(pub [u8; 12]);

impl fmt::Display for Label {
    ghost use Rattle.std.specs.Prelude.{Some};
    ghost use Rattle.f11_commands.specs.Label.{label_text};

    ghost output = { λ label. Some (label_text label.0) };

    fn fmt<W: fmt::Write>(&self, f: &mut fmt::Formatter<W>) -> fmt::Result {
        for byte in trimmed(&self.0) {
            f.write_char(char::from(printable(*byte)))?;
        }
        Ok(())
    }
}

/// The bytes without the zeros and spaces at their end.
fn trimmed(bytes: &[u8]) -> &[u8]
    ensures { result.now ≡ without_filler bytes.now }
{
    let mut kept = bytes;
    while let [rest @ .., last] = kept
        && is_filler(*last)
    {
        kept = rest;
    }
    kept
}

/// Whether a byte fills up the end of a label.
fn is_filler(byte: u8) -> bool
    ensures { result ≡ is_filler byte }
{
    matches!(byte, 0 | b' ')
}

/// The byte, or `?` where it has no printed form.
fn printable(byte: u8) -> u8
    ensures { result ≡ shown_byte byte }
{
    match byte {
        b' '..=b'~' => byte,
        _ => b'?',
    }
}
