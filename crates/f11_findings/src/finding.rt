//! One finding.
ghost use Rattle.std.specs.Prelude.{◌≡◌, ◌↔◌, IsTrue};
ghost use Rattle.f11_findings.specs.Finding.{IsBefore};

/// A finding of a verifier: its code and two numbers, as a slot, a place or a block; 0 where it has none (profile).
#[derive(Clone, Copy, PartialEq, Eq, Debug)]
pub struct Finding {
    /// Its code, as the 9 of `F9`.
    pub code: u8,
    /// The first number.
    pub a: u32,
    /// The second number.
    pub b: u32,
}

impl Finding {
    /// Whether it stands before another: in the order of the codes, then of the first numbers, then of the second.
    pub fn is_before(&self, other: &Finding) -> bool
        ensures { IsTrue result ↔ IsBefore self.now other.now }
    {
        if self.code != other.code {
            return self.code < other.code;
        }
        if self.a != other.a {
            return self.a < other.a;
        }
        self.b < other.b
    }
}
