//! What a volume is made with.
ghost use Rattle.std.specs.Prelude.{◌≡◌, ◌↔◌, IsTrue};
ghost use Rattle.std.specs.List.{AllPass};
ghost use Rattle.f11_layout.specs.Places.{IsLabel, is_label_byte};

use f11_map::f11_store::Uic;

/// What a volume is made with.
#[derive(Clone, Copy)]
pub struct InitParams<'a> {
    /// The volume's label: 1 to 12 of the characters A to Z and 0 to 9.
    pub label: &'a [u8],
    /// The number of slots for headers, 16 to 16,000.
    pub slots: u16,
    /// The number of files that the volume may come to have, from `slots` to 65,500.
    pub max_files: u16,
    /// The owner of the volume and of its own files.
    pub owner: Uic,
    /// When the volume was made: 14 characters, which nothing reads.
    pub date: [u8; 14],
}

/// Whether the text is a label: 1 to 12 of the characters A to Z and 0 to 9.
pub fn is_label(label: &[u8]) -> bool
    ensures { IsTrue result ↔ IsLabel label.now }
{
    label.len() > 0 && label.len() <= 12 && are_label_bytes(label)
}

/// Whether all characters may stand in a label.
fn are_label_bytes(label: &[u8]) -> bool
    ensures { IsTrue result ↔ AllPass is_label_byte label.now }
{
    label.iter().all(|c| is_label_byte(*c))
}

/// Whether the character may stand in a label.
#[tactic(auto, unfolding(crate::specs::Places::is_label_byte))]
fn is_label_byte(c: u8) -> bool
    ensures { result ≡ is_label_byte c }
{
    matches!(c, b'A'..=b'Z' | b'0'..=b'9')
}
