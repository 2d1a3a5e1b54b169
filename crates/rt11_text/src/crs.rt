//! The lines of a text of the host, ended by CR LF.
ghost use Rattle.std.specs.Prelude.{◌≡◌, ◌≤◌, ◌==◌, ◌&&◌, ◌++◌, ◌∷◌, [], not, length, take};
ghost use Rattle.rt11_text.specs.Crs.{crs_behind, ends_in_cr, missing_cr};

use arrayvec::ArrayVec;
use f11_bytes::Block;

/// What a block of a text becomes: at most two bytes for each.
pub type Expanded = ArrayVec<u8, 1024>;

const CR: u8 = b'\r';

const LF: u8 = b'\n';

/// Whether a CR is missing before a byte, behind a CR or not.
fn lacks_cr(cr: bool, byte: u8) -> bool
    ensures { result ≡ (byte == 10 && not cr) }
{
    byte == LF && !cr
}

/// Puts a byte behind a text, behind a CR or not, and the CR that is missing before it.
fn put_byte(text: &mut Expanded, cr: bool, byte: u8)
    requires room { length text.old.items ≤ 1022 }
    ensures { text.new.items ≡ text.old.items ++ (missing_cr cr byte ++ byte ∷ []) }
{
    if lacks_cr(cr, byte) {
        text.push(CR);
    }
    text.push(byte);
}

/// Puts CR before each of the first bytes of a block, so many, that is LF and has none before it, behind a CR or not: whether what comes behind
/// them is behind a CR.
pub fn expand(source: &Block, count: usize, cr: bool, text: &mut Expanded) -> bool
    requires few { count ≤ 512 }
    ensures bytes { text.new.items ≡ crs_behind cr (take count source.now) }
    ensures behind { result ≡ ends_in_cr cr (take count source.now) }
{
    text.clear();
    let mut behind = cr;
    for at in 0..count {
        let byte = source[at];
        put_byte(text, behind, byte);
        behind = byte == CR;
    }
    behind
}
