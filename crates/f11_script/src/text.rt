//! A line, as it is put together.

ghost use Rattle.std.specs.Prelude.{◌≡◌, ◌+◌, ◌≤◌, length, drop};
ghost use Rattle.std.specs.Fmt.{decimal};
ghost use Rattle.f11_store.specs.Text.{octal_digits};
ghost use Rattle.f11_script.specs.Pieces.{PutsUpTo};

use arrayvec::ArrayVec;
use itoa::Buffer;

/// The bytes that the line of an answer may take: 1,033 for a block without a zero at its end.
const ROOM: usize = 1040;

/// A line as it is put together.
pub(crate) type Text = ArrayVec<u8, ROOM>;

/// Puts a piece, for which there is room.
pub(crate) fn put(text: &mut Text, piece: &[u8])
    requires { length text.old.items + length piece.now ≤ 1040 }
    ensures { PutsUpTo (length piece.now) text.old.items text.new.items piece.now }
{
    let _ = text.try_extend_from_slice(piece);
}

/// Puts a number in decimal.
pub(crate) fn put_number(text: &mut Text, number: u32)
    requires { length text.old.items + 10 ≤ 1040 }
    ensures { PutsUpTo 10 text.old.items text.new.items (decimal number) }
{
    put(text, Buffer::new().format(number).as_bytes());
}

/// Puts a number in octal.
pub(crate) fn put_octal(text: &mut Text, number: u16)
    requires { length text.old.items + 6 ≤ 1040 }
    ensures { PutsUpTo 6 text.old.items text.new.items (octal_digits number) }
{
    let (digits, first) = octal(number);
    put(text, &digits[first..]);
}

/// The octal digits of a number, at the end of six bytes, and the place of the first one.
fn octal(number: u16) -> ([u8; 6], usize)
    ensures first { result.1 ≤ 5 }
    ensures digits { drop result.1 result.0 ≡ octal_digits number }
{
    let mut digits = [b'0'; 6];
    let mut at = 6;
    let mut rest = number;
    loop {
        at -= 1;
        digits[at] = b'0' + (rest % 8) as u8;
        rest /= 8;
        if rest == 0 {
            return (digits, at);
        }
    }
}
