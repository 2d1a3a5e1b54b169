//! The text of the host that a file of an RT-11 volume holds.
ghost use Rattle.std.specs.Prelude.{◌≡◌, ◌≤◌, ◌==◌, ◌&&◌, ◌+◌, ◌++◌, ◌∷◌, [], ℕ, List, if◌then◌else◌, length, not};
ghost use Rattle.rt11_text.specs.Text.{without_crs};
ghost use Rattle.rt11_text.specs.ToHost.{begins, kept_back, text_behind};

use arrayvec::ArrayVec;

/// What a block of a text becomes: at most two bytes for each, a CR that was kept back before one among them.
pub type Piece = ArrayVec<u8, 1024>;

const CR: u8 = b'\r';

const LF: u8 = b'\n';

/// The end of a text, where one stands before the end of its file (CTRL/Z).
const END: u8 = 26;

/// How far a text was gone over.
#[derive(Clone, Copy, Debug)]
pub struct ToHost {
    /// Whether the last byte that means something is a CR, which is kept back.
    pub(crate) cr: bool,
    /// Whether its end was met.
    pub(crate) ended: bool,
}

/// Whether a CR before a byte, if there is one, is a byte of the line, since it isn't LF.
fn is_of_line(cr: bool, byte: u8) -> bool
    ensures { result ≡ (cr && not (byte == 10)) }
{
    cr && byte != LF
}

/// Puts a byte behind a piece, if it is put.
fn put_if(into: &mut Piece, byte: u8, puts: bool)
    requires room { length into.old.items ≤ 1023 }
    ensures { into.new.items ≡ into.old.items ++ (if puts then byte ∷ [] else []) }
{
    if puts {
        into.push(byte);
    }
}

impl ToHost {
    /// Before its first byte.
    pub fn begin() -> ToHost
        ensures { result ≡ begins }
    {
        ToHost {
            cr: false,
            ended: false,
        }
    }

    /// Takes a byte, and puts what it gives behind a piece.
    fn take_byte(&mut self, byte: u8, into: &mut Piece)
        requires room { length into.old.items ≤ 1022 }
        ensures gives { (rest : List ℕ) → into.old.items ++ text_behind self.old (byte ∷ rest)
            ≡ into.new.items ++ text_behind self.new rest }
        ensures few { length into.new.items ≤ length into.old.items + 2 }
    {
        if self.ended {
            return;
        }
        if byte == 0 {
            return;
        }
        if byte == END {
            self.ended = true;
        } else {
            self.put_byte(byte, into);
        }
    }

    /// Puts a byte that means something behind a piece, and before it the CR that was kept back, if that is of the line; or keeps it back.
    fn put_byte(&mut self, byte: u8, into: &mut Piece)
        requires room { length into.old.items ≤ 1022 }
        ensures puts { (text : List ℕ)
            → into.old.items ++ without_crs (kept_back self.old ++ byte ∷ text)
            ≡ into.new.items ++ without_crs (kept_back self.new ++ text) }
        ensures ended { self.new.ended ≡ self.old.ended }
        ensures few { length into.new.items ≤ length into.old.items + 2 }
    {
        put_if(into, CR, is_of_line(self.cr, byte));
        put_if(into, byte, byte != CR);
        self.cr = byte == CR;
    }

    /// Takes so many bytes of a file, at most 512, and gives what the host gets of them: a CR at their end is kept back until it is known whether
    /// LF follows. What came before stays out of `into`, which is emptied first.
    pub fn convert(&mut self, source: &[u8], into: &mut Piece)
        requires few { length source.now ≤ 512 }
        ensures gives { (rest : List ℕ) → text_behind self.old (source.now ++ rest)
            ≡ into.new.items ++ text_behind self.new rest }
    {
        into.clear();
        for at in 0..source.len() {
            self.take_byte(source[at], into);
        }
    }

    /// Whether the text ended: what follows means nothing.
    pub fn has_ended(&self) -> bool
        ensures { result ≡ self.now.ended }
    {
        self.ended
    }

    /// What the host gets behind the last byte: a CR that was kept back, or nothing.
    pub fn end<'a>(self) -> &'a [u8]
        ensures { result.now ≡ text_behind self [] }
    {
        if self.cr { &[CR] } else { &[] }
    }
}
