//! A field of a file's first header, written and sealed.
ghost use Rattle.std.specs.Prelude.{◌≡◌, false, IsTrue};
ghost use Rattle.f11_bytes.specs.Words.{word_sum};
ghost use Rattle.f11_image_store.specs.FieldLaws.{SaysBut};
ghost use Rattle.f11_files.specs.Changing.Fields.{altered_by};
ghost use Rattle.f11_files.specs.Finding.First.{IsFirstHeaderOf};
ghost use Rattle.f11_header.specs.Fields.{characteristics, check_word, map_area};
ghost use Rattle.f11_header.specs.Header.{header_in, header_with, holds_header};
ghost use Rattle.f11_header.specs.MapFields.{segment};
ghost use Rattle.f11_store.specs.Changes.{with_replacement};
ghost use Rattle.f11_store.specs.File.{with_contiguous, with_mark, without_contiguous};
ghost use Rattle.f11_store.specs.Lags.{with_no_mark};

use f11_bytes::Block;
use f11_header::{Header, HeaderMut};
use f11_store::{Change, FileId};

/// What a file's first header is to say otherwise.
#[derive(Clone, Copy)]
pub(crate) enum Alteration {
    /// A part of the file's attributes.
    Replace(Change),
    /// That it is marked for delete (SC.MDL).
    Mark,
    /// That it is marked contiguous (UC.CON).
    MarkContiguous,
}

/// The bit of the characteristics by which a file is marked for delete (SC.MDL).
const MARKED: u16 = 0o100000;

/// The bit of the characteristics by which a file is marked contiguous (UC.CON).
const CONTIGUOUS: u16 = 0o200;

/// All bits of the characteristics but the contiguous mark (UC.CON).
const NOT_CONTIGUOUS: u16 = 0o177577;

/// Sets the user attributes.
fn set_attributes(block: &mut Block, attributes: &[u8; 32])
    requires { IsTrue (holds_header block.old) }
    ensures says { header_in block.new
        ≡ header_with (λ h. record h { attributes = attributes.now }) block.old }
    ensures sum { check_word block.new ≡ word_sum block.new 255 }
{
    let mut header = HeaderMut::new(block);
    header.set_attributes(attributes);
    header.seal();
}

/// Sets the ident area.
fn set_ident(block: &mut Block, ident: &[u8; 46])
    requires holds { IsTrue (holds_header block.old) }
    requires first { segment (map_area block.old) ≡ 0 }
    ensures says { header_in block.new
        ≡ header_with (λ h. record h { ident = ident.now }) block.old }
    ensures sum { check_word block.new ≡ word_sum block.new 255 }
{
    let mut header = HeaderMut::new(block);
    header.set_ident(ident);
    header.seal();
}

/// Sets the protection word.
fn set_protection(block: &mut Block, protection: u16)
    requires { IsTrue (holds_header block.old) }
    ensures says { header_in block.new
        ≡ header_with (λ h. record h { protection = protection }) block.old }
    ensures sum { check_word block.new ≡ word_sum block.new 255 }
{
    let mut header = HeaderMut::new(block);
    header.set_protection(protection);
    header.seal();
}

/// Sets the characteristics.
fn set_characteristics(block: &mut Block, characteristics: u16)
    requires { IsTrue (holds_header block.old) }
    ensures says { header_in block.new
        ≡ header_with (λ h. record h { characteristics = characteristics }) block.old }
    ensures sum { check_word block.new ≡ word_sum block.new 255 }
{
    let mut header = HeaderMut::new(block);
    header.set_characteristics(characteristics);
    header.seal();
}

/// The characteristics with the mark for delete.
fn marked(block: &Block) -> u16
    ensures { result ≡ with_mark (characteristics block.now) }
{
    Header::new(block).characteristics() | MARKED
}

/// The characteristics with the contiguous mark.
fn contiguous(block: &Block) -> u16
    ensures { result ≡ with_contiguous (characteristics block.now) }
{
    Header::new(block).characteristics() | CONTIGUOUS
}

/// The characteristics without the contiguous mark.
fn not_contiguous(block: &Block) -> u16
    ensures { result ≡ without_contiguous (characteristics block.now) }
{
    Header::new(block).characteristics() & NOT_CONTIGUOUS
}

/// Replaces a part of a file's attributes in its first header.
fn replace(block: &mut Block, f: FileId, change: &Change)
    requires { IsFirstHeaderOf f block.old }
    ensures { SaysBut (with_replacement change.now) block.old block.new }
{
    match change {
        Change::Attr(attributes) => set_attributes(block, attributes),
        Change::Ident(ident) => set_ident(block, ident),
        Change::Protect(word) => set_protection(block, *word),
    }
}

/// Alters what a file's first header says.
pub(crate) fn apply(block: &mut Block, f: FileId, alteration: Alteration)
    requires { IsFirstHeaderOf f block.old }
    ensures { SaysBut (altered_by alteration) block.old block.new }
{
    match alteration {
        Alteration::Replace(change) => replace(block, f, &change),
        Alteration::Mark => {
            let characteristics = marked(block);
            set_characteristics(block, characteristics);
        }
        Alteration::MarkContiguous => {
            let characteristics = contiguous(block);
            set_characteristics(block, characteristics);
        }
    }
}

/// Clears the contiguous mark in a file's first header, and says whether it was set.
pub(crate) fn clear_contiguous(block: &mut Block, f: FileId) -> bool
    requires { IsFirstHeaderOf f block.old }
    ensures cleared { IsTrue result → SaysBut with_no_mark block.old block.new }
    ensures none { result ≡ false
        → without_contiguous (characteristics block.old) ≡ characteristics block.old }
    ensures unchanged { result ≡ false → block.new ≡ block.old }
{
    let characteristics = not_contiguous(block);
    if characteristics == Header::new(block).characteristics() {
        return false;
    }
    set_characteristics(block, characteristics);
    true
}
