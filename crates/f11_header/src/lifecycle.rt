//! How a header begins and ends: [`blank`] and [`kill`].
ghost use Rattle.std.specs.Prelude.{◌≡◌, ◌&&◌, nat_lt, IsTrue};
ghost use Rattle.f11_header.specs.Fields.{map_area};
ghost use Rattle.f11_header.specs.Header.{holds_header, IsDead, IsEmptyHeader};
ghost use Rattle.f11_header.specs.Writing.{owner_word, with_format, blank_header, dead_header};

use crate::fields::{CHECK_WORD, IDENT_OFFSET, LEVEL, NUMBER, OWNER, PROTECTION, SEQUENCE};
use crate::map_fields::{COUNT_SIZE, IN_USE, SEGMENT};
use f11_store::f11_bytes::{Block, write_word, zeros};
use f11_store::{FileId, Uic};

/// The word at which the ident area of a new header begins.
const IDENT_WORD: u16 = 23;

/// The word at which the map area of a new header begins.
const MAP_WORD: u16 = 46;

/// The byte at which it begins.
const MAP: usize = 92;

/// Makes a block an empty header of format 1, with 102 places for retrieval pointers and no link, that isn't sealed
/// yet: its ident area at word 23 and its map area at word 46, and zeros in all fields that aren't given.
pub fn blank(block: &mut Block, id: FileId, owner: Uic, protection: u16, segment: u8)
    ensures block { block.new ≡ blank_header id owner protection segment }

    // It is a header, valid but for its check word, unless its number or its sequence number is 0.
    ensures holds { holds_header block.new ≡ (nat_lt 0 id.number && nat_lt 0 id.sequence) }

    // It says this and nothing else, and no pointer is in use.
    ensures empty { IsEmptyHeader block.new id owner protection segment }
{
    *block = zeros();
    format(block);
    write_word(block, NUMBER, id.number);
    write_word(block, SEQUENCE, id.sequence);
    write_word(block, OWNER, owner_word(owner));
    write_word(block, PROTECTION, protection);
    write_word(block, MAP + SEGMENT, u16::from(segment));
}

/// Writes offsets, level and format, as every header of this service has them.
fn format(block: &mut Block)
    ensures { block.new ≡ with_format block.old }
{
    write_word(block, IDENT_OFFSET, IDENT_WORD + 256 * MAP_WORD);
    write_word(block, LEVEL, 0o401);
    write_word(block, MAP + COUNT_SIZE, 1 + 256 * 3);
    write_word(block, MAP + IN_USE, 256 * 204);
}

/// The owner as a word.
pub fn owner_word(owner: Uic) -> u16
    ensures { result ≡ owner_word owner }
{
    u16::from(owner.member) + 256 * u16::from(owner.group)
}

/// Makes the file number and the check word of a header 0, and leaves the rest: the header is dead, and its map area is as
/// it was.
pub fn kill(block: &mut Block)
    ensures block { block.new ≡ dead_header block.old }
    ensures dead { IsDead block.new }
    ensures map_area { IsTrue (holds_header block.old) → map_area block.new ≡ map_area block.old }
{
    write_word(block, NUMBER, 0);
    write_word(block, CHECK_WORD, 0);
}
