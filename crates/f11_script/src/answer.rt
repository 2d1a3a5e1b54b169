//! The text of an answer.

ghost use Rattle.std.specs.Prelude.{◌≡◌, ◌+◌, ◌*◌, ◌<◌, ◌≤◌, ◌++◌, [], ◌∷◌, false, length, codes};
ghost use Rattle.std.specs.Fmt.{digit_glyph};
ghost use Rattle.std.specs.List.{flat_map};
ghost use Rattle.f11_rad50.specs.Name.{name_text};
ghost use Rattle.f11_store.specs.File.{name_words};
ghost use Rattle.f11_store.specs.Refusal.{refusal_name};
ghost use Rattle.f11_store.specs.Text.{id_text, uic_text, volume_text};
ghost use Rattle.f11_script.specs.Answers as specs;
ghost use Rattle.f11_script.specs.Pieces.{PutsUpTo};

use crate::text::{Text, put, put_number, put_octal};
use f11_bytes::{Block, read_long, read_word};
use f11_rad50::Name;
use f11_store::{Attr, FileId, Refusal, Reply, Request, Uic, name_words};

/// The bytes up to the last one that isn't 0.
fn without_zeros(bytes: &[u8]) -> &[u8]
    ensures zeros { result.now ≡ specs.without_zeros bytes.now }
    ensures within { length result.now ≤ length bytes.now }
{
    let mut kept = bytes;
    while let [rest @ .., last] = kept
        && *last == 0
    {
        kept = rest;
    }
    kept
}

/// The lower-case hex digit of a value.
fn hex_digit(value: u8) -> u8
    requires { value < 16 }
    ensures { result ≡ digit_glyph false value }
{
    if value < 10 {
        b'0' + value
    } else {
        b'a' + (value - 10)
    }
}

/// Puts bytes in lower-case hex.
fn put_hex(text: &mut Text, bytes: &[u8])
    requires { length text.old.items + 2 * length bytes.now ≤ 1040 }
    ensures { PutsUpTo (2 * length bytes.now) text.old.items text.new.items
        (flat_map specs.hex_digits bytes.now) }
{
    for byte in bytes {
        put(text, &[hex_digit(*byte / 16), hex_digit(*byte % 16)]);
    }
}

/// Puts a block in hex up to its last byte that isn't 0, and `-` for a block of zeros.
fn put_data(text: &mut Text, block: &Block)
    requires { length text.old.items + 1024 ≤ 1040 }
    ensures { PutsUpTo 1024 text.old.items text.new.items (specs.data_text block.now) }
{
    let bytes = without_zeros(block);
    if bytes.is_empty() {
        put(text, b"-");
    } else {
        put_hex(text, bytes);
    }
}

/// Puts the text of a name.
fn put_spelled(text: &mut Text, name: &Name)
    requires { length text.old.items + 19 ≤ 1040 }
    ensures { PutsUpTo 19 text.old.items text.new.items (name_text name.now) }
{
    let mut spelled = [0; 19];
    let count = name.spell(&mut spelled);
    put(text, &spelled[..count]);
}

/// Puts the name in an ident area, and `?` where there is none.
fn put_name(text: &mut Text, ident: &[u8; 46])
    requires { length text.old.items + 19 ≤ 1040 }
    ensures { PutsUpTo 19 text.old.items text.new.items
        (specs.name_or_mark (name_words ident.now)) }
{
    match Name::from_words(name_words(ident)) {
        Some(name) => put_spelled(text, &name),
        None => put(text, b"?"),
    }
}

/// Puts a record type, a record size, and an end of file: its block and the byte in it.
fn put_fields(text: &mut Text, rtyp: u8, rsiz: u16, efbk: u32, ffby: u16)
    requires { length text.old.items + 64 ≤ 1040 }
    ensures { PutsUpTo 64 text.old.items text.new.items (specs.fields_text rtyp rsiz efbk ffby) }
{
    put(text, b" rtyp ");
    put_number(text, u32::from(rtyp));
    put(text, b" rsiz ");
    put_number(text, u32::from(rsiz));
    put(text, b" efbk ");
    put_number(text, efbk);
    put(text, b" ffby ");
    put_number(text, u32::from(ffby));
}

/// Puts what is shown of user attributes.
fn put_user_attr(text: &mut Text, attr: &[u8; 32])
    requires { length text.old.items + 64 ≤ 1040 }
    ensures { PutsUpTo 64 text.old.items text.new.items (specs.user_attr_text attr.now) }
{
    let rsiz = read_word(attr, 2);
    let efbk = read_long(attr, 8);
    let ffby = read_word(attr, 12);
    put_fields(text, attr[0], rsiz, efbk, ffby);
}

/// Puts a user's code.
fn put_uic(text: &mut Text, uic: Uic)
    requires { length text.old.items + 15 ≤ 1040 }
    ensures { PutsUpTo 15 text.old.items text.new.items (uic_text uic) }
{
    put(text, b"[");
    put_octal(text, u16::from(uic.group));
    put(text, b",");
    put_octal(text, u16::from(uic.member));
    put(text, b"]");
}

/// Puts an owner, a protection word and characteristics, before a name.
fn put_owner(text: &mut Text, owner: Uic, protection: u16, characteristics: u16)
    requires { length text.old.items + 54 ≤ 1040 }
    ensures { PutsUpTo 54 text.old.items text.new.items
        (specs.owner_text owner protection characteristics) }
{
    put(text, b"ok owner ");
    put_uic(text, owner);
    put(text, b" prot ");
    put_octal(text, protection);
    put(text, b" char ");
    put_octal(text, characteristics);
    put(text, b" name ");
}

/// Puts the attributes of a file.
fn put_attr(text: &mut Text, file: &Attr)
    requires { length text.old.items + 137 ≤ 1040 }
    ensures { PutsUpTo 137 text.old.items text.new.items (specs.attr_text file.now) }
{
    let ident = file.ident;
    let attr = file.attr;
    put_owner(text, file.owner, file.protection, file.characteristics);
    put_name(text, &ident);
    put_user_attr(text, &attr);
}

/// Puts a relative volume that isn't 0.
fn put_volume(text: &mut Text, volume: u16)
    requires { length text.old.items + 11 ≤ 1040 }
    ensures { PutsUpTo 11 text.old.items text.new.items (volume_text volume) }
{
    if volume != 0 {
        put(text, b",");
        put_number(text, u32::from(volume));
    }
}

/// Puts an identification.
fn put_id(text: &mut Text, id: FileId)
    requires { length text.old.items + 32 ≤ 1040 }
    ensures { PutsUpTo 32 text.old.items text.new.items (id_text id) }
{
    put_number(text, u32::from(id.number));
    put(text, b",");
    put_number(text, u32::from(id.sequence));
    put_volume(text, id.volume);
}

/// Puts which file it is.
fn put_file(text: &mut Text, id: FileId)
    requires { length text.old.items + 40 ≤ 1040 }
    ensures { PutsUpTo 40 text.old.items text.new.items (specs.told_file_text id) }
{
    put(text, b"ok file ");
    put_id(text, id);
}

/// Puts a count of things.
fn put_count(text: &mut Text, things: &[u8], count: u32)
    requires { length text.old.items + length things.now + 14 ≤ 1040 }
    ensures { PutsUpTo (length things.now + 14) text.old.items text.new.items
        (specs.count_text things.now count) }
{
    put(text, b"ok ");
    put(text, things);
    put(text, b" ");
    put_number(text, count);
}

/// Puts the counts of a volume.
fn put_space(text: &mut Text, free: u32, headers: u32, slots: u32)
    requires { length text.old.items + 54 ≤ 1040 }
    ensures { PutsUpTo 54 text.old.items text.new.items (specs.space_text free headers slots) }
{
    put(text, b"ok free ");
    put_number(text, free);
    put(text, b" headers ");
    put_number(text, headers);
    put(text, b" slots ");
    put_number(text, slots);
}

/// Puts the answer where nothing is told but that the request is done.
fn put_done(text: &mut Text, request: &Request, block: &Block)
    requires { length text.old.items + 1032 ≤ 1040 }
    ensures { PutsUpTo 1032 text.old.items text.new.items
        (specs.done_text request.now block.now) }
{
    if let Request::ReadBlock(_, _) = *request {
        put(text, b"ok data ");
        put_data(text, block);
    } else {
        put(text, b"ok");
    }
}

/// Puts the text of a reply.
fn put_reply(text: &mut Text, request: &Request, reply: &Reply, block: &Block)
    requires { length text.old.items + 1032 ≤ 1040 }
    ensures { PutsUpTo 1032 text.old.items text.new.items
        (specs.reply_text request.now block.now reply.now) }
{
    match *reply {
        Reply::Done => put_done(text, request, block),
        Reply::Created(id) => put_file(text, id),
        Reply::Length(blocks) => put_count(text, b"blocks", blocks),
        Reply::Slots(slots) => put_count(text, b"slots", slots),
        Reply::Found(id) => put_file(text, id),
        Reply::Attr(attr) => put_attr(text, &attr),
        Reply::Space {
            free,
            headers,
            slots,
        } => put_space(text, free, headers, slots),
    }
}

/// Puts the name of a refusal.
fn put_refusal(text: &mut Text, refusal: Refusal)
    requires { length text.old.items + 20 ≤ 1040 }
    ensures { PutsUpTo 20 text.old.items text.new.items (codes "no " ++ refusal_name refusal) }
{
    put(text, b"no ");
    put(text, refusal.name().as_bytes());
}

/// Puts the text of an answer.
fn put_result(text: &mut Text, request: &Request, answer: &Result<Reply, Refusal>, block: &Block)
    requires { length text.old.items + 1032 ≤ 1040 }
    ensures { PutsUpTo 1032 text.old.items text.new.items
        (specs.answer_text request.now block.now answer.now) }
{
    match *answer {
        Ok(reply) => put_reply(text, request, &reply, block),
        Err(refusal) => put_refusal(text, refusal),
    }
}

/// The line of an answer.
pub(crate) fn answer_line(request: &Request, answer: &Result<Reply, Refusal>, block: &Block) -> Text
    ensures { result.items ≡ specs.answer_line request.now block.now answer.now }
{
    let mut text = Text::new();
    put_result(&mut text, request, answer, block);
    put(&mut text, b"\n");
    text
}
