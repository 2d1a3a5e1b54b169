//! What a block holds, line by line.
ghost use Rattle.std.specs.Prelude.{◌≡◌, IfErr, IfOk, OnOk};
ghost use Rattle.f11_header.specs.Fields.{file_number};
ghost use Rattle.f11_header.specs.Header.{IsHeader};
ghost use Rattle.f11_catalog.specs.map.Map.{area_of};
ghost use Rattle.f11_commands.specs.Dump.{IsDump, IsHeaderText, IsNamePart, fields_line, map_lines, name_line};
ghost use Rattle.f11_commands.specs.Output.{WriterTakes, TakesText};

use crate::outcome::{Answer, Failure};
use f11_bytes::Block;
use f11_catalog::f11_map::Map;
use f11_header::{Header, check};
use f11_rad50::Name;
use f11_store::{FileId, Uic, name_words};
use std::io::{self, Write};

/// The fields of a header that its line shows.
#[derive(Clone, Copy)]
struct Fields {
    /// The header's own file number and file sequence number.
    id: FileId,
    /// The segment number, 0 in the first header of a file.
    segment: u8,
    owner: Uic,
    protection: u16,
    characteristics: u16,
    /// The next header of the file; file number 0 is none.
    link: FileId,
    /// The check word.
    sum: u16,
}

impl Fields {
    ghost use Rattle.f11_commands.specs.Dump.{fields_of};

    /// The fields of a valid header.
    fn of(block: &Block) -> Fields
        requires { IsHeader block.now (file_number block.now) }
        ensures { result ≡ fields_of block.now }
    {
        let header = Header::new(block);
        let map = Map::of(&header);
        Fields {
            id: header.id(),
            segment: map.segment(),
            owner: header.owner(),
            protection: header.protection(),
            characteristics: header.characteristics(),
            link: map.link(),
            sum: header.check_word(),
        }
    }
}

/// Writes what a block holds as header `n`.
///
/// For a valid header: `header N file F,S segment G owner [g,m] prot W char C link F,S sum X good`, then in segment 0,
/// which is a file's first header, `name NAME.TYP;VERSION`, or `name ?` where the ident area has no name, and then
/// `run LBN COUNT` for each retrieval pointer, in blocks. Else one line: `header N dead` where the file number is 0,
/// and else `header N bad`. Owner, protection word and characteristics are octal, all else is decimal (profile).
///
/// # Errors
///
/// [`Failure::CannotWrite`] where the writer takes no more: then it may hold a part of the lines.
pub fn dump_header<W: Write>(writer: &mut W, block: &Block, n: u16) -> Result<Answer, Failure>
    ensures done { IfOk result (λ answer. answer ≡ Answer.Done) }
    ensures text { OnOk result (TakesText W.contents (IsDump block.now n) writer.old writer.new) }
    ensures failures { IfErr result (λ failure. failure ≡ Failure.CannotWrite) }
{
    match check(block, n) {
        Ok(()) => write_header(writer, block, n)?,
        Err(fault) => writeln!(writer, "header {n} {fault}")?,
    }
    Ok(Answer::Done)
}

/// Writes the lines of a valid header.
fn write_header<W: Write>(writer: &mut W, block: &Block, n: u16) -> io::Result<()>
    requires { IsHeader block.now n }
    ensures { OnOk result (TakesText W.contents (IsHeaderText block.now n) writer.old writer.new) }
{
    let fields = Fields::of(block);
    write_fields(writer, n, &fields)?;
    write_name(writer, block)?;
    let map = Map::of(&Header::new(block));
    write_runs(writer, &map)
}

/// Writes the line of the fields of a valid header.
fn write_fields<W: Write>(writer: &mut W, n: u16, fields: &Fields) -> io::Result<()>
    ensures { OnOk result (WriterTakes W.contents writer.old writer.new (fields_line n fields.now)) }
{
    let Fields {
        id,
        segment,
        owner,
        protection,
        characteristics,
        link,
        sum,
    } = *fields;
    writeln!(
        writer,
        "header {n} file {id} segment {segment} owner {owner} prot {protection:o} char {characteristics:o} link {},{} sum {sum} good",
        link.number, link.sequence
    )
}

/// Writes the line of the name in a valid header of segment 0, and nothing in any other.
#[tactic(auto, using(f11_header::proofs::HeaderFacts::ident_within))]
fn write_name<W: Write>(writer: &mut W, block: &Block) -> io::Result<()>
    requires { IsHeader block.now (file_number block.now) }
    ensures { OnOk result (TakesText W.contents (IsNamePart block.now) writer.old writer.new) }
{
    let header = Header::new(block);
    if Map::of(&header).segment() != 0 {
        return Ok(());
    }
    match Name::from_words(name_words(header.ident())) {
        Some(name) => write_name_line(writer, &name),
        None => writeln!(writer, "name ?"),
    }
}

/// Writes the line of a name.
fn write_name_line<W: Write>(writer: &mut W, name: &Name) -> io::Result<()>
    ensures { OnOk result (WriterTakes W.contents writer.old writer.new (name_line name.now)) }
{
    writeln!(writer, "name {name}")
}

/// Writes the lines of the retrieval pointers.
fn write_runs<W: Write>(writer: &mut W, map: &Map<'_>) -> io::Result<()>
    ensures { OnOk result (WriterTakes W.contents writer.old writer.new (map_lines (area_of map.now))) }
{
    for i in 0..map.runs() {
        let (lbn, count) = map.run(i);
        writeln!(writer, "run {lbn} {count}")?;
    }
    Ok(())
}
