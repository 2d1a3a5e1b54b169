//! The source of a copy to an RT-11 volume.
ghost use Rattle.f11_store.specs.File.{most_blocks};
ghost use Rattle.std.specs.Prelude.{◌≡◌, ◌≤◌, false, IfErr, IfNone, IfOk, IfSome};
ghost use Rattle.f11_store.specs.declared.files.Attr.{Attr as Attributes};
ghost use Rattle.f11_store.specs.declared.requests.Reply.TheVariants as answer;
ghost use Rattle.f11_store.specs.declared.requests.Request.TheVariants as request;
ghost use Rattle.f11_making.specs.Asking.{Fails, Grants, told, who_asks};
ghost use Rattle.f11_flx.specs.Source.{CopiesAs, FailsAs, StartsText, TellsNothing, TellsSource, is_attr, up_to_end};
ghost use Rattle.f11_flx.specs.declared.mode.CopyMode.TheVariants as mode;

use crate::attributes::image_blocks;
use crate::copies::{copy_blocks, copy_text};
use crate::mode::CopyMode;
use crate::refusal::FlxRefusal;
use crate::takes::Takes;
use crate::target::Nowhere;
use crate::to_text::ToText;
use f11_making::{Asked, Asker, ask, length};
use f11_store::{FileId, Refusal, Reply, Request};
use rt11_volume::RtName;

/// What is known of a source: its attributes (H.UFAT), and how many blocks it has.
#[derive(Clone, Copy)]
pub struct Source {
    pub attr: [u8; 32],
    pub blocks: u32,
}

/// The user attributes that a reply tells.
fn attributes_in(reply: Reply) -> Option<[u8; 32]>
    ensures some { IfSome result (λ attr. (a : Attributes) × (a.attr ≡ attr) × (reply ≡ answer.Attr a)) }
    ensures none { IfNone result (is_attr reply ≡ false) }
{
    match reply {
        Reply::Attr(attributes) => Some(attributes.attr),
        _ => None,
    }
}

/// The user attributes of a file.
fn attributes<S: Asked>(service: &mut S, by: &Asker, source: FileId) -> Result<[u8; 32], Refusal>
    ensures told { IfOk result (λ attr. (a : Attributes) × (a.attr ≡ attr)
        × (Grants S.service (who_asks by.now.task by.now.uic)
        (told (request.ReadAttr source) (answer.Attr a)) service.old service.new)) }
    ensures fails { IfErr result (λ e. Fails S.service (who_asks by.now.task by.now.uic) is_attr
        (request.ReadAttr source) e service.old service.new) }
{
    let reply = ask(service, by, Request::ReadAttr(source))?;
    match attributes_in(reply) {
        Some(attr) => Ok(attr),
        None => Err(Refusal::Damaged),
    }
}

/// Attributes and length of the file that is accessed.
pub fn look<S: Asked>(service: &mut S, by: &Asker, source: FileId) -> Result<Source, Refusal>
    ensures told { IfOk result (λ s. TellsSource S.service (who_asks by.now.task by.now.uic)
        by.now.lun source s.attr s.blocks service.old service.new) }
    ensures few { IfOk result (λ s. s.blocks ≤ most_blocks) }
    ensures fails { IfErr result (λ e. TellsNothing S.service (who_asks by.now.task by.now.uic)
        by.now.lun source e service.old service.new) }
{
    let attr = attributes(service, by, source)?;
    let blocks = length(service, by)?;
    Ok(Source { attr, blocks })
}

/// Copies the text of the file that is accessed: how many blocks the copy has.
pub fn copy_lines<S: Asked, T: Takes>(
    service: &mut S,
    by: &Asker,
    source: &Source,
    target: &mut T,
    name: &RtName,
) -> Result<u32, FlxRefusal>
    requires { source.now.blocks ≤ most_blocks }
    ensures copied { IfOk result (λ count. CopiesAs mode.Text S.service T.took
        (who_asks by.now.task by.now.uic) by.now.lun name.now source.now.attr source.now.blocks count
        service.old service.new target.old target.new) }
    ensures fails { IfErr result (λ e. FailsAs mode.Text S.service T.took T.refused
        (who_asks by.now.task by.now.uic) by.now.lun name.now source.now.attr source.now.blocks e
        service.old service.new target.old target.new) }
{
    match ToText::new(&source.attr, source.blocks) {
        Ok(text) => {
            let count = image_blocks(&source.attr, source.blocks);
            copy_text(service, by, text, count, target, name)
        }
        Err(_) => Err(FlxRefusal::BadRecord),
    }
}

/// Copies the file that is accessed: how many blocks the copy has.
pub fn copy<S: Asked, T: Takes>(
    service: &mut S,
    by: &Asker,
    source: &Source,
    mode: CopyMode,
    target: &mut T,
    name: &RtName,
) -> Result<u32, FlxRefusal>
    requires { source.now.blocks ≤ most_blocks }
    ensures copied { IfOk result (λ count. CopiesAs mode S.service T.took
        (who_asks by.now.task by.now.uic) by.now.lun name.now source.now.attr source.now.blocks count
        service.old service.new target.old target.new) }
    ensures fails { IfErr result (λ e. FailsAs mode S.service T.took T.refused
        (who_asks by.now.task by.now.uic) by.now.lun name.now source.now.attr source.now.blocks e
        service.old service.new target.old target.new) }
{
    match mode {
        CopyMode::Text => copy_lines(service, by, source, target, name),
        CopyMode::Image => {
            let count = image_blocks(&source.attr, source.blocks);
            copy_blocks(service, by, count, target, name)?;
            Ok(count)
        }
    }
}
