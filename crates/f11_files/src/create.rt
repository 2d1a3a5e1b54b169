//! A new file.
ghost use Rattle.std.specs.Prelude.{◌≡◌, ◌<◌, false, IfErr, IfOk, true};
ghost use Rattle.f11_files.specs.Answers.{is_fatal, is_clean, is_refused, WritesNewHeaders};
ghost use Rattle.f11_image_store.specs.Confines.{new_header};
ghost use Rattle.f11_files.specs.Create.{Creates, EntersFile, FailsToCreate, FailsToEnter};
ghost use Rattle.f11_files.specs.GrowingIndex.Headroom.{WritesAfterSlots};
ghost use Rattle.f11_image_store.specs.NewFileLaws.{IsNewFirst};
ghost use Rattle.f11_files.specs.Structure.{counts_of, home_of, index_in, IsStructureFor, StaysFor, WritesParts};
ghost use Rattle.f11_header.specs.Fields.{file_sequence};
ghost use Rattle.f11_header.specs.Writing.{blank_header};
ghost use Rattle.f11_store.specs.Changes.{next_sequence};

use crate::answer::{is_fatal, is_no_header};
use crate::files::Files;
use crate::structure::Structure;
use f11_bytes::{BLOCK_SIZE, Block};
use f11_dev::Device;
use f11_header::{Header, HeaderMut, blank};
use f11_store::{FileId, Refusal, Uic};

/// The sequence number that a slot is given next (profile): 1 more than it was last given, which its block says, and 1 after 65535.
pub(crate) fn next_sequence(block: &Block) -> u16
    ensures next { result ≡ next_sequence (file_sequence block.now) }
    ensures some { 0 < result }
{
    let last = Header::new(block).id().sequence;
    if last == u16::MAX { 1 } else { last + 1 }
}

/// Makes a block the first header of a new file.
fn fill_first(
    block: &mut Block,
    id: FileId,
    owner: Uic,
    protection: u16,
    ident: &[u8; 46],
    attr: &[u8; 32],
)
    requires number { 0 < id.number }
    requires sequence { 0 < id.sequence }
    ensures { IsNewFirst id owner protection ident.now attr.now
        (blank_header id owner protection 0) block.new }
{
    blank(block, id, owner, protection, 0);
    let mut header = HeaderMut::new(block);
    header.set_ident(ident);
    header.set_attributes(attr);
    header.seal();
}

impl Structure {
    /// Makes a file without blocks in the least free slot: its header is written, and then its bit.
    ///
    /// # Errors
    ///
    /// `NoHeader` where no slot is free, `DeviceFault` where a transfer failed.
    fn enter_file<D: Device>(
        &mut self,
        device: &mut D,
        owner: Uic,
        protection: u16,
        ident: &[u8; 46],
        attr: &[u8; 32],
    ) -> Result<FileId, Refusal>
        requires is_for { IsStructureFor self.old (D.disk device.old) }
        ensures entered { IfOk result (λ f. EntersFile (home_of self.old) owner protection ident.now
            attr.now f (D.disk device.old) (D.disk device.new)) }
        ensures refused { IfErr result (λ refusal. FailsToEnter (home_of self.old) owner
            protection ident.now attr.now refusal (D.disk device.old) (D.disk device.new)) }
        ensures stays { StaysFor (is_refused is_fatal result) self.old self.new
            (D.disk device.new) }
        ensures counts { is_refused is_clean result ≡ true → counts_of self.new ≡ counts_of
            self.old }
        ensures confined { WritesParts self.old (new_header (index_in self.old)) (D.disk device.old)
            (D.disk device.new) }
    {
        let Some(number) = self.index.least_free() else {
            return Err(Refusal::NoHeader);
        };
        let lbn = self.index.lbn_of_header(number);
        let mut block = [0; BLOCK_SIZE];
        match device.read(lbn, &mut block) {
            Ok(()) => {}
            Err(_) => return Err(Refusal::DeviceFault),
        }
        let id = FileId {
            number,
            sequence: next_sequence(&block),
            volume: 0,
        };
        fill_first(&mut block, id, owner, protection, ident, attr);
        match device.write(lbn, &block) {
            Ok(()) => {}
            Err(_) => return Err(Refusal::DeviceFault),
        }
        match self.index.set(device, number) {
            Ok(()) => Ok(id),
            Err(_) => Err(Refusal::DeviceFault),
        }
    }

    /// Makes a file without blocks, once there is a header for it.
    ///
    /// # Errors
    ///
    /// Those of [`Structure::ready_headers`], and of [`Structure::enter_file`].
    pub(crate) fn create<D: Device>(
        &mut self,
        device: &mut D,
        owner: Uic,
        protection: u16,
        ident: &[u8; 46],
        attr: &[u8; 32],
    ) -> Result<FileId, Refusal>
        requires is_for { IsStructureFor self.old (D.disk device.old) }
        ensures created { IfOk result (λ f. Creates (home_of self.old) owner protection ident.now
            attr.now f (D.disk device.old) (D.disk device.new)) }
        ensures refused { IfErr result (λ refusal. FailsToCreate false (home_of self.old) owner
            protection ident.now attr.now refusal (D.disk device.old) (D.disk device.new)) }
        ensures stays { StaysFor (is_refused is_fatal result) self.old self.new
            (D.disk device.new) }
        ensures counts { is_refused is_clean result ≡ true → counts_of self.new ≡ counts_of
            self.old }
        ensures confined { let home = home_of self.old in
            WritesAfterSlots 1 (WritesNewHeaders home) home (D.disk device.old)
            (D.disk device.new) }
    {
        self.ready_headers(device, 1, 0)?;
        match self.enter_file(device, owner, protection, ident, attr) {
            Ok(id) => Ok(id),
            Err(refusal) => {
                // a header is free now
                if is_no_header(refusal) {
                    return Err(Refusal::Damaged);
                }
                Err(refusal)
            }
        }
    }
}

impl<D: Device> Files<D> {
    ghost use Rattle.f11_files.specs.Open.{disk_in, has_failed, home_in, AnswersCall, CallSparesLost};

    /// Makes a file without blocks in the least free slot from 6 on, with the slot's next sequence number (profile), and gives its
    /// identification. Its owner, protection, ident area and attributes are those given, and its characteristics 0. Where no slot is
    /// free, the index file first gets one, as [`Files::grow_index`] says, in its last header. Then the slot's block is read, the header
    /// is written, and then the slot's bit. Where it is refused, but for `DeviceFault` and `Damaged`, nothing is written.
    ///
    /// # Errors
    ///
    /// `VolumeFailed` where an earlier call answered `DeviceFault` or `Damaged`; where no slot is free, `DeviceFull` where no block is free
    /// for one more, `NoHeader` where the index file may not get it (its last header has no room, or there would be more than there may
    /// be), and `NoMemory` for want of memory for it; `DeviceFault` where a transfer failed, `Damaged` where a header or a link isn't as
    /// it should be, or no block is found free though one should be: on no honest device.
    pub fn create(
        &mut self,
        owner: Uic,
        protection: u16,
        ident: &[u8; 46],
        attr: &[u8; 32],
    ) -> Result<FileId, Refusal>
        ensures answers { AnswersCall result self.old self.new }
        ensures created { IfOk result (λ f. Creates (home_in self.old) owner protection ident.now
            attr.now f (disk_in self.old) (disk_in self.new)) }
        ensures refused { IfErr result (λ refusal. FailsToCreate (has_failed self.old)
            (home_in self.old) owner protection ident.now attr.now refusal
            (disk_in self.old) (disk_in self.new)) }
        ensures confined { let home = home_in self.old in
            WritesAfterSlots 1 (WritesNewHeaders home) home (disk_in self.old) (disk_in self.new) }
        ensures lost { CallSparesLost self.old self.new }
    {
        if self.failed {
            return Err(Refusal::VolumeFailed);
        }
        self.seen = None;
        let answer = self
            .structure
            .create(&mut self.device, owner, protection, ident, attr);
        self.failed = is_fatal(&answer);
        answer
    }
}
