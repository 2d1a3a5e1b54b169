//! What is asked of a volume.
ghost use Rattle.f11_store.specs.File.{most_blocks};
ghost use Rattle.std.specs.Prelude.{◌≡◌, ◌≤◌, length, IfOk, IfErr, OnOk};
ghost use Rattle.f11_runs.specs.Each.{answer_with, call_with};
ghost use Rattle.f11_store.specs.declared.requests.Request.TheVariants as request;
ghost use Rattle.f11_making.specs.Asking.{Denies, Grants, FilesService, asks, counts, reads, told, who_asks, writes};

use f11_bytes::{BLOCK_SIZE, Block};
use f11_store::{Lun, Refusal, Reply, Request, Task, Uic};

/// What answers requests, and how long a file is that is accessed.
///
/// `service` says of two of its states how the one may be followed by the other with an answer. Whoever implements it says there what is
/// known of it, on any device; what follows where its device is honest is a matter of that relation alone.
pub trait Asked {
    /// How it may answer, and the state then.
    ghost service: { FilesService Self };

    /// Serves a request of a task for a user, with the caller's block.
    fn serve(
        &mut self,
        task: Task,
        caller: Uic,
        request: &Request,
        block: &mut Block,
    ) -> Result<Reply, Refusal>
        ensures serves { service.serves self.old (call_with task caller request.now block.old)
            (answer_with result block.new) self.new };

    /// How many blocks the file has that the task accesses by the lun: no more than 256 headers can name.
    fn length(&mut self, task: Task, lun: Lun) -> Result<u32, Refusal>
        ensures measures { service.measures task lun result self.old self.new }
        ensures few { IfOk result (λ blocks. blocks ≤ most_blocks) };
}

/// Who asks: a task, by one of its luns, for a user.
#[derive(Clone, Copy, Debug)]
pub struct Asker {
    pub task: Task,
    pub lun: Lun,
    pub uic: Uic,
}

/// Asks a request that neither fills nor reads the block that is lent.
///
/// # Errors
///
/// The volume's refusal.
pub fn ask<S: Asked>(service: &mut S, by: &Asker, request: Request) -> Result<Reply, Refusal>
    ensures granted { IfOk result (λ reply. Grants S.service (who_asks by.now.task by.now.uic)
        (told request reply) service.old service.new) }
    ensures denied { IfErr result (λ e. Denies S.service (who_asks by.now.task by.now.uic)
        (asks request) e service.old service.new) }
{
    let mut block = [0; BLOCK_SIZE];
    service.serve(by.task, by.uic, &request, &mut block)
}

/// Reads the block at a VBN of the file that is accessed.
pub fn read<S: Asked>(
    service: &mut S,
    by: &Asker,
    vbn: u32,
    block: &mut Block,
) -> Result<(), Refusal>
    ensures size { length block.new ≡ 512 }
    ensures granted { OnOk result (Grants S.service (who_asks by.now.task by.now.uic)
        (reads by.now.lun vbn block.new) service.old service.new) }
    ensures denied { IfErr result (λ e. Denies S.service (who_asks by.now.task by.now.uic)
        (reads by.now.lun vbn block.new) e service.old service.new) }
{
    service.serve(by.task, by.uic, &Request::ReadBlock(by.lun, vbn), block)?;
    Ok(())
}

/// Writes the block at a VBN of the file that is accessed. What the block is then isn't known.
///
/// # Errors
///
/// The volume's refusal.
pub fn write<S: Asked>(
    service: &mut S,
    by: &Asker,
    vbn: u32,
    block: &mut Block,
) -> Result<(), Refusal>
    ensures size { length block.old ≡ 512 }
    ensures granted { OnOk result (Grants S.service (who_asks by.now.task by.now.uic)
        (writes by.now.lun vbn block.old) service.old service.new) }
    ensures denied { IfErr result (λ e. Denies S.service (who_asks by.now.task by.now.uic)
        (writes by.now.lun vbn block.old) e service.old service.new) }
{
    service.serve(by.task, by.uic, &Request::WriteBlock(by.lun, vbn), block)?;
    Ok(())
}

/// How many blocks the file has that is accessed.
pub fn length<S: Asked>(service: &mut S, by: &Asker) -> Result<u32, Refusal>
    ensures few { IfOk result (λ blocks. blocks ≤ most_blocks) }
    ensures granted { IfOk result (λ blocks. Grants S.service (who_asks by.now.task by.now.uic)
        (counts by.now.lun blocks) service.old service.new) }
    ensures denied { IfErr result (λ e. Denies S.service (who_asks by.now.task by.now.uic)
        (counts by.now.lun 0) e service.old service.new) }
{
    service.length(by.task, by.lun)
}
