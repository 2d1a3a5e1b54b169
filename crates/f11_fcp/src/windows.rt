//! Blocks of files that are accessed, reached by the windows that accesses keep.
ghost use Rattle.std.specs.Prelude.{◌≡◌, ◌+◌, ◌<◌, ◌≤◌, false, IfErr, IfOk, OnErr};
ghost use Rattle.f11_chain.specs.Windows.{HoldsBlock};
ghost use Rattle.f11_fcp.specs.Places.{entry_of};
ghost use Rattle.f11_fcp.specs.Windows.{FindsNext, IsHeld, KeepsNext};
ghost use Rattle.f11_files.specs.Answers.{is_fatal, is_refused, FailsToRead};
ghost use Rattle.f11_files.specs.Finding.Blocks.{FailsToStore, ReadsBlock, StoresBlock};
ghost use Rattle.f11_files.specs.Open.{counts_in, disk_in, has_failed, home_in, store_in, AnswersCall, CallSparesLost};
ghost use Rattle.f11_files.specs.Operations.{length_causes};
ghost use Rattle.f11_store.specs.Cost.{header_count};
ghost use Rattle.f11_store.specs.Store.{file_named};

use crate::table::Held;
use f11_bytes::Block;
use f11_chain::Window;
use f11_dev::Device;
use f11_files::Files;
use f11_store::Refusal;

/// The window by which an access reaches block `vbn` of its file, from 1: the one that it keeps, where the block stands in it; else the
/// file's headers are read up to the one that names the block.
///
/// # Errors
///
/// Those of [`Files::window`].
fn next_window<D: Device>(files: &mut Files<D>, held: &Held, vbn: u32) -> Result<Window, Refusal>
    requires held { IsHeld (entry_of held.now) files.old }
    requires some { 0 < vbn }
    ensures answers { AnswersCall result files.old files.new }
    ensures told { counts_in files.new ≡ counts_in files.old }
    ensures none { HoldsBlock held.now.window vbn → disk_in files.new ≡ disk_in files.old }
    ensures found { IfOk result (λ window. FindsNext (home_in files.old) (entry_of held.now) vbn window
        (disk_in files.old) (disk_in files.new)) }
    ensures refused { IfErr result (λ refusal. FailsToRead (has_failed files.old)
        (length_causes (store_in files.old) held.now.file vbn)
        (header_count (file_named (store_in files.old) held.now.file)) refusal
        (disk_in files.old) (disk_in files.new)) }
    ensures lost { CallSparesLost files.old files.new }
{
    match held.window.lbn_of(vbn) {
        Some(_) => Ok(held.window),
        None => files.window(held.file, vbn),
    }
}

/// Reads block `vbn` of the file of an access, from 1, and answers the window by which it was reached. Where the block stands in the window
/// that the access keeps, that is one transfer at most.
///
/// # Errors
///
/// Those of [`Files::read_block`].
pub(crate) fn read_by<D: Device>(
    files: &mut Files<D>,
    held: &Held,
    vbn: u32,
    block: &mut Block,
) -> Result<Window, Refusal>
    requires held { IsHeld (entry_of held.now) files.old }
    requires some { 0 < vbn }
    ensures answers { AnswersCall result files.old files.new }
    ensures told { counts_in files.new ≡ counts_in files.old }
    ensures read { IfOk result (λ _. ReadsBlock (home_in files.old) held.now.file vbn block.new
        (disk_in files.old) (disk_in files.new)) }
    ensures next { IfOk result (λ window.
        KeepsNext (entry_of held.now) vbn window files.old files.new) }
    ensures once { HoldsBlock held.now.window vbn
        → (disk_in files.new).transfers ≤ (disk_in files.old).transfers + 1 }
    ensures refused { IfErr result (λ refusal. FailsToRead (has_failed files.old)
        (length_causes (store_in files.old) held.now.file vbn)
        (header_count (file_named (store_in files.old) held.now.file) + 1) refusal
        (disk_in files.old) (disk_in files.new)) }
    ensures kept { is_refused is_fatal result ≡ false → OnErr result (block.new ≡ block.old) }
    ensures lost { CallSparesLost files.old files.new }
{
    let window = next_window(files, held, vbn)?;
    files.read_in(&window, vbn, block)?;
    Ok(window)
}

/// Writes block `vbn` of the file of an access, from 1, and answers the window by which it was reached. Where the block stands in the window
/// that the access keeps, that is one transfer at most.
///
/// # Errors
///
/// Those of [`Files::write_block`].
pub(crate) fn write_by<D: Device>(
    files: &mut Files<D>,
    held: &Held,
    vbn: u32,
    block: &Block,
) -> Result<Window, Refusal>
    requires held { IsHeld (entry_of held.now) files.old }
    requires some { 0 < vbn }
    ensures answers { AnswersCall result files.old files.new }
    ensures told { counts_in files.new ≡ counts_in files.old }
    ensures stored { IfOk result (λ _. StoresBlock (home_in files.old) held.now.file vbn block.now
        (disk_in files.old) (disk_in files.new)) }
    ensures next { IfOk result (λ window.
        KeepsNext (entry_of held.now) vbn window files.old files.new) }
    ensures once { HoldsBlock held.now.window vbn
        → (disk_in files.new).transfers ≤ (disk_in files.old).transfers + 1 }
    ensures refused { IfErr result (λ refusal. FailsToStore (has_failed files.old)
        (home_in files.old) held.now.file vbn block.now refusal
        (disk_in files.old) (disk_in files.new)) }
    ensures lost { CallSparesLost files.old files.new }
{
    let window = next_window(files, held, vbn)?;
    files.write_in(&window, vbn, block)?;
    Ok(window)
}
