//! Room for a run of blocks of a file without any.
ghost use Rattle.std.specs.Prelude.{◌≡◌, ◌≤◌, None, Some, IfErr, OnOk};
ghost use Rattle.f11_files.specs.LayingOut.Room.{run_causes};
ghost use Rattle.f11_store.specs.Causes.{first_of};

use crate::extend::room::{is_too_long, need};
use f11_map::run_pointers;
use f11_store::Refusal;

/// Whether a file may be laid out in one run of `n` blocks, which has so many blocks and headers, the last of them with room for so many
/// pointers, where so many blocks and headers are free.
///
/// # Errors
///
/// `NotEmpty`, `TooManySegments`, `DeviceFull` or `NoHeader`, the first that holds.
pub(crate) fn judge_run(
    blocks: u32,
    headers: u16,
    room: usize,
    free: u32,
    free_headers: u32,
    n: u32,
) -> Result<(), Refusal>
    requires { headers ≤ 256 }
    ensures room { OnOk result (first_of (run_causes blocks headers room free free_headers n) ≡ None) }
    ensures refused { IfErr result (λ refusal.
        first_of (run_causes blocks headers room free free_headers n) ≡ Some refusal) }
{
    let pointers = run_pointers(n);
    if blocks > 0 {
        return Err(Refusal::NotEmpty);
    }
    if is_too_long(headers, room, pointers) {
        return Err(Refusal::TooManySegments);
    }
    if free < n {
        return Err(Refusal::DeviceFull);
    }
    if free_headers < need(room, pointers) {
        return Err(Refusal::NoHeader);
    }
    Ok(())
}
