//! Headers that are to be taken: where too few are free, the index file gets slots first.
ghost use Rattle.std.specs.Prelude.{◌≡◌, ◌<◌, ◌&&◌, nat_le, false, true, None, Some, IfErr, IfOk, IsTrue, OnOk};
ghost use Rattle.f11_files.specs.Answers.{is_clean, is_fatal, is_refused};
ghost use Rattle.f11_files.specs.GrowingIndex.First.{fit_causes, if_fit, FailsToGetSlots, GetsSlotsFirst};
ghost use Rattle.f11_files.specs.GrowingIndex.Headroom.{ConfinesSlots, FailsToReady, ReadiesHeaders, WritesSlots};
ghost use Rattle.f11_store.specs.Causes.{first_of};
ghost use Rattle.f11_files.specs.Structure.{counts_of, home_of, store_on, IsStructureFor, StaysFor};
ghost use Rattle.f11_store.specs.Headroom.{may_get_slots};

use crate::extend::room::room_of;
use crate::structure::Structure;
use f11_bytes::BLOCK_SIZE;
use f11_dev::Device;
use f11_store::Refusal;

/// Whether so many slots fit in the last header of the index file, which has room for so many pointers, where there may be so many more.
fn do_fit(room: usize, left: u32, slots: u32) -> bool
    ensures { result ≡ (nat_le slots room && nat_le slots left) }
{
    slots as usize <= room && slots <= left
}

/// Whether there are blocks for so many slots, which fit or don't, and for `n` besides, where so many are free.
///
/// # Errors
///
/// `DeviceFull` or `NoHeader`, the first that holds.
fn judge_slots(fit: bool, free: u32, slots: u32, n: u32) -> Result<(), Refusal>
    ensures room { OnOk result (first_of (fit_causes fit free slots n) ≡ None) }
    ensures refused { IfErr result (λ refusal. first_of (fit_causes fit free slots n)
        ≡ Some refusal) }
{
    let taken = if fit { slots } else { 0 };
    if u64::from(free) < u64::from(n) + u64::from(taken) {
        return Err(Refusal::DeviceFull);
    }
    if !fit {
        return Err(Refusal::NoHeader);
    }
    Ok(())
}

impl Structure {
    /// Sees to it that so many headers are free, where `n` blocks are to be taken besides: where fewer are, the index file gets a slot for
    /// each that lacks.
    ///
    /// # Errors
    ///
    /// `DeviceFull` where fewer blocks are free than these and those of the slots, `NoHeader` where headers lack and the index file may
    /// not get slots for them; `NoMemory`; `DeviceFault` where a transfer failed, `Damaged` where a header or a link isn't as it should
    /// be, or no block is found free though one should be.
    pub(crate) fn ready_headers<D: Device>(
        &mut self,
        device: &mut D,
        headers: u32,
        n: u32,
    ) -> Result<(), Refusal>
        requires is_for { IsStructureFor self.old (D.disk device.old) }
        ensures ready { OnOk result (ReadiesHeaders (home_of self.old) headers n
            (D.disk device.old) (D.disk device.new)) }
        ensures refused { IfErr result (λ refusal. FailsToReady false (home_of self.old) headers n
            refusal (D.disk device.old) (D.disk device.new)) }
        ensures stays { StaysFor (is_refused is_fatal result) self.old self.new
            (D.disk device.new) }
        ensures counts { is_refused is_clean result ≡ true → counts_of self.new ≡ counts_of
            self.old }
        ensures confined { WritesSlots headers (home_of self.old) (D.disk device.old)
            (D.disk device.new) }
    {
        let lacking = headers - self.headers_for(headers).min(headers);
        if lacking > 0 {
            self.get_slots(device, lacking, n)?;
            return Ok(());
        }
        if self.storage.free() < n {
            return Err(Refusal::DeviceFull);
        }
        Ok(())
    }

    /// Gives the index file so many slots more in its last header, where `n` blocks are to be taken besides.
    ///
    /// # Errors
    ///
    /// Those of [`Structure::ready_headers`].
    fn get_slots<D: Device>(&mut self, device: &mut D, slots: u32, n: u32) -> Result<(), Refusal>
        requires is_for { IsStructureFor self.old (D.disk device.old) }
        requires some { 0 < slots }
        ensures got { OnOk result (GetsSlotsFirst (home_of self.old) slots n
            (D.disk device.old) (D.disk device.new)) }
        ensures refused { IfErr result (λ refusal. FailsToGetSlots (home_of self.old) slots n
            refusal (D.disk device.old) (D.disk device.new)) }
        ensures stays { StaysFor (is_refused is_fatal result) self.old self.new
            (D.disk device.new) }
        ensures counts { is_refused is_clean result ≡ true → counts_of self.new ≡ counts_of
            self.old }
        ensures confined { let st = store_on self.old (D.disk device.old) in
            let home = home_of self.old in
            IsTrue (D.disk device.old).honest
            → ConfinesSlots (if_fit (may_get_slots st slots) slots) home (D.disk device.old)
            (D.disk device.new) }
    {
        let mut first = [0; BLOCK_SIZE];
        let mut last = [0; BLOCK_SIZE];
        let end = self.find_index_end(device, &mut first, &mut last)?;
        let fit = do_fit(room_of(&last), self.slots_left(), slots);
        judge_slots(fit, self.storage.free(), slots, n)?;
        self.grow_held(device, slots, end, &mut first, &last)
    }
}
