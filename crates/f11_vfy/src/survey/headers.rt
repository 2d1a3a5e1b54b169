//! One pass over a volume's headers.
ghost use Rattle.std.specs.Prelude.{◌≡◌, ◌≤◌, ◌<◌, ◌+◌, length, IfOk, IsErrOf, OnOk, OnErr};
ghost use Rattle.f11_dev.specs.Looked.{Looked};
ghost use Rattle.f11_header.specs.Header.{IsHeader};
ghost use Rattle.f11_index.specs.IndexFile.{slots};
ghost use Rattle.f11_index.specs.Kept.{index_kept, IndexLiesWithin};
ghost use Rattle.f11_vfy.specs.Surveying.Extensions.{KeepsExtensions};
ghost use Rattle.f11_vfy.specs.Surveying.Headers.{reads_of, used_slots, ReadsSlot, SurveysDisk};

use crate::fault::ReadFault;
use crate::survey::extensions::Extensions;
use crate::survey::pointers::take_pointers;
use crate::survey::slot::{Slot, State, judge, keep};
use crate::survey::tally::Tally;
use f11_bytes::{BLOCK_SIZE, Block, NoMemory};
use f11_dev::{Device, DeviceFault};
use f11_findings::Findings;
use f11_index::IndexFile;
use std::alloc::Global;

/// What one pass over a volume's headers keeps: two bits a block, and some bytes a slot.
#[derive(Drop)]
pub struct Survey {
    /// How often each block is named.
    pub(crate) tally: Tally,
    /// The pointers that name a block outside the volume.
    pub(crate) outside: Findings,
    /// What is kept of slot `n`, at `n - 1`.
    pub(crate) slots: Vec<Slot>,
}

impl Survey {
    ghost use Rattle.f11_vfy.specs.Surveying.Bits.{limit_of};
    ghost use Rattle.f11_vfy.specs.declared.survey.slot.State.TheVariants.{Live};
    ghost use Rattle.f11_vfy.specs.Surveying.Headers.{IsNewSurvey, SurveysSlot};

    /// Nothing was read yet. There is room for so many slots and blocks.
    fn new(alloc: Global, slots: u32, blocks: u32) -> Result<Survey, NoMemory>
        ensures { IfOk result (λ survey. IsNewSurvey blocks survey) }
    {
        let mut survey = Survey {
            tally: Tally::new(alloc, blocks)?,
            outside: Findings::new(alloc),
            slots: Vec::new(alloc),
        };
        survey.slots.try_reserve(slots as usize)?;
        Ok(survey)
    }

    /// Takes slot `n`, in this state, and its header where that is valid.
    fn take(&mut self, n: u16, state: State, block: &Block, size: u32) -> Result<(), NoMemory>
        requires valid { state ≡ Live → IsHeader block.now n }
        requires room { size ≤ limit_of self.old.tally.once }
        ensures { OnOk result (SurveysSlot n state block.now size self.old self.new) }
    {
        self.slots.push(keep(state, block))?;
        if state == State::Live {
            take_pointers(n, block, size, &mut self.tally, &mut self.outside)?;
        }
        Ok(())
    }
}

/// Surveys the headers of a volume of `size` blocks, in the order of their slots: it reads each header whose slot is in use, once, and
/// keeps the blocks of extension headers where they are to be kept.
///
/// # Errors
///
/// `DeviceFault` where a transfer failed; `NoMemory` where there was no memory for what is kept.
pub fn survey_headers<D: Device>(
    alloc: Global,
    device: &mut D,
    index: &IndexFile,
    size: u32,
    extensions: &mut Extensions,
) -> Result<Survey, ReadFault>
    requires within { IndexLiesWithin (index_kept index.now) (length (D.disk device.old).image) }
    ensures surveys { IfOk result (λ survey. SurveysDisk (index_kept index.now) size survey
        (D.disk device.old) (D.disk device.new)) }
    ensures keeps { OnOk result (KeepsExtensions (index_kept index.now) (D.disk device.old)
        extensions.old extensions.new) }
    ensures failed { IsErrOf result ReadFault.DeviceFault
        → Looked (D.disk device.old) (D.disk device.new) (used_slots (index_kept index.now)) 1 }
    ensures no_memory { IsErrOf result ReadFault.NoMemory
        → Looked (D.disk device.old) (D.disk device.new) (used_slots (index_kept index.now)) 0 }
{
    let mut survey = Survey::new(alloc, index.slots(), size)?;
    let mut block = [0; BLOCK_SIZE];
    for k in 0..index.slots() {
        let n = (k + 1) as u16;
        let state = read_slot(device, index, n, &mut block)?;
        survey.take(n, state, &block, size)?;
        extensions.take(state, &block)?;
    }
    Ok(survey)
}

/// Reads the header of slot `n` into the block where the slot is in use, and gives the slot's state.
pub(crate) fn read_slot<D: Device>(
    device: &mut D,
    index: &IndexFile,
    n: u16,
    block: &mut Block,
) -> Result<State, DeviceFault>
    requires within { IndexLiesWithin (index_kept index.now) (length (D.disk device.old).image) }
    ensures reads { IfOk result (λ state. ReadsSlot (index_kept index.now) n state block.new
        (D.disk device.old) (D.disk device.new)) }
    ensures failed { OnErr result
        (Looked (D.disk device.old) (D.disk device.new) (reads_of (index_kept index.now) n) 1) }
{
    if !index.in_use(n) {
        return Ok(State::Unused);
    }
    device.read(index.lbn_of_header(n), block)?;
    Ok(judge(block, n))
}
