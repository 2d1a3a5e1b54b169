//! A file on an RT-11 volume that a copy makes.
ghost use Rattle.std.specs.Prelude.{◌≡◌, ℕ, ◌<◌, Err, [], ◌∷◌, IfErr, IfOk, OnOk};
ghost use Rattle.f11_flx.specs.Target.{DeletesRtFile, FailsDeleting, FailsMaking, FailsPutting, Makes, MakesTransfers, Puts, create_transfers, rt_disk};
ghost use Rattle.rt11_volume.specs.Files.{faults_in};

use crate::refusal::FlxRefusal;
use crate::takes::Takes;
use f11_bytes::Block;
use f11_dev::Device;
use rt11_volume::{RtAccepted, RtName, RtRefusal};

/// The most blocks that a file of an RT-11 volume has.
const MOST: u32 = 65_535;

/// Makes a file of so many blocks on an RT-11 volume: how many they are. Where no file has so many, it is refused as one for which there is
/// no area.
///
/// # Errors
///
/// Those of [`RtAccepted::create`].
pub fn make_file<E: Device>(
    rt: &mut RtAccepted<E>,
    name: &RtName,
    blocks: u64,
    date: u16,
) -> Result<u16, RtRefusal>
    ensures made { OnOk result (Makes E.disk name.now blocks date rt.old rt.new) }
    ensures count { IfOk result (λ n. n ≡ blocks) }
    ensures refused { IfErr result (λ e. FailsMaking E.disk name.now blocks e rt.old rt.new) }
    ensures went { MakesTransfers (rt_disk E.disk rt.old) (rt_disk E.disk rt.new)
        create_transfers (faults_in result) }
{
    if blocks > u64::from(MOST) {
        return Err(refusal_of(rt, name));
    }
    // So that the proof knows that the words are those of a name.
    let _ = name.words();
    let length = blocks as u16;
    rt.create(name, length, date)?;
    Ok(length)
}

/// Why no file of over 65,535 blocks is made.
fn refusal_of<E: Device>(rt: &mut RtAccepted<E>, name: &RtName) -> RtRefusal
    ensures refused { (blocks : ℕ) → 65535 < blocks
        → FailsMaking E.disk name.now blocks result rt.old rt.new }
    ensures went { MakesTransfers (rt_disk E.disk rt.old) (rt_disk E.disk rt.new)
        create_transfers (faults_in {T = Unit} (Err result)) }
{
    match rt.find(name) {
        Ok(_) => RtRefusal::DuplicateName,
        Err(RtRefusal::NoSuchFile) => RtRefusal::NoSpace,
        Err(refusal) => refusal,
    }
}

/// Writes the block at a place of the file, from 0.
pub fn put<E: Device>(
    rt: &mut RtAccepted<E>,
    name: &RtName,
    place: u16,
    block: &Block,
) -> Result<(), RtRefusal>
    ensures put { OnOk result (Puts E.disk name.now place (block.now ∷ []) rt.old rt.new) }
    ensures refused { IfErr result (λ e. FailsPutting E.disk name.now place e rt.old rt.new) }
{
    rt.write(name, place, block)
}

/// Deletes the file.
pub fn delete<E: Device>(rt: &mut RtAccepted<E>, name: &RtName) -> Result<(), RtRefusal>
    ensures deleted { OnOk result (DeletesRtFile E.disk name.now rt.old rt.new) }
    ensures refused { IfErr result (λ e. FailsDeleting E.disk name.now e rt.old rt.new) }
{
    rt.delete(name)
}

impl<E: Device> Takes for RtAccepted<E> {
    ghost use Rattle.f11_flx.specs.Target.{RefusesBlock};

    ghost took = { λ name place block old new. Puts E.disk name place (block ∷ []) old new };

    ghost refused = { λ name place block e old new. RefusesBlock E.disk name place e old new };

    fn take(&mut self, name: &RtName, place: u32, block: &Block) -> Result<(), FlxRefusal> {
        if place > MOST {
            return Err(FlxRefusal::Rt(RtRefusal::EndOfFile));
        }
        match put(self, name, place as u16, block) {
            Ok(()) => Ok(()),
            Err(refusal) => Err(FlxRefusal::Rt(refusal)),
        }
    }
}

/// What takes any block and keeps none.
#[derive(Drop)]
pub struct Nowhere;

impl Takes for Nowhere {
    ghost took = { λ _ _ _ old new. new ≡ old };

    ghost refused = { λ _ _ _ _ _ _. ⊥ };

    fn take(&mut self, _name: &RtName, _place: u32, _block: &Block) -> Result<(), FlxRefusal> {
        Ok(())
    }
}
