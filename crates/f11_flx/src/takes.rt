//! What takes the blocks of a copy.
ghost use Rattle.std.specs.Prelude.{IfErr, OnOk};
ghost use Rattle.f11_flx.specs.declared.refusal.FlxRefusal.{FlxRefusal};
ghost use Rattle.std.specs.Prelude.{ℕ, List};

use crate::refusal::FlxRefusal;
use f11_bytes::Block;
use rt11_volume::RtName;

/// A target of a copy, which takes its blocks one by one.
pub trait Takes {
    /// How it may take a block for a place of the file of a name.
    ghost took: { List ℕ → ℕ → List ℕ → Self → Self → Type 0 };

    /// How it may refuse it.
    ghost refused: { List ℕ → ℕ → List ℕ → FlxRefusal → Self → Self → Type 0 };

    /// Takes the block at a place of the file, from 0.
    fn take(&mut self, name: &RtName, place: u32, block: &Block) -> Result<(), FlxRefusal>
        ensures took { OnOk result (took name.now place block.now self.old self.new) }
        ensures refused { IfErr result (λ e. refused name.now place block.now e self.old self.new) };
}
