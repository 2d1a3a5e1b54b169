//! A directory in which a name was looked for.
ghost use Rattle.std.specs.Prelude.{◌*◌, ◌≤◌};
ghost use Rattle.f11_store.specs.File.{most_blocks};

use f11_bytes::Block;
use f11_entries::Looked;
use f11_store::Attr;

/// A directory in which a name was looked for.
#[derive(Drop)]
pub(crate) struct Search {
    /// What its header says.
    pub(crate) attr: Attr,
    /// How many blocks it has,
    pub(crate) length: u32,
    /// and how many records.
    pub(crate) count: u32,
    /// What was found.
    pub(crate) looked: Looked,
    /// The block that was read last, if any was.
    pub(crate) last: Block,
    pub ghost few: { length ≤ most_blocks },
    pub ghost within: { count ≤ 32 * length },
}
