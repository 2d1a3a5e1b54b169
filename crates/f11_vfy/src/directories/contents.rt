//! A directory in hand, and the end that it states.
ghost use Rattle.std.specs.Prelude.{◌≡◌, ◌≢◌, ◌↔◌, ◌+◌, ◌-◌, ◌<◌, ◌/◌, ◌^◌, min, IsTrue};
ghost use Rattle.f11_header.specs.Fields.{attributes};
ghost use Rattle.f11_header.specs.Header.{holds_header};
ghost use Rattle.f11_store.specs.File.{stated_end as end_stated};

use crate::survey::slot::State;
use f11_bytes::{BLOCK_SIZE, Block, read_long, read_word};
use f11_header::Header;

/// Whether a slot in this state has a valid header.
pub(crate) fn is_live(state: State) -> bool
    ensures { IsTrue result ↔ (state ≡ State.Live) }
{
    state == State::Live
}

/// The end in bytes that a file's attributes state (Files-11 On-Disk Structure Level 1, "File Attributes").
#[tactic(auto, unfolding(f11_store::specs::File::stated_end))]
fn stated_end(attributes: &[u8; 32]) -> u64
    ensures value { result ≡ end_stated attributes.now }
    ensures few { result < 2 ^ 42 }
{
    let block = read_long(attributes, 8);
    if block == 0 {
        return 0;
    }
    u64::from(block - 1) * BLOCK_SIZE as u64 + u64::from(read_word(attributes, 12))
}

/// How many whole records are before the end that a file states, whose first header this is.
pub(crate) fn record_end(block: &Block) -> u64
    requires { IsTrue (holds_header block.now) }
    ensures value { result ≡ end_stated (attributes block.now) / 16 }
    ensures few { result < 2 ^ 38 }
{
    stated_end(&Header::new(block).attributes()) / 16
}

/// A directory in hand.
#[derive(Clone, Copy, Debug)]
pub(crate) struct Directory {
    /// The slot of its first header.
    pub(crate) d: u16,
    /// How many whole records are before the end that it states.
    pub(crate) end: u64,
    ghost few: { end < 2 ^ 38 },
}

impl Directory {
    /// How many of `count` blocks, from its block `at` on, hold a record before the end.
    pub(crate) fn wanted(&self, at: u32, count: u32) -> u32
        ensures { result ≡ min count ((self.now.end + 31) / 32 - at) }
    {
        let blocks = self.end.div_ceil(32);
        blocks.saturating_sub(u64::from(at)).min(u64::from(count)) as u32
    }
}
