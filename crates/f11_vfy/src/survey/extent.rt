//! Where the blocks lie that headers name: whether each comes right behind the one before it.
ghost use Rattle.std.specs.Prelude.{◌≡◌, ◌<◌, ◌++◌, ◌↔◌, ℕ, List, IsTrue};
ghost use Rattle.f11_header.specs.Header.{holds_header};
ghost use Rattle.f11_map.specs.HeaderBlock.{blocks_named};
ghost use Rattle.f11_vfy.specs.Surveying.Extent.{LieAs};

use f11_bytes::Block;
use f11_map::in_hand::map;

/// Where blocks lie, which stand in an order.
#[derive(Clone, Copy, Debug)]
pub enum Extent {
    /// There is none.
    Empty,
    /// They are those from the first LBN on, below the end.
    Run { first: u32, end: u32 },
    /// One doesn't come right behind the one before it.
    Scattered,
}

impl Extent {
    /// Where blocks lie together with others, which stand behind them.
    pub(crate) fn join(self, behind: Extent) -> Extent
        ensures { (front back : List ℕ) → LieAs front self → LieAs back behind
            → LieAs (front ++ back) result }
    {
        match self {
            Extent::Empty => behind,
            Extent::Run { first, end } => join_run(first, end, behind),
            Extent::Scattered => Extent::Scattered,
        }
    }

    /// Whether one doesn't come right behind the one before it.
    pub(crate) fn is_scattered(self) -> bool
        ensures { IsTrue result ↔ (self ≡ Extent.Scattered) }
    {
        match self {
            Extent::Scattered => true,
            _ => false,
        }
    }
}

/// Where a run of blocks lies together with others, which stand behind it.
fn join_run(first: u32, end: u32, behind: Extent) -> Extent
    ensures { (front back : List ℕ) → LieAs front (Extent.Run first end) → LieAs back behind
        → LieAs (front ++ back) result }
{
    match behind {
        Extent::Empty => Extent::Run { first, end },
        Extent::Run {
            first: next,
            end: last,
        } => {
            if next == end {
                Extent::Run { first, end: last }
            } else {
                Extent::Scattered
            }
        }
        Extent::Scattered => Extent::Scattered,
    }
}

/// Where the blocks lie that a valid header names.
pub(crate) fn extent_of(block: &Block) -> Extent
    requires { IsTrue (holds_header block.now) }
    ensures { LieAs (blocks_named block.now) result }
{
    let map = map(block);
    let mut extent = Extent::Empty;
    for i in 0..map.runs() {
        let (first, count) = map.run(i);
        let run = Extent::Run {
            first,
            end: first + count,
        };
        extent = extent.join(run);
    }
    extent
}
