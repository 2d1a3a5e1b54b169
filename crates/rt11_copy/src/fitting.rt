//! Whether files fit on a fresh volume.
ghost use Rattle.std.specs.Prelude.{◌≡◌, ◌+◌, ◌==◌, ◌≤◌, ℕ, if◌then◌else◌};
ghost use Rattle.rt11_copy.specs.Fitting.{counted, is_at_least, is_copied, most_files, need_of, will_fit};

use crate::entries::name_to_copy;
use rt11_volume::RtEntry;

/// What copying files takes of a fresh volume, each number as far as is counted, up to 4294967295.
#[derive(Clone, Copy, Debug, PartialEq, Eq)]
pub struct RtNeed {
    /// How many files they are.
    pub files: u32,
    /// How many blocks they have, and one more where the last of them has none.
    pub blocks: u32,
}

/// What was counted of files.
#[derive(Clone, Copy)]
struct Tally {
    files: u32,
    blocks: u32,
    /// Whether the last of them has no block.
    ends_empty: bool,
}

/// Whether the file of an entry on a device of so many blocks is copied.
fn is_copied(size: u32, entry: &RtEntry) -> bool
    ensures { result ≡ is_copied size entry.now }
{
    name_to_copy(size, entry).is_ok()
}

/// What is counted with an entry of so many blocks more, whose file is copied, or isn't.
fn added(tally: Tally, copied: bool, blocks: u16) -> Tally
    ensures files { result.files ≡ (if copied then counted (tally.files + 1) else tally.files) }
    ensures blocks { result.blocks ≡
        (if copied then counted (tally.blocks + blocks) else tally.blocks) }
    ensures last { result.ends_empty ≡ (if copied then blocks == 0 else tally.ends_empty) }
{
    if !copied {
        return tally;
    }
    Tally {
        files: tally.files.saturating_add(1),
        blocks: tally.blocks.saturating_add(u32::from(blocks)),
        ends_empty: blocks == 0,
    }
}

/// What copying the files of entries of a volume takes, which is on a device of so many blocks. Of two files of one name each is counted,
/// though the second isn't copied.
pub fn need_of(size: u32, entries: &[RtEntry]) -> RtNeed
    ensures { result ≡ need_of size entries.now }
{
    let mut tally = Tally {
        files: 0,
        blocks: 0,
        ends_empty: false,
    };
    for i in 0..entries.len() {
        let entry = entries[i];
        tally = added(tally, is_copied(size, &entry), entry.blocks);
    }
    RtNeed {
        files: tally.files,
        blocks: tally.blocks.saturating_add(u32::from(tally.ends_empty)),
    }
}

/// How many files a fresh directory of so many segments holds, with an empty area behind them.
fn most_files(segments: u16) -> u32
    requires { 1 ≤ segments }
    ensures { result ≡ most_files segments }
{
    35 * (u32::from(segments) - 1) + 70
}

/// Whether a fresh volume of so many blocks, with a directory of so many segments, surely has room for files (RT-11 Volume and File Formats
/// Manual, "Directory Segments"): it has 1 to 31 segments and a block behind them, the files are no more than its directory holds, and
/// their blocks no more than it has up to block 65534.
pub fn will_fit(need: &RtNeed, segments: u16, size: u32) -> bool
    ensures { result ≡ will_fit need.now segments size }
{
    if segments == 0 || segments > 31 {
        return false;
    }
    let start = 6 + 2 * u32::from(segments);
    start < size && need.files <= most_files(segments) && need.blocks <= size.min(65535) - start
}

/// Of how many blocks a fresh volume with so many segments is at least that has room for files, if there is one: exactly those of so many
/// blocks, or more, have.
pub fn blocks_for(need: &RtNeed, segments: u16) -> Option<u32>
    ensures { (size : ℕ) → will_fit need.now segments size ≡ is_at_least result size }
{
    if segments == 0 || segments > 31 {
        return None;
    }
    let most = 65535 - (6 + 2 * u32::from(segments));
    if need.files <= most_files(segments) && need.blocks <= most {
        Some(6 + 2 * u32::from(segments) + need.blocks.max(1))
    } else {
        None
    }
}
