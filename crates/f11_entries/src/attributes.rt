//! What a directory's attributes say, and its end moved.
ghost use Rattle.std.specs.Prelude.{◌≡◌, ◌*◌, ◌≤◌, ◌<◌, ◌^◌};
ghost use Rattle.f11_store.specs.File.{File, length_of};
ghost use Rattle.f11_store.specs.Directory.{entry_count, is_directory as is_directory_file, with_end};

use f11_bytes::{BLOCK_SIZE, long_bytes, put_bytes, read_long, read_word, word_bytes};

/// The bytes of a record.
const RECORD_SIZE: u32 = 16;

/// Whether a file with this ident area and these attributes is a directory: ident type DIR, record type 1, record size 16.
#[tactic(auto, unfolding(f11_store::specs::Directory::is_directory))]
pub fn is_directory(ident: &[u8; 46], attr: &[u8; 32]) -> bool
    ensures { (f : File) → f.ident ≡ ident.now → f.attr ≡ attr.now → result ≡ is_directory_file f }
{
    read_word(ident, 6) == 6778 && attr[0] == 1 && read_word(attr, 2) == 16
}

/// The whole records below the end of a directory of so many blocks, which are 8,388,607 at most.
#[tactic(auto, unfolding(f11_store::specs::File::stated_end))]
pub fn entry_count(attr: &[u8; 32], length: u32) -> u32
    requires { length < 2 ^ 23 }
    ensures count { (f : File) → f.attr ≡ attr.now → length_of f ≡ length → result ≡ entry_count f }
    ensures within { result ≤ 32 * length }
{
    let most = u64::from(length) * BLOCK_SIZE as u64;
    let block = u64::from(read_long(attr, 8));
    if block == 0 {
        return 0;
    }
    let stated = (block - 1) * BLOCK_SIZE as u64 + u64::from(read_word(attr, 12));
    stated.min(most) as u32 / RECORD_SIZE
}

/// The attributes of a directory of so many blocks with its end moved.
#[tactic(auto, unfolding(f11_store::specs::Directory::with_end))]
pub fn moved_end(attr: &[u8; 32], length: u32, end: u32) -> [u8; 32]
    ensures { result ≡ with_end attr.now length end }
{
    let [a, b, c, d] = long_bytes(length);
    let [e, f, g, h] = long_bytes(end / BLOCK_SIZE as u32 + 1);
    let [low, high] = word_bytes((end % BLOCK_SIZE as u32) as u16);
    let mut moved = *attr;
    put_bytes(&mut moved, 4, &[a, b, c, d, e, f, g, h, low, high]);
    moved
}
