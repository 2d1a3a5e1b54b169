//! The master file directory of a fresh volume.
ghost use Rattle.std.specs.Prelude.{◌≡◌, ◌∷◌};

use crate::files::OWN_FILES;
use crate::layout::Layout;
use f11_bytes::{Block, zeros};
use f11_dir::put_words;

impl Layout {
    ghost use Rattle.f11_layout.specs.FreshDirectory.{IsFreshDirectory};

    /// Makes the block that of the master file directory: a record for each of the five files.
    pub(crate) fn fill_directory(&self, block: &mut Block)
        ensures { IsFreshDirectory self.now block.new }
    {
        *block = zeros();
        for i in 0..OWN_FILES {
            let file = self.own_file(i + 1);
            put_words(block, usize::from(i), &record_words(i + 1, file.name));
        }
    }
}

/// The words of the record of the file `n,n` under this name.
fn record_words(n: u16, name: [u16; 5]) -> [u16; 8]
    ensures { result ≡ n ∷ (n ∷ (0 ∷ name)) }
{
    let [first, second, third, kind, version] = name;
    [n, n, 0, first, second, third, kind, version]
}
