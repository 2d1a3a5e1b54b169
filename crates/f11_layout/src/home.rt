//! The home block of a fresh volume.
ghost use Rattle.std.specs.Prelude.{◌≡◌};
ghost use Rattle.f11_layout.specs.Texts.{owner_text, three_digits};

use crate::layout::{Layout, bit_blocks};
use f11_bytes::{Block, put_bytes, write_long, write_word, zeros};
use f11_home::{fields, seal};
use f11_map::f11_store::Uic;

impl Layout {
    ghost use Rattle.f11_layout.specs.FreshHome.{with_texts, with_numbers, fresh_home};

    /// Makes the block the home block.
    #[tactic(auto, unfolding(crate::specs::FreshHome::fresh_home))]
    pub(crate) fn fill_home(&self, block: &mut Block)
        ensures { block.new ≡ fresh_home self.now }
    {
        *block = zeros();
        self.put_texts(block);
        self.put_numbers(block);
        seal(block);
    }

    /// Puts the texts of the home block.
    fn put_texts(&self, block: &mut Block)
        ensures { block.new ≡ with_texts self.now block.old }
    {
        put_bytes(block, fields::LABEL, self.label());
        put_bytes(block, fields::DATE, &self.date);
        put_bytes(block, fields::SPACED_LABEL, &[b' '; 12]);
        put_bytes(block, fields::SPACED_LABEL, self.label());
        put_bytes(block, fields::OWNER_TEXT, &owner_text(self.owner));
        put_bytes(block, fields::FORMAT, fields::FORMAT_NAME);
    }

    /// Puts the numbers of the home block.
    #[tactic(auto, unfolding(crate::specs::FreshHome::with_numbers))]
    fn put_numbers(&self, block: &mut Block)
        ensures { block.new ≡ with_numbers self.now block.old }
    {
        let bitmap = bit_blocks(u32::from(self.max_files)) as u16;
        write_word(block, fields::INDEX_BLOCKS, bitmap);
        write_long(block, fields::INDEX_LBN, 2);
        write_word(block, fields::MAX_FILES, self.max_files);
        write_word(block, fields::CLUSTER, 1);
        write_word(block, fields::LEVEL, 0o401);
        block[fields::OWNER] = self.owner.member;
        block[fields::OWNER + 1] = self.owner.group;
        write_word(block, fields::FILE_PROTECTION, 0o160000);
        write_word(block, fields::WINDOW_POINTERS, 7 + 256 * 5);
    }
}

/// An owner as `[ggg,mmm]` and three spaces.
fn owner_text(owner: Uic) -> [u8; 12]
    ensures { result ≡ owner_text owner }
{
    let [a, b, c] = three_digits(owner.group);
    let [d, e, f] = three_digits(owner.member);
    [b'[', a, b, c, b',', d, e, f, b']', b' ', b' ', b' ']
}

/// A number as three octal digits.
fn three_digits(n: u8) -> [u8; 3]
    ensures { result ≡ three_digits n }
{
    [b'0' + n / 64, b'0' + n / 8 % 8, b'0' + n % 8]
}
