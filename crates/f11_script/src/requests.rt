//! What each verb asks with the words behind it.

ghost use Rattle.std.specs.Prelude.{◌≡◌, IfNone, IfSome};

use crate::verb::Verb;
use crate::words::Words;
use crate::{areas, blocks, fields};
use f11_bytes::Block;
use f11_store::{Change, FileId, Mode, Request, ident_with};

impl<'a> Words<'a> {
    ghost use Rattle.f11_script.specs.Fields.{AreHexDigits, byte_of, id_of, mode_of, number_of, octal_byte_of, protection_of, word_of};
    ghost use Rattle.f11_script.specs.Reading.{Gives, argument, words_left};
    ghost use Rattle.f11_script.specs.Requests.{asks, attr_asks, close_asks, access_asks, contiguous_asks, create_asks, delete_asks, enter_asks, extend_asks, fill_asks, find_asks, grow_asks, hex_of, protect_asks, read_asks, release_asks, remove_asks, set_attr_asks, space_asks, truncate_asks, verb_asks, with_block, write_asks};

    fn number(self) -> Option<(u32, Words<'a>)>
        ensures { Gives (λ next. (next.0, words_left next.1)) result
            (argument number_of (words_left self.entry)) }
    {
        let (word, rest) = self.next()?;
        Some((fields::number(word)?, rest))
    }

    fn word(self) -> Option<(u16, Words<'a>)>
        ensures { Gives (λ next. (next.0, words_left next.1)) result
            (argument word_of (words_left self.entry)) }
    {
        let (word, rest) = self.next()?;
        Some((fields::word(word)?, rest))
    }

    fn byte(self) -> Option<(u8, Words<'a>)>
        ensures { Gives (λ next. (next.0, words_left next.1)) result
            (argument byte_of (words_left self.entry)) }
    {
        let (word, rest) = self.next()?;
        Some((fields::byte(word)?, rest))
    }

    fn protection(self) -> Option<(u16, Words<'a>)>
        ensures { Gives (λ next. (next.0, words_left next.1)) result
            (argument protection_of (words_left self.entry)) }
    {
        let (word, rest) = self.next()?;
        Some((fields::protection(word)?, rest))
    }

    fn octal_byte(self) -> Option<(u8, Words<'a>)>
        ensures { Gives (λ next. (next.0, words_left next.1)) result
            (argument octal_byte_of (words_left self.entry)) }
    {
        let (word, rest) = self.next()?;
        Some((fields::octal_byte(word)?, rest))
    }

    fn id(self) -> Option<(FileId, Words<'a>)>
        ensures { Gives (λ next. (next.0, words_left next.1)) result
            (argument id_of (words_left self.entry)) }
    {
        let (word, rest) = self.next()?;
        Some((fields::id(word)?, rest))
    }

    fn mode(self) -> Option<(Mode, Words<'a>)>
        ensures { Gives (λ next. (next.0, words_left next.1)) result
            (argument mode_of (words_left self.entry)) }
    {
        let (word, rest) = self.next()?;
        Some((fields::mode(word)?, rest))
    }

    fn hex(self) -> Option<(&'a [u8], Words<'a>)>
        ensures exact { Gives (λ next. (next.0.now, words_left next.1)) result
            (argument hex_of (words_left self.entry)) }
        ensures digits { IfSome result (λ next. AreHexDigits next.0.now) }
    {
        let (word, rest) = self.next()?;
        Some((fields::hex(word)?, rest))
    }

    /// `EXTEND lun n`
    #[tactic(auto, unfolding(crate::specs::Requests::extend_asks))]
    fn extend(self) -> Option<Request>
        ensures { Gives asks result (extend_asks (words_left self.entry)) }
    {
        let (word, words) = self.next()?;
        let lun = fields::lun(word)?;
        let (n, words) = words.number()?;
        words.is_empty().then_some(Request::Extend(lun, n))
    }

    /// `CONTIG lun n`
    #[tactic(auto, unfolding(crate::specs::Requests::contiguous_asks))]
    fn contiguous(self) -> Option<Request>
        ensures { Gives asks result (contiguous_asks (words_left self.entry)) }
    {
        let (word, words) = self.next()?;
        let lun = fields::lun(word)?;
        let (n, words) = words.number()?;
        words.is_empty().then_some(Request::Contiguous(lun, n))
    }

    /// `TRUNCATE lun n`
    #[tactic(auto, unfolding(crate::specs::Requests::truncate_asks))]
    fn truncate(self) -> Option<Request>
        ensures { Gives asks result (truncate_asks (words_left self.entry)) }
    {
        let (word, words) = self.next()?;
        let lun = fields::lun(word)?;
        let (n, words) = words.number()?;
        words.is_empty().then_some(Request::Truncate(lun, n))
    }

    /// `DELETE f`
    #[tactic(auto, unfolding(crate::specs::Requests::delete_asks))]
    fn delete(self) -> Option<Request>
        ensures { Gives asks result (delete_asks (words_left self.entry)) }
    {
        let (file, words) = self.id()?;
        words.is_empty().then_some(Request::Delete(file))
    }

    /// `GROW n`
    #[tactic(auto, unfolding(crate::specs::Requests::grow_asks))]
    fn grow(self) -> Option<Request>
        ensures { Gives asks result (grow_asks (words_left self.entry)) }
    {
        let (n, words) = self.number()?;
        words.is_empty().then_some(Request::GrowIndex(n))
    }

    /// `ACCESS f mode lun`
    #[tactic(auto, unfolding(crate::specs::Requests::access_asks))]
    fn access(self) -> Option<Request>
        ensures { Gives asks result (access_asks (words_left self.entry)) }
    {
        let (file, words) = self.id()?;
        let (mode, words) = words.mode()?;
        let (word, words) = words.next()?;
        let lun = fields::lun(word)?;
        words.is_empty().then_some(Request::Access(file, mode, lun))
    }

    /// `CLOSE lun`
    #[tactic(auto, unfolding(crate::specs::Requests::close_asks))]
    fn close(self) -> Option<Request>
        ensures { Gives asks result (close_asks (words_left self.entry)) }
    {
        let (word, words) = self.next()?;
        let lun = fields::lun(word)?;
        words.is_empty().then_some(Request::Deaccess(lun))
    }

    /// `RELEASE`
    #[tactic(auto, unfolding(crate::specs::Requests::release_asks))]
    fn release(self) -> Option<Request>
        ensures { Gives asks result (release_asks (words_left self.entry)) }
    {
        self.is_empty().then_some(Request::Release)
    }

    /// `READ lun vbn`
    #[tactic(auto, unfolding(crate::specs::Requests::read_asks))]
    fn read(self) -> Option<Request>
        ensures { Gives asks result (read_asks (words_left self.entry)) }
    {
        let (word, words) = self.next()?;
        let lun = fields::lun(word)?;
        let (vbn, words) = words.number()?;
        words.is_empty().then_some(Request::ReadBlock(lun, vbn))
    }

    /// `FIND d name`
    #[tactic(auto, unfolding(crate::specs::Requests::find_asks))]
    fn find(self) -> Option<Request>
        ensures { Gives asks result (find_asks (words_left self.entry)) }
    {
        let (directory, words) = self.id()?;
        let (word, words) = words.next()?;
        let name = fields::name(word)?;
        words.is_empty().then_some(Request::Find(directory, name))
    }

    /// `ENTER d name f`
    #[tactic(auto, unfolding(crate::specs::Requests::enter_asks))]
    fn enter(self) -> Option<Request>
        ensures { Gives asks result (enter_asks (words_left self.entry)) }
    {
        let (directory, words) = self.id()?;
        let (word, words) = words.next()?;
        let name = fields::name(word)?;
        let (file, words) = words.id()?;
        words
            .is_empty()
            .then_some(Request::Enter(directory, name, file))
    }

    /// `REMOVE d name`
    #[tactic(auto, unfolding(crate::specs::Requests::remove_asks))]
    fn remove(self) -> Option<Request>
        ensures { Gives asks result (remove_asks (words_left self.entry)) }
    {
        let (directory, words) = self.id()?;
        let (word, words) = words.next()?;
        let name = fields::name(word)?;
        words.is_empty().then_some(Request::Remove(directory, name))
    }

    /// `ATTR f`
    #[tactic(auto, unfolding(crate::specs::Requests::attr_asks))]
    fn attr(self) -> Option<Request>
        ensures { Gives asks result (attr_asks (words_left self.entry)) }
    {
        let (file, words) = self.id()?;
        words.is_empty().then_some(Request::ReadAttr(file))
    }

    /// `PROTECT f word`
    #[tactic(auto, unfolding(crate::specs::Requests::protect_asks))]
    fn protect(self) -> Option<Request>
        ensures { Gives asks result (protect_asks (words_left self.entry)) }
    {
        let (file, words) = self.id()?;
        let (word, words) = words.protection()?;
        words
            .is_empty()
            .then_some(Request::WriteAttr(file, Change::Protect(word)))
    }

    /// `SPACE`
    #[tactic(auto, unfolding(crate::specs::Requests::space_asks))]
    fn space(self) -> Option<Request>
        ensures { Gives asks result (space_asks (words_left self.entry)) }
    {
        self.is_empty().then_some(Request::Space)
    }

    /// `CREATE name word`
    #[tactic(auto, unfolding(crate::specs::Requests::create_asks))]
    fn create(self) -> Option<Request>
        ensures { Gives asks result (create_asks (words_left self.entry)) }
    {
        let (word, words) = self.next()?;
        let name = fields::name(word)?;
        let (protection, words) = words.protection()?;
        words.is_empty().then_some(Request::Create {
            protection,
            ident: ident_with(name),
            attr: areas::attr_for(name),
        })
    }

    /// `SETATTR f rtyp ratt rsiz hibk efbk ffby`
    #[tactic(auto, unfolding(crate::specs::Requests::set_attr_asks))]
    fn set_attr(self) -> Option<Request>
        ensures { Gives asks result (set_attr_asks (words_left self.entry)) }
    {
        let (file, words) = self.id()?;
        let (rtyp, words) = words.byte()?;
        let (ratt, words) = words.byte()?;
        let (rsiz, words) = words.word()?;
        let (hibk, words) = words.number()?;
        let (efbk, words) = words.number()?;
        let (ffby, words) = words.word()?;
        let attr = areas::attr_bytes(rtyp, ratt, rsiz, hibk, efbk, ffby);
        words
            .is_empty()
            .then_some(Request::WriteAttr(file, Change::Attr(attr)))
    }

    /// `FILL lun vbn octal`
    #[tactic(auto, unfolding(crate::specs::Requests::fill_asks))]
    fn fill(self, block: &mut Block) -> Option<Request>
        ensures exact { Gives (λ r. (r, block.new)) result
            (with_block block.old (fill_asks (words_left self.entry))) }
        ensures stays { IfNone result (block.new ≡ block.old) }
    {
        let (word, words) = self.next()?;
        let lun = fields::lun(word)?;
        let (vbn, words) = words.number()?;
        let (byte, words) = words.octal_byte()?;
        if !words.is_empty() {
            return None;
        }
        blocks::put_byte(block, byte);
        Some(Request::WriteBlock(lun, vbn))
    }

    /// `WRITE lun vbn hex`
    #[tactic(auto, unfolding(crate::specs::Requests::write_asks))]
    fn write(self, block: &mut Block) -> Option<Request>
        ensures exact { Gives (λ r. (r, block.new)) result
            (with_block block.old (write_asks (words_left self.entry))) }
        ensures stays { IfNone result (block.new ≡ block.old) }
    {
        let (word, words) = self.next()?;
        let lun = fields::lun(word)?;
        let (vbn, words) = words.number()?;
        let (digits, words) = words.hex()?;
        if !words.is_empty() {
            return None;
        }
        blocks::put_hex(block, digits);
        Some(Request::WriteBlock(lun, vbn))
    }

    /// The request of a verb with these words behind it; the block becomes that of `FILL` and `WRITE`.
    #[tactic(auto, using(crate::proofs::AskLemmas::kept))]
    pub(crate) fn request(self, verb: Verb, block: &mut Block) -> Option<Request>
        ensures exact { Gives (λ r. (r, block.new)) result
            (with_block block.old (verb_asks verb (words_left self.entry))) }
        ensures stays { IfNone result (block.new ≡ block.old) }
    {
        let words = self;
        match verb {
            Verb::Create => words.create(),
            Verb::Extend => words.extend(),
            Verb::Contiguous => words.contiguous(),
            Verb::Truncate => words.truncate(),
            Verb::Delete => words.delete(),
            Verb::Grow => words.grow(),
            Verb::Access => words.access(),
            Verb::Close => words.close(),
            Verb::Release => words.release(),
            Verb::Read => words.read(),
            Verb::Find => words.find(),
            Verb::Enter => words.enter(),
            Verb::Remove => words.remove(),
            Verb::Attr => words.attr(),
            Verb::SetAttr => words.set_attr(),
            Verb::Protect => words.protect(),
            Verb::Space => words.space(),
            Verb::Fill => words.fill(block),
            Verb::Write => words.write(block),
        }
    }
}
