//! The verbs of the script language.

ghost use Rattle.std.specs.Prelude.{◌≡◌};
ghost use Rattle.f11_script.specs.Verbs.{verb_of, verb_text};

/// What a line asks for (profile).
#[derive(Clone, Copy, PartialEq, Eq, Debug)]
pub(crate) enum Verb {
    Create,
    Extend,
    Contiguous,
    Truncate,
    Delete,
    Grow,
    Access,
    Close,
    Release,
    Read,
    Fill,
    Write,
    Find,
    Enter,
    Remove,
    Attr,
    SetAttr,
    Protect,
    Space,
}

const VERBS: [Verb; 19] = [
    Verb::Create,
    Verb::Extend,
    Verb::Contiguous,
    Verb::Truncate,
    Verb::Delete,
    Verb::Grow,
    Verb::Access,
    Verb::Close,
    Verb::Release,
    Verb::Read,
    Verb::Fill,
    Verb::Write,
    Verb::Find,
    Verb::Enter,
    Verb::Remove,
    Verb::Attr,
    Verb::SetAttr,
    Verb::Protect,
    Verb::Space,
];

impl Verb {
    /// How it is written.
    fn text(self) -> &'static [u8]
        ensures { result.now ≡ verb_text self }
    {
        match self {
            Verb::Create => b"CREATE",
            Verb::Extend => b"EXTEND",
            Verb::Contiguous => b"CONTIG",
            Verb::Truncate => b"TRUNCATE",
            Verb::Delete => b"DELETE",
            Verb::Grow => b"GROW",
            Verb::Access => b"ACCESS",
            Verb::Close => b"CLOSE",
            Verb::Release => b"RELEASE",
            Verb::Read => b"READ",
            Verb::Fill => b"FILL",
            Verb::Write => b"WRITE",
            Verb::Find => b"FIND",
            Verb::Enter => b"ENTER",
            Verb::Remove => b"REMOVE",
            Verb::Attr => b"ATTR",
            Verb::SetAttr => b"SETATTR",
            Verb::Protect => b"PROTECT",
            Verb::Space => b"SPACE",
        }
    }

    /// The verb that is written so.
    #[tactic(auto, unfolding(crate::specs::Verbs::verb_of))]
    pub(crate) fn of(text: &[u8]) -> Option<Verb>
        ensures { result ≡ verb_of text.now }
    {
        VERBS.iter().copied().find(|verb| verb.text() == text)
    }
}
