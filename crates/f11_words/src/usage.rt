//! The commands, and the words that each takes.
ghost use Rattle.std.specs.Prelude.{◌≡◌, ◌≢◌, IfNone, IfSome, map};
ghost use Rattle.f11_words.specs.Usage.{all_commands, name_of, words_of};
ghost use Rattle.f11_words.specs.Told.{as_word};

/// A command, which the first word behind the program's name names.
#[derive(Clone, Copy, Debug, PartialEq, Eq)]
pub enum Subcommand {
    Del,
    Dump,
    FlxFromRt,
    FlxToRt,
    Get,
    Home,
    Init,
    Ls,
    Mkdir,
    Name,
    Prot,
    Purge,
    Put,
    Ren,
    Rights,
    RtCopy,
    RtDel,
    RtGet,
    RtInit,
    RtList,
    RtLs,
    RtProt,
    RtPut,
    RtRen,
    RtSqueeze,
    RtVfy,
    Run,
    Trunc,
    Vfy,
}

/// A word of a command, by its name.
#[derive(Clone, Copy, Debug, PartialEq, Eq)]
pub(crate) enum Word {
    /// `--NAME`, which may be there.
    Flag(&'static str),
    /// A hyphen and a letter, which may be there, before all others.
    Letter(&'static str, char),
    /// One behind `--NAME`, and whether it has to be there.
    Option(&'static str, bool),
    /// One by its place, and whether it has to be there.
    Place(&'static str, bool),
}

impl Subcommand {
    /// All commands.
    pub(crate) fn all() -> [Subcommand; 29]
        ensures { result ≡ all_commands }
    {
        [
            Subcommand::Del,
            Subcommand::Dump,
            Subcommand::FlxFromRt,
            Subcommand::FlxToRt,
            Subcommand::Get,
            Subcommand::Home,
            Subcommand::Init,
            Subcommand::Ls,
            Subcommand::Mkdir,
            Subcommand::Name,
            Subcommand::Prot,
            Subcommand::Purge,
            Subcommand::Put,
            Subcommand::Ren,
            Subcommand::Rights,
            Subcommand::RtCopy,
            Subcommand::RtDel,
            Subcommand::RtGet,
            Subcommand::RtInit,
            Subcommand::RtList,
            Subcommand::RtLs,
            Subcommand::RtProt,
            Subcommand::RtPut,
            Subcommand::RtRen,
            Subcommand::RtSqueeze,
            Subcommand::RtVfy,
            Subcommand::Run,
            Subcommand::Trunc,
            Subcommand::Vfy,
        ]
    }

    /// The command of this name, if there is one.
    pub fn named(name: &str) -> Option<Subcommand>
        ensures named { IfSome result (λ command. name.now ≡ name_of command) }
        ensures none { IfNone result ((command : Subcommand) → name.now ≢ name_of command) }
    {
        match name {
            "del" => Some(Subcommand::Del),
            "dump" => Some(Subcommand::Dump),
            "flx-from-rt" => Some(Subcommand::FlxFromRt),
            "flx-to-rt" => Some(Subcommand::FlxToRt),
            "get" => Some(Subcommand::Get),
            "home" => Some(Subcommand::Home),
            "init" => Some(Subcommand::Init),
            "ls" => Some(Subcommand::Ls),
            "mkdir" => Some(Subcommand::Mkdir),
            "name" => Some(Subcommand::Name),
            "prot" => Some(Subcommand::Prot),
            "purge" => Some(Subcommand::Purge),
            "put" => Some(Subcommand::Put),
            "ren" => Some(Subcommand::Ren),
            "rights" => Some(Subcommand::Rights),
            "rt-copy" => Some(Subcommand::RtCopy),
            "rt-del" => Some(Subcommand::RtDel),
            "rt-get" => Some(Subcommand::RtGet),
            "rt-init" => Some(Subcommand::RtInit),
            "rt-list" => Some(Subcommand::RtList),
            "rt-ls" => Some(Subcommand::RtLs),
            "rt-prot" => Some(Subcommand::RtProt),
            "rt-put" => Some(Subcommand::RtPut),
            "rt-ren" => Some(Subcommand::RtRen),
            "rt-squeeze" => Some(Subcommand::RtSqueeze),
            "rt-vfy" => Some(Subcommand::RtVfy),
            "run" => Some(Subcommand::Run),
            "trunc" => Some(Subcommand::Trunc),
            "vfy" => Some(Subcommand::Vfy),
            _ => None,
        }
    }

    /// Its name.
    pub fn name<'a>(self) -> &'a str
        ensures { result.now ≡ name_of self }
    {
        match self {
            Subcommand::Del => "del",
            Subcommand::Dump => "dump",
            Subcommand::FlxFromRt => "flx-from-rt",
            Subcommand::FlxToRt => "flx-to-rt",
            Subcommand::Get => "get",
            Subcommand::Home => "home",
            Subcommand::Init => "init",
            Subcommand::Ls => "ls",
            Subcommand::Mkdir => "mkdir",
            Subcommand::Name => "name",
            Subcommand::Prot => "prot",
            Subcommand::Purge => "purge",
            Subcommand::Put => "put",
            Subcommand::Ren => "ren",
            Subcommand::Rights => "rights",
            Subcommand::RtCopy => "rt-copy",
            Subcommand::RtDel => "rt-del",
            Subcommand::RtGet => "rt-get",
            Subcommand::RtInit => "rt-init",
            Subcommand::RtList => "rt-list",
            Subcommand::RtLs => "rt-ls",
            Subcommand::RtProt => "rt-prot",
            Subcommand::RtPut => "rt-put",
            Subcommand::RtRen => "rt-ren",
            Subcommand::RtSqueeze => "rt-squeeze",
            Subcommand::RtVfy => "rt-vfy",
            Subcommand::Run => "run",
            Subcommand::Trunc => "trunc",
            Subcommand::Vfy => "vfy",
        }
    }

    /// The words that it takes, options first.
    pub(crate) fn words(self) -> &'static [Word]
        ensures { map as_word result.now ≡ words_of self }
    {
        match self {
            Subcommand::Del | Subcommand::Trunc => {
                &[
                    Word::Letter("n", 'n'),
                    Word::Flag("stop"),
                    Word::Place("image", true),
                    Word::Place("dir", true),
                    Word::Place("name", true),
                ]
            }
            Subcommand::Dump => &[Word::Place("image", true), Word::Place("number", true)],
            Subcommand::FlxFromRt => {
                &[
                    Word::Option("mode", true),
                    Word::Place("rt", true),
                    Word::Place("rt-name", true),
                    Word::Place("image", true),
                    Word::Place("uic", true),
                    Word::Place("name", true),
                ]
            }
            Subcommand::FlxToRt => {
                &[
                    Word::Option("mode", true),
                    Word::Place("image", true),
                    Word::Place("uic", true),
                    Word::Place("name", true),
                    Word::Place("rt", true),
                    Word::Place("rt-name", true),
                ]
            }
            Subcommand::Get => {
                &[
                    Word::Letter("n", 'n'),
                    Word::Flag("all"),
                    Word::Flag("blocks"),
                    Word::Option("mode", false),
                    Word::Place("image", true),
                    Word::Place("dir", true),
                    Word::Place("name", false),
                    Word::Place("host", false),
                ]
            }
            Subcommand::Init => {
                &[
                    Word::Option("blocks", true),
                    Word::Option("slots", true),
                    Word::Option("label", true),
                    Word::Option("max", false),
                    Word::Place("image", true),
                ]
            }
            Subcommand::Ls => &[
                Word::Letter("l", 'l'),
                Word::Place("image", true),
                Word::Place("dir", false),
            ],
            Subcommand::Mkdir => &[Word::Place("image", true), Word::Place("dir", true)],
            Subcommand::Name => &[Word::Place("text", true)],
            Subcommand::Prot => {
                &[
                    Word::Letter("n", 'n'),
                    Word::Flag("stop"),
                    Word::Place("image", true),
                    Word::Place("dir", true),
                    Word::Place("name", true),
                    Word::Place("word", true),
                ]
            }
            Subcommand::Purge => {
                &[
                    Word::Letter("n", 'n'),
                    Word::Flag("stop"),
                    Word::Place("image", true),
                    Word::Place("dir", true),
                    Word::Place("name", false),
                ]
            }
            Subcommand::Put => {
                &[
                    Word::Letter("n", 'n'),
                    Word::Flag("stop"),
                    Word::Flag("all"),
                    Word::Flag("each"),
                    Word::Flag("fit"),
                    Word::Option("mode", false),
                    Word::Place("image", true),
                    Word::Place("dir", true),
                    Word::Place("name", false),
                    Word::Place("host", false),
                ]
            }
            Subcommand::Ren => {
                &[
                    Word::Place("image", true),
                    Word::Place("dir", true),
                    Word::Place("name", true),
                    Word::Place("new", true),
                ]
            }
            Subcommand::Rights => {
                &[
                    Word::Place("uic", true),
                    Word::Place("owner", true),
                    Word::Place("word", true),
                ]
            }
            Subcommand::RtCopy => {
                &[
                    Word::Flag("onto"),
                    Word::Option("blocks", false),
                    Word::Option("segments", false),
                    Word::Place("old", true),
                    Word::Place("new", true),
                ]
            }
            Subcommand::RtDel => &[Word::Place("rt", true), Word::Place("name", true)],
            Subcommand::RtGet => {
                &[
                    Word::Flag("all"),
                    Word::Option("mode", false),
                    Word::Place("rt", true),
                    Word::Place("name", true),
                    Word::Place("host", false),
                ]
            }
            Subcommand::RtInit => {
                &[
                    Word::Option("blocks", true),
                    Word::Option("segments", true),
                    Word::Place("image", true),
                ]
            }
            Subcommand::RtLs | Subcommand::RtSqueeze => &[Word::Place("rt", true)],
            Subcommand::RtProt => {
                &[
                    Word::Flag("off"),
                    Word::Place("rt", true),
                    Word::Place("name", true),
                ]
            }
            Subcommand::RtPut => {
                &[
                    Word::Letter("n", 'n'),
                    Word::Flag("stop"),
                    Word::Flag("each"),
                    Word::Flag("fit"),
                    Word::Option("mode", false),
                    Word::Place("rt", true),
                    Word::Place("name", true),
                    Word::Place("host", false),
                ]
            }
            Subcommand::RtRen => {
                &[
                    Word::Place("rt", true),
                    Word::Place("name", true),
                    Word::Place("new", true),
                ]
            }
            Subcommand::Run => {
                &[
                    Word::Flag("quiet"),
                    Word::Place("image", true),
                    Word::Place("script", true),
                ]
            }
            Subcommand::Vfy => &[Word::Flag("update"), Word::Place("image", true)],
            Subcommand::Home | Subcommand::RtList | Subcommand::RtVfy => {
                &[Word::Place("image", true)]
            }
        }
    }
}
