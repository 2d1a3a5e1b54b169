//! What the words of a command line ask for.

use crate::directory::Directory;
use f11_flx::CopyMode;
use f11_store::Uic;

/// How a file that is taken out of a volume becomes one of the host.
#[derive(Clone, Copy, Debug, PartialEq, Eq)]
pub enum TakingMode {
    /// As it is, or as the text of its records.
    Copy(CopyMode),
    /// As the text of its records where its header says that these are lines, and else as it is.
    Auto,
}

/// How something is done to files one after another.
#[derive(Clone, Copy, Debug, PartialEq, Eq)]
pub enum Manner {
    /// The others are done behind one that is refused.
    GoesOn,
    /// `--stop`: none is done behind one that is refused.
    Stops,
    /// `-n`: nothing is done, and it is told what would be.
    Tells,
}

/// What the words of the command line ask for.
#[derive(Clone, Copy, Debug, PartialEq, Eq)]
pub enum Words<'a> {
    /// `del [-n|--stop] IMAGE DIR NAME`: a file in a directory
    Del {
        manner: Manner,
        image: &'a str,
        directory: Directory,
        name: &'a str,
    },
    /// `dump IMAGE NUMBER`: the number of a file header, 0 to 65,535
    Dump {
        image: &'a str,
        number: u16,
    },
    /// `flx-from-rt --mode M RT RTNAME IMAGE UIC NAME`: how a file of an RT-11 volume is copied to which file in which directory
    FlxFromRt {
        mode: CopyMode,
        rt: &'a str,
        rt_name: &'a str,
        image: &'a str,
        directory: Uic,
        name: &'a str,
    },
    /// `flx-to-rt --mode M IMAGE UIC NAME RT RTNAME`: how which file in which directory is copied to a file of an RT-11 volume
    FlxToRt {
        mode: CopyMode,
        image: &'a str,
        directory: Uic,
        name: &'a str,
        rt: &'a str,
        rt_name: &'a str,
    },
    /// `get [-n] [--mode M|--blocks] IMAGE DIR NAME HOST`: how which file in which directory becomes a file of the host, whether up to its
    /// last block, and whether it is only told
    Get {
        is_told: bool,
        mode: TakingMode,
        all_blocks: bool,
        image: &'a str,
        directory: Directory,
        name: &'a str,
        host: &'a str,
    },
    /// `get --all [--mode M] IMAGE FOLDER`: how all files become files of the host, and the folder for these
    GetAll {
        mode: TakingMode,
        image: &'a str,
        folder: &'a str,
    },
    /// `home IMAGE`
    Home {
        image: &'a str,
    },
    /// `init --blocks N --slots N --label L [--max N] IMAGE`: what a fresh volume is made with, in blocks of 512 bytes, 0 to
    /// 4,294,967,295, and in slots and files, 0 to 65,535 each; what can't be is the volume's to refuse
    Init {
        image: &'a str,
        blocks: u32,
        slots: u16,
        label: &'a str,
        max_files: u16,
    },
    /// `ls [-l] IMAGE`: of all directories, by long lines or short ones
    Ls {
        is_long: bool,
        image: &'a str,
    },
    /// `ls [-l] IMAGE DIR`: of one
    LsIn {
        is_long: bool,
        image: &'a str,
        directory: Directory,
    },
    /// `mkdir IMAGE DIR`: a directory that is made
    Mkdir {
        image: &'a str,
        directory: Directory,
    },
    /// `name TEXT`
    Name {
        text: &'a str,
    },
    /// `prot [-n|--stop] IMAGE DIR NAME WORD`: a file in a directory, and the protection word that it gets
    Prot {
        manner: Manner,
        image: &'a str,
        directory: Directory,
        name: &'a str,
        protection: u16,
    },
    /// `purge [-n|--stop] IMAGE DIR [NAME]`: the versions of files in a directory of which there is a higher one, of those that a pattern means, and
    /// else of all, `*.*`
    Purge {
        manner: Manner,
        image: &'a str,
        directory: Directory,
        name: &'a str,
    },
    /// `put [--mode M] IMAGE DIR NAME HOST`: how the file in which directory is made, and one of the host
    Put {
        mode: CopyMode,
        image: &'a str,
        directory: Directory,
        name: &'a str,
        host: &'a str,
    },
    /// `put [-n|--stop] --each [--fit] [--mode M] IMAGE DIR HOST`: how files are made in which directory under their own names, whether a name
    /// that can't be one is fitted, and the first one of the host; the words of the others stand behind ([`split_hosts`](crate::split_hosts))
    PutEach {
        manner: Manner,
        is_fitted: bool,
        mode: CopyMode,
        image: &'a str,
        directory: Directory,
        host: &'a str,
    },
    /// `put --all [--mode M] FOLDER IMAGE`: how files are made, of a folder of the host, on which image
    PutAll {
        mode: CopyMode,
        folder: &'a str,
        image: &'a str,
    },
    /// `ren IMAGE DIR NAME NEW`: a file in a directory, its new name, and in which other directory it gets that
    Ren {
        image: &'a str,
        directory: Directory,
        name: &'a str,
        to: Option<Directory>,
        new: &'a str,
    },
    /// `rights UIC OWNER WORD`: the caller's code, the owner's, and the file's protection word
    Rights {
        caller: Uic,
        owner: Uic,
        protection: u16,
    },
    /// `rt-copy [--blocks N] [--segments N] OLD NEW`: an RT-11 volume whose files are copied to a fresh one, and how many blocks and segments
    /// that has, 0 to 65,535 each, where they are given
    RtCopy {
        blocks: Option<u16>,
        segments: Option<u16>,
        old: &'a str,
        new: &'a str,
    },
    /// `rt-copy --onto OLD NEW`: an RT-11 volume whose files are copied to one that is there
    RtCopyOnto {
        old: &'a str,
        new: &'a str,
    },
    /// `rt-del RT NAME`: a file of an RT-11 volume
    RtDel {
        rt: &'a str,
        name: &'a str,
    },
    /// `rt-get [--mode M] RT NAME HOST`: how a file of an RT-11 volume becomes one of the host that is made
    RtGet {
        mode: CopyMode,
        rt: &'a str,
        name: &'a str,
        host: &'a str,
    },
    /// `rt-get --all RT FOLDER`: the folder in which all files of an RT-11 volume become files of the host
    RtGetAll {
        rt: &'a str,
        folder: &'a str,
    },
    /// `rt-init --blocks N --segments N IMAGE`: how many blocks of 512 bytes, and how many segments of the directory, 0 to 65,535 each
    RtInit {
        image: &'a str,
        blocks: u16,
        segments: u16,
    },
    /// `rt-list IMAGE`
    RtList {
        image: &'a str,
    },
    /// `rt-ls RT`
    RtLs {
        rt: &'a str,
    },
    /// `rt-prot [--off] RT NAME`: a file of an RT-11 volume, and whether it is protected
    RtProt {
        rt: &'a str,
        name: &'a str,
        on: bool,
    },
    /// `rt-put [--mode M] RT NAME HOST`: how a file of an RT-11 volume is made of one of the host
    RtPut {
        mode: CopyMode,
        rt: &'a str,
        name: &'a str,
        host: &'a str,
    },
    /// `rt-put [-n|--stop] --each [--fit] [--mode M] RT HOST`: the same on an RT-11 volume; the words of the other files stand behind, too
    RtPutEach {
        manner: Manner,
        is_fitted: bool,
        mode: CopyMode,
        rt: &'a str,
        host: &'a str,
    },
    /// `rt-ren RT NAME NEW`: a file of an RT-11 volume, and its new name
    RtRen {
        rt: &'a str,
        name: &'a str,
        new: &'a str,
    },
    /// `rt-squeeze RT`: an RT-11 volume whose files are brought to lower blocks
    RtSqueeze {
        rt: &'a str,
    },
    /// `rt-vfy IMAGE`
    RtVfy {
        image: &'a str,
    },
    /// `run [--quiet] IMAGE SCRIPT`: whether nothing is said of lines that aren't done
    Run {
        image: &'a str,
        script: &'a str,
        is_quiet: bool,
    },
    /// `trunc [-n|--stop] IMAGE DIR NAME`: a file in a directory, whose blocks behind the end that it states are given back
    Trunc {
        manner: Manner,
        image: &'a str,
        directory: Directory,
        name: &'a str,
    },
    /// `vfy [--update] IMAGE`
    Vfy {
        image: &'a str,
        update: bool,
    },
}
