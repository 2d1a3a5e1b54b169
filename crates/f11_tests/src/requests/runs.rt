//! A file that is laid out in one run, on a device that stops behind each transfer.
use crate::requests::asks::{Ask, Row, first_wrong, mounted};
use f11_dev::{Fuse, Memory};
use f11_fcp::Failed;
use f11_fixtures::{
    SEVENS, SYSTEM, ZEROS, are_found, file, get, has_words, keep, linked, put_words, volumes,
};
use f11_header::HeaderMut;
use f11_store::{Mode, Reply};
use f11_vfy::{Report, verify};
use std::alloc::Global;
use std::test::Fail;

/// A file of header 6 and no block is accessed.
const ACCESSED: [Row; 1] = [(
    0,
    SYSTEM,
    Ask::Access((6, 1), Mode::Write, 0),
    Ok(Reply::Done),
)];

/// It gets blocks 22 to 321.
const LAID_OUT: [Row; 1] = [(0, SYSTEM, Ask::Contiguous(0, 300), Ok(Reply::Length(300)))];

/// What a stop leaves from so many transfers of the request on, up to those of the next.
struct Left {
    from: u64,
    /// So many blocks from 22 on are zeros then, and one more with each further transfer, up to so many.
    zeros: (u32, u32),
    /// All that is noted.
    notes: &'static [(u8, u32, u32)],
    /// UC.CON, the link's file number, and the words of pointers in use, in the file's header.
    words: [(usize, u16); 3],
}

/// The file is in no directory.
const NOTED: &[(u8, u32, u32)] = &[(6, 6, 0)];

/// The header is read for the right, and again to be changed; the bitmap block, which is kept, is written; then the zeros; the header, which has
/// places for all pointers; and it again, with the mark.
const ONE_HEADER: [Left; 4] = [
    Left {
        from: 0,
        zeros: (0, 0),
        notes: NOTED,
        words: [(12, 0), (94, 0), (100, 0xcc00)],
    },
    Left {
        from: 3,
        zeros: (0, 300),
        notes: &[(1, 22, 321), (6, 6, 0)],
        words: [(12, 0), (94, 0), (100, 0xcc00)],
    },
    Left {
        from: 304,
        zeros: (300, 300),
        notes: NOTED,
        words: [(12, 0), (94, 0), (100, 0xcc04)],
    },
    Left {
        from: 305,
        zeros: (300, 300),
        notes: NOTED,
        words: [(12, 0o200), (94, 0), (100, 0xcc04)],
    },
];

/// The header has a place for one pointer. It names 256 blocks, once they are zeros; and once the others are, header 7 is read, written and
/// taken, and then the first one links to it.
const TWO_HEADERS: [Left; 6] = [
    Left {
        from: 0,
        zeros: (0, 0),
        notes: NOTED,
        words: [(12, 0), (94, 0), (100, 0x0200)],
    },
    Left {
        from: 3,
        zeros: (0, 256),
        notes: &[(1, 22, 321), (6, 6, 0)],
        words: [(12, 0), (94, 0), (100, 0x0200)],
    },
    Left {
        from: 260,
        zeros: (256, 300),
        notes: &[(1, 278, 321), (6, 6, 0)],
        words: [(12, 0), (94, 0), (100, 0x0202)],
    },
    Left {
        from: 307,
        zeros: (300, 300),
        notes: &[(3, 7, 0), (6, 6, 0)],
        words: [(12, 0), (94, 0), (100, 0x0202)],
    },
    Left {
        from: 308,
        zeros: (300, 300),
        notes: NOTED,
        words: [(12, 0), (94, 7), (100, 0x0202)],
    },
    Left {
        from: 310,
        zeros: (300, 300),
        notes: NOTED,
        words: [(12, 0o200), (94, 7), (100, 0x0202)],
    },
];

/// A volume of 400 blocks whose free ones, from 22 on, hold sevens. Its file 6 has no block, and so many words for pointers (M.MAX).
fn emptied(alloc: Global, words: u8) -> Result<Memory, Fail> {
    let mut device = volumes::fresh(alloc, 400)?;
    for lbn in 22..400 {
        keep(&mut device, lbn, &SEVENS)?;
    }
    let mut header = linked(file(6, 1), 0, file(0, 0), &[]);
    header[101] = words;
    HeaderMut::new(&mut header).seal();
    keep(&mut device, 8, &header)?;
    put_words(&mut device, 2, &[(0, 0x3f)])?;
    Ok(device)
}

/// How many transfers the volume has made when the file is accessed.
fn begun(alloc: Global, words: u8) -> Result<u64, Fail> {
    let device = emptied(alloc, words)?;
    let made = device.transfers();
    let mut volume = mounted(alloc, device)?;
    if first_wrong(&mut volume, &ACCESSED).is_some() {
        return Err("no access")?;
    }
    Ok(volume.lent().transfers().saturating_sub(made))
}

/// The device where the volume stops behind so many transfers, and whether the file was laid out first.
fn stopped(alloc: Global, words: u8, transfers: u64) -> Result<(Memory, bool), Fail> {
    let device = Fuse::new(emptied(alloc, words)?, transfers);
    let mut volume = mounted(alloc, device)?;
    let is_begun = first_wrong(&mut volume, &ACCESSED).is_none();
    let is_served = first_wrong(&mut volume, &LAID_OUT).is_none();
    match volume.dismount() {
        Ok(accepted) => Ok((accepted.device().into_inner(), is_begun && is_served)),
        Err(Failed(device)) => Ok((device.into_inner(), false)),
    }
}

/// Whether so many blocks from 22 on are zeros, and those behind them as they were.
fn are_zeros(device: &mut Memory, count: u32) -> Result<bool, Fail> {
    for lbn in 22..400 {
        let want = if lbn < count.saturating_add(22) {
            ZEROS
        } else {
            SEVENS
        };
        if get(device, lbn)? != want {
            return Ok(false);
        }
    }
    Ok(true)
}

impl Left {
    /// Whether it is this that a stop left behind so many transfers of the request, and the volume is accepted.
    fn is_on(&self, alloc: Global, mut device: Memory, transfers: u64) -> Result<bool, Fail> {
        let (first, last) = self.zeros;
        let more = transfers.saturating_sub(self.from).min(400) as u32;
        let is_zeroed = are_zeros(&mut device, first.saturating_add(more).min(last))?;
        if !is_zeroed || !has_words(&mut device, 8, &self.words)? {
            return Ok(false);
        }
        let Ok(Report::Accepted(_accepted, notes)) = verify(alloc, device) else {
            return Ok(false);
        };
        Ok(are_found(&notes, self.notes))
    }
}

/// Which row of the table says what a stop leaves behind so many transfers: the last that begins no later.
fn row_for(table: &[Left], transfers: u64) -> usize {
    let mut row = 0;
    for i in 0..table.len() {
        if table[i].from <= transfers {
            row = i;
        }
    }
    row
}

/// The first number of transfers of the request behind which a stop leaves something else; and that of the first run that isn't stopped.
fn first_wrong_stop(
    alloc: Global,
    words: u8,
    table: &[Left],
) -> Result<(Option<u64>, Option<u64>), Fail> {
    let begun = begun(alloc, words)?;
    for transfers in 0..400 {
        let (device, is_served) = stopped(alloc, words, begun.saturating_add(transfers))?;
        let is_right = match table.get(row_for(table, transfers)) {
            Some(left) => left.is_on(alloc, device, transfers)?,
            None => false,
        };
        if !is_right {
            return Ok((Some(transfers), None));
        }
        if is_served {
            return Ok((None, Some(transfers)));
        }
    }
    Ok((None, None))
}

#[test]
fn a_run_is_stopped_behind_each_transfer(rt: HostRuntime) -> Result<(), Fail> {
    let one = first_wrong_stop(rt.alloc(), 204, &ONE_HEADER)?;
    assert_eq!(rt; one, (None, Some(305)));
    let two = first_wrong_stop(rt.alloc(), 2, &TWO_HEADERS)?;
    assert_eq!(rt; two, (None, Some(310)));
    Ok(())
}
