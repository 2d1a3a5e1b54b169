//! Retrieval pointers in a lent header.
ghost use Rattle.std.specs.Prelude.{◌≡◌, ◌<◌, ◌≤◌, ◌^◌, ◌++◌, IsOk, IsTrue, OnOk};
ghost use Rattle.std.specs.List.{range_with_len};
ghost use Rattle.f11_header.specs.Fields.{map_area};
ghost use Rattle.f11_header.specs.Header.{IsHeader};
ghost use Rattle.f11_map.specs.MapArea.{IsMapArea, blocks_of};

use f11_bytes::{Block, zeros};
use f11_fixtures::{SYSTEM, file, linked};
use f11_header::{Header, HeaderFault, HeaderMut, blank, check};
use f11_map::{Map, MapFull, MapMut, in_hand};
use f11_store::FileId;
use std::test::Fail;

/// A header of file 6 with these retrieval pointers, an LBN and a count less one each.
fn header_of(pointers: &[(u16, u8)]) -> Block {
    linked(file(6, 1), 0, file(0, 0), pointers)
}

/// Segment number and link, and how many pointers, places left and blocks there are.
type Told = (u8, FileId, usize, usize, u32);

/// What a map says.
fn told(map: &Map<'_>) -> Told {
    (
        map.segment(),
        map.link(),
        map.runs(),
        map.places_left(),
        map.len_blocks(),
    )
}

/// The pointer of this number, where there is one.
fn run_at(map: &Map<'_>, i: usize) -> Option<(u32, u32)> {
    if i < map.runs() {
        Some(map.run(i))
    } else {
        None
    }
}

/// The map of a valid header 6.
fn map_of(block: &Block) -> Result<Map<'_>, HeaderFault> {
    check(block, 6)?;
    Ok(Map::of(&Header::new(block)))
}

/// Whether a map has these pointers, and at these places these blocks.
fn names(map: &Map<'_>, runs: &[(u32, u32)], blocks: &[(u32, Option<u32>)]) -> bool {
    runs.iter()
        .enumerate()
        .all(|(i, run)| run_at(map, i) == Some(*run))
        && blocks.iter().all(|(place, lbn)| map.lbn_of(*place) == *lbn)
}

/// The header that ends a file.
const END: FileId = FileId {
    number: 0,
    sequence: 0,
    volume: 0,
};

#[test]
fn pointers_name_blocks_in_order(rt: HostRuntime) -> Result<(), Fail> {
    let mut block = header_of(&[(22, 255), (278, 43)]);
    block[46] = 7;
    HeaderMut::new(&mut block).seal();
    let map = map_of(&block)?;
    assert_eq!(rt; told(&map), (0, END, 2, 100, 300));
    let blocks = [
        (0, Some(22)),
        (255, Some(277)),
        (256, Some(278)),
        (299, Some(321)),
        (300, None),
    ];
    assert!(rt; names(&map, &[(22, 256), (278, 44)], &blocks));
    // an LBN has its high byte first
    let mut block = header_of(&[(0x3412, 0)]);
    block[102] = 0x56;
    HeaderMut::new(&mut block).seal();
    assert!(rt; names(&map_of(&block)?, &[(0x56_3412, 1)], &[]));
    let empty = header_of(&[]);
    let map = map_of(&empty)?;
    assert_eq!(rt; told(&map), (0, END, 0, 102, 0));
    assert!(rt; names(&map, &[], &[(0, None)]));
    Ok(())
}

/// The map area of an empty header: 102 places, and no pointers.
fn empty_area() -> [u8; 418]
    ensures { IsMapArea result }
{
    let mut block = zeros();
    blank(&mut block, file(6, 1), SYSTEM, 0, 0);
    let mut area = [0; 418];
    area.copy_from_slice(&block[92..510]);
    area
}

/// An area where blocks 22 to 277 and 278 to 321 were appended, and cut to so many, and what its map says.
fn of_two_runs(place: u32) -> Result<([u8; 418], Told, [Option<(u32, u32)>; 2]), MapFull> {
    let mut area = empty_area();
    let mut pointers = MapMut::new(&mut area);
    pointers.append(22, 256)?;
    pointers.append(278, 44)?;
    pointers.cut(place);
    let map = pointers.map();
    let told = told(&map);
    let runs = [run_at(&map, 0), run_at(&map, 1)];
    Ok((area, told, runs))
}

#[test]
fn pointers_are_cut(rt: HostRuntime) -> Result<(), Fail> {
    for (place, runs, blocks, named) in [
        (0, 0, 0, [None, None]),
        (1, 1, 1, [Some((22, 1)), None]),
        (255, 1, 255, [Some((22, 255)), None]),
        (256, 1, 256, [Some((22, 256)), None]),
        (257, 2, 257, [Some((22, 256)), Some((278, 1))]),
        (300, 2, 300, [Some((22, 256)), Some((278, 44))]),
        (301, 2, 300, [Some((22, 256)), Some((278, 44))]),
    ] {
        let (area, told, found) = of_two_runs(place)?;
        let want = (0, END, runs, 102usize.saturating_sub(runs), blocks);
        assert!(rt; told == want && found == named, "place {place}");
        if place == 300 {
            let bytes = [4, 204, 0, 255, 22, 0, 0, 43, 22, 1];
            assert_eq!(rt; &area[8..18], bytes.as_slice());
        }
    }
    Ok(())
}

/// An area where 255 blocks were appended, one that joins them, and one more, and how many pointers it has after two and after all.
fn of_257_blocks() -> Result<([u8; 418], usize, usize), MapFull> {
    let mut area = empty_area();
    let mut pointers = MapMut::new(&mut area);
    pointers.append(0xff_0000, 255)?;
    pointers.append(0xff_00ff, 1)?;
    let joined = pointers.map().runs();
    pointers.append(0xff_0100, 1)?;
    let all = pointers.map().runs();
    Ok((area, joined, all))
}

#[test]
fn a_pointer_names_256_blocks_at_most(rt: HostRuntime) -> Result<(), Fail> {
    let (area, joined, all) = of_257_blocks()?;
    assert_eq!(rt; (joined, all), (1, 2));
    assert_eq!(rt; &area[10..18], [255, 255, 0, 0, 255, 0, 0, 1].as_slice());
    Ok(())
}

/// Adds blocks to those that header 6 names, and then cuts them off again: it stays a valid header 6.
fn append_and_cut(block: &mut Block, lbn: u32, count: u32, place: u32) -> Result<(), MapFull>
    requires header { IsHeader block.old 6 }
    requires lbn { lbn < 2 ^ 24 }
    requires count { (0 < count) × (count ≤ 256) }
    ensures header { IsHeader block.new 6 }
{
    in_hand::append(block, lbn, count)?;
    in_hand::cut(block, place);
    Ok(())
}

/// Adds blocks to those that header 6 names: it is a valid header 6 still, and names them too.
fn append(block: &mut Block, lbn: u32, count: u32) -> Result<(), MapFull>
    requires header { IsHeader block.old 6 }
    requires lbn { lbn < 2 ^ 24 }
    requires count { (0 < count) × (count ≤ 256) }
    ensures header { IsHeader block.new 6 }
    ensures blocks { OnOk result (blocks_of (map_area block.new) ≡ blocks_of (map_area block.old) ++
        range_with_len lbn count) }
{
    in_hand::append(block, lbn, count)
}

/// Fills a header 6 with 102 pointers.
fn full_header() -> Result<Block, Fail> {
    let mut block = header_of(&[]);
    for i in 0..102u32 {
        check(&block, 6)?;
        append(&mut block, 1000 + 2 * i, 1)?;
    }
    Ok(block)
}

/// Appends blocks to a full header, which takes those alone that join.
fn overfill(block: &mut Block) -> Result<[Result<(), MapFull>; 3], HeaderFault> {
    check(block, 6)?;
    let other = append(block, 5, 3);
    let joining = append(block, 1203, 255);
    Ok([other, joining, append_and_cut(block, 5, 3, 0)])
}

/// Cuts a header to 100 blocks, appends to them, cuts it to 101, and links it.
fn cut_and_link(block: &mut Block) -> Result<(), Fail> {
    check(block, 6)?;
    in_hand::cut(block, 100);
    append_and_cut(block, 5, 3, 101)?;
    in_hand::set_link(block, file(7, 1));
    Ok(())
}

#[test]
fn a_full_header_takes_blocks_that_join(rt: HostRuntime) -> Result<(), Fail> {
    let mut block = full_header()?;
    let answers = overfill(&mut block)?;
    assert_eq!(rt; answers, [Err(MapFull), Ok(()), Err(MapFull)]);
    let map = map_of(&block)?;
    assert_eq!(rt; told(&map), (0, END, 102, 0, 357));
    let runs = [(1000, 1), (1002, 1), (1004, 1)];
    assert!(rt; names(&map, &runs, &[(100, Some(1200)), (356, Some(1457))]));
    cut_and_link(&mut block)?;
    let map = map_of(&block)?;
    assert_eq!(rt; told(&map), (0, file(7, 1), 101, 1, 101));
    assert!(rt; names(&map, &runs, &[(100, Some(5))]));
    Ok(())
}

/// Makes a link with a volume in a header 6, whose map area has one already.
fn link_far(block: &mut Block) -> Result<(), HeaderFault> {
    (block[92], block[93]) = (3, 9);
    HeaderMut::new(block).seal();
    check(block, 6)?;
    let id = FileId {
        number: 0x0102,
        sequence: 0x0304,
        volume: 7,
    };
    in_hand::set_link(block, id);
    Ok(())
}

#[test]
fn a_link_names_no_volume(rt: HostRuntime) -> Result<(), Fail> {
    let mut block = header_of(&[(22, 255)]);
    link_far(&mut block)?;
    assert_eq!(rt; &block[92..100], [3, 0, 2, 1, 4, 3, 1, 3].as_slice());
    let map = map_of(&block)?;
    assert_eq!(rt; told(&map), (3, file(0x0102, 0x0304), 1, 101, 256));
    assert!(rt; names(&map, &[(22, 256)], &[]));
    Ok(())
}
