//! File headers over a lent block.
ghost use Rattle.std.specs.Prelude.{◌≡◌, ◌≢◌};
ghost use Rattle.f11_header.specs.Header.{IsHeader, header_in, header_with};

use f11_bytes::{Block, read_word};
use f11_fixtures::{SYSTEM, ZEROS, blank_of, directory_header, file};
use f11_header::{Header, HeaderFault, HeaderMut, blank, check, kill};
use f11_store::{FileId, Uic};
use std::test::Fail;

/// Identification, owner, protection, characteristics, and segment.
type Told = (FileId, Uic, u16, u16, u8);

/// What a valid header of this number says.
#[tactic(auto, using(f11_header::proofs::HeaderFacts::map_within))]
fn told(block: &Block, n: u16) -> Result<Told, HeaderFault> {
    check(block, n)?;
    let header = Header::new(block);
    Ok((
        header.id(),
        header.owner(),
        header.protection(),
        header.characteristics(),
        header.segment(),
    ))
}

/// What stands at a place of the attributes, the ident area and the map area of a valid first header.
#[tactic(auto, using(f11_header::proofs::HeaderFacts::map_within))]
fn bytes_at(block: &Block, n: u16, at: usize) -> Result<[Option<u8>; 3], HeaderFault> {
    check(block, n)?;
    if block[0] != 23 || block[1] != 46 || block[92] != 0 {
        return Err(HeaderFault::Bad);
    }
    let header = Header::new(block);
    Ok([
        header.attributes().get(at).copied(),
        header.ident().get(at).copied(),
        header.map().get(at).copied(),
    ])
}

#[test]
fn fields_are_read(rt: HostRuntime) -> Result<(), Fail> {
    let block = directory_header();
    assert_eq!(rt; read_word(&block, 510), 31411);
    assert_eq!(rt; told(&block, 4)?, (file(4, 4), SYSTEM, 0o160000, 0, 0));
    for (at, bytes) in [
        (0, [Some(1), Some(78), Some(0)]),
        (6, [Some(1), Some(122), Some(1)]),
        (7, [Some(0), Some(26), Some(3)]),
        (8, [Some(0), Some(1), Some(2)]),
        (9, [Some(0), Some(0), Some(204)]),
        (12, [Some(80), Some(0), Some(21)]),
        (31, [Some(0), Some(0), Some(0)]),
        (32, [None, Some(0), Some(0)]),
        (45, [None, Some(0), Some(0)]),
        (46, [None, None, Some(0)]),
        (417, [None, None, Some(0)]),
        (418, [None, None, None]),
    ] {
        assert_eq!(rt; bytes_at(&block, 4, at)?, bytes, "at {at}");
    }
    Ok(())
}

/// Puts bytes at their places in an area, those that it has a place for.
fn put(area: &mut [u8], bytes: &[(usize, u8)]) {
    for (at, byte) in bytes {
        if let Some(place) = area.get_mut(*at) {
            *place = *byte;
        }
    }
}

/// Writes into the areas of a first header.
fn write_areas(block: &mut Block) -> Result<(), HeaderFault> {
    if block[0] != 23 || block[1] != 46 || block[92] != 0 {
        return Err(HeaderFault::Bad);
    }
    let mut header = HeaderMut::new(block);
    put(header.ident_mut(), &[(8, 2), (45, 7)]);
    put(header.map_mut(), &[(12, 30), (417, 9)]);
    Ok(())
}

#[test]
fn areas_are_lent_to_be_written(rt: HostRuntime) -> Result<(), Fail> {
    let mut block = directory_header();
    let mut want = block;
    (want[54], want[91], want[104], want[509]) = (2, 7, 30, 9);
    write_areas(&mut block)?;
    assert!(rt; block == want);
    Ok(())
}

/// The user of a file whose fields are written.
const USER: Uic = Uic {
    group: 0o200,
    member: 7,
};

#[test]
fn fields_are_written(rt: HostRuntime) -> Result<(), Fail> {
    let mut block = directory_header();
    let mut header = HeaderMut::new(&mut block);
    header.set_id(file(9, 513));
    header.set_owner(USER);
    header.set_protection(0o360);
    header.set_characteristics(0o100200);
    header.seal();
    assert_eq!(rt; told(&block, 9)?, (file(9, 513), USER, 0o360, 0o100200, 0));
    let bytes = [9, 0, 1, 2, 1, 1, 7, 0o200, 0o360, 0, 0o200, 0o200];
    assert_eq!(rt; &block[2..14], bytes.as_slice());
    Ok(())
}

/// Sets the protection of header `n`, which stays a valid header `n` and says all else as before.
fn protect(block: &mut Block, n: u16, protection: u16)
    requires { IsHeader block.old n }
    ensures header { IsHeader block.new n }
    ensures fields { header_in block.new
        ≡ header_with (λ h. record h { protection = protection }) block.old }
{
    let mut header = HeaderMut::new(block);
    header.set_protection(protection);
    header.seal();
}

/// Makes a block the first header of a new file with these attributes and this ident area.
fn make(block: &mut Block, id: FileId, attr: &[u8; 32], ident: &[u8; 46])
    requires number { id.number ≢ 0 }
    requires sequence { id.sequence ≢ 0 }
    ensures { IsHeader block.new id.number }
{
    blank(block, id, SYSTEM, 0, 0);
    let mut header = HeaderMut::new(block);
    header.set_ident(ident);
    header.set_attributes(attr);
    header.seal();
}

#[test]
fn headers_stay_valid(rt: HostRuntime) -> Result<(), Fail> {
    let mut block = ZEROS;
    let id = FileId {
        number: 6,
        sequence: 2,
        volume: 0,
    };
    make(&mut block, id, &[1; 32], &[2; 46]);
    protect(&mut block, 6, 0o360);
    assert_eq!(rt; told(&block, 6)?, (file(6, 2), SYSTEM, 0o360, 0, 0));
    assert_eq!(rt; bytes_at(&block, 6, 31)?, [Some(1), Some(2), Some(0)]);
    Ok(())
}

/// What `check` says of a header with these bytes in place of its own, once it is sealed, and of one whose check word is wrong.
fn checked(header: &Block, bytes: &[(usize, u8)], n: u16) -> [Result<(), HeaderFault>; 2] {
    let mut block = *header;
    put(&mut block, bytes);
    HeaderMut::new(&mut block).seal();
    let sealed = check(&block, n);
    block[510] ^= 1;
    [sealed, check(&block, n)]
}

const GOOD: Result<(), HeaderFault> = Ok(());

const BAD: Result<(), HeaderFault> = Err(HeaderFault::Bad);

/// Bytes that are changed in header 4, and what `check` says of it.
const CONDITIONS: [([(usize, u8); 2], Result<(), HeaderFault>); 18] = [
    ([(2, 5), (14, 1)], BAD),
    ([(4, 0), (14, 1)], BAD),
    ([(6, 2), (14, 1)], BAD),
    ([(7, 0), (14, 1)], BAD),
    ([(14, 7), (15, 7)], GOOD),
    ([(0, 22), (14, 1)], BAD),
    ([(0, 24), (14, 1)], BAD),
    ([(1, 45), (14, 1)], BAD),
    ([(98, 2), (14, 1)], BAD),
    ([(99, 4), (14, 1)], BAD),
    ([(100, 3), (14, 1)], BAD),
    ([(100, 204), (14, 1)], GOOD),
    ([(100, 206), (14, 1)], BAD),
    ([(101, 1), (14, 1)], BAD),
    ([(101, 2), (14, 1)], GOOD),
    ([(101, 3), (100, 4)], BAD),
    ([(101, 255), (100, 204)], GOOD),
    ([(101, 255), (100, 206)], BAD),
];

#[test]
fn each_condition_is_tested(rt: HostRuntime) {
    let header = directory_header();
    for (bytes, outcome) in CONDITIONS {
        let found = checked(&header, &bytes, 4);
        assert_eq!(rt; found, [outcome, BAD], "{bytes:?}");
    }
    assert_eq!(rt; [check(&header, 3), check(&header, 5)], [BAD, BAD]);
}

#[test]
fn the_map_area_stands_behind_the_ident_area(rt: HostRuntime) {
    let empty = blank_of(file(7, 2), 0, 0);
    let extension = blank_of(file(7, 2), 0, 1);
    for (header, bytes, outcome) in [
        (empty, [(1, 250), (506, 1), (507, 3)], GOOD),
        (empty, [(1, 251), (508, 1), (509, 3)], BAD),
        (empty, [(1, 45), (96, 1), (97, 3)], BAD),
        (extension, [(0, 22), (98, 1), (99, 3)], BAD),
        (extension, [(0, 23), (98, 1), (99, 3)], GOOD),
        (extension, [(0, 46), (98, 1), (99, 3)], GOOD),
        (extension, [(0, 47), (98, 1), (99, 3)], BAD),
    ] {
        let found = checked(&header, &bytes, 7);
        assert_eq!(rt; found, [outcome, BAD], "{bytes:?}");
    }
}

#[test]
fn a_dead_header_keeps_its_sequence(rt: HostRuntime) {
    let mut block = directory_header();
    kill(&mut block);
    let dead = Err(HeaderFault::Dead);
    let found = [check(&block, 4), check(&block, 0), check(&ZEROS, 1)];
    assert_eq!(rt; found, [dead, dead, dead]);
    assert_eq!(rt; (read_word(&block, 4), read_word(&block, 510)), (4, 0));
}
