//! The index file.
use f11_bytes::NoMemory;
use f11_dev::Memory;
use f11_fixtures::index::{header_lbn, load};
use f11_fixtures::volumes::small_index_file;
use f11_index::{IndexFault, IndexFile};
use std::alloc::Global;
use std::test::Fail;

/// Loads the index file, once more where there was no memory.
fn loaded(alloc: Global, device: &mut Memory) -> Result<IndexFile, IndexFault> {
    match load(alloc, device) {
        Err(IndexFault::NoMemory) => load(alloc, device),
        answer => answer,
    }
}

#[test]
fn an_index_file_is_loaded(rt: HostRuntime) -> Result<(), Fail> {
    let mut device = small_index_file(rt.alloc(), 0x003f)?;
    let index = loaded(rt.alloc(), &mut device)?;
    assert_eq!(rt; (index.slots(), index.free_headers()), (16, 10));
    assert_eq!(rt; (index.in_use(6), index.in_use(7)), (true, false));
    assert_eq!(rt; header_lbn(&index, 16), Some(18));
    Ok(())
}

#[test]
fn an_index_file_grows(rt: HostRuntime) -> Result<(), Fail> {
    let mut device = small_index_file(rt.alloc(), 0xffff)?;
    let mut index = loaded(rt.alloc(), &mut device)?;
    if index.reserve(1000) == Err(NoMemory) {
        assert_eq!(rt; (index.slots(), index.least_free()), (16, None));
        assert_eq!(rt; header_lbn(&index, 16), Some(18));
        index.reserve(1000)?;
    }
    index.grow(40, 1000);
    assert_eq!(rt; (index.slots(), index.free_headers()), (1016, 1000));
    assert_eq!(rt; header_lbn(&index, 1016), Some(1039));
    Ok(())
}
