//! Rows of values over the borders of words, read as they were pushed.

use packed_rows::rows::PackedRows;
use std::alloc::Global;
use std::test::*;

#[test]
fn rows_are_read_as_they_were_pushed(rt: HostRuntime) -> Result<(), Fail> {
    let alloc: Global = rt.alloc();
    let mut rows = PackedRows::new(alloc, vec![in alloc; 60, 8, 128, 1]?, 2)?;
    let mut row = [0u128; 4];
    rows.push(&[1, 0xa5, u128::MAX, 0]);
    rows.push(&[0xfff_ffff_ffff_ffff, 0, 1 << 127, 1]);
    assert_eq!(rt; rows.count(), 2);
    rows.read(0, &mut row);
    assert_eq!(rt; row, [1, 0xa5, u128::MAX, 0]);
    rows.read(1, &mut row);
    assert_eq!(rt; row, [0xfff_ffff_ffff_ffff, 0, 1 << 127, 1]);
    rows.clear();
    assert_eq!(rt; rows.count(), 0);
    rows.push(&[7, 6, 5, 1]);
    rows.read(0, &mut row);
    assert_eq!(rt; row, [7, 6, 5, 1]);
    Ok(())
}

#[test]
fn rows_may_have_no_values(rt: HostRuntime) -> Result<(), Fail> {
    let alloc: Global = rt.alloc();
    let mut rows = PackedRows::new(alloc, Vec::new(alloc), 1)?;
    rows.push(&[]);
    rows.read(0, &mut []);
    assert_eq!(rt; rows.count(), 1);
    Ok(())
}

#[test]
fn words_end_within_values_and_between_them(rt: HostRuntime) -> Result<(), Fail> {
    let alloc: Global = rt.alloc();
    let mut rows = PackedRows::new(alloc, vec![in alloc; 64, 1, 63, 33, 64, 0, 32]?, 1)?;
    let mut row = [0u128; 7];
    rows.push(&[
        0x8000_0000_0000_0001,
        1,
        1 << 62,
        1 << 32,
        0xfedc_ba98_7654_3210,
        0,
        5,
    ]);
    rows.read(0, &mut row);
    assert_eq!(rt;
        row,
        [
            0x8000_0000_0000_0001,
            1,
            1 << 62,
            1 << 32,
            0xfedc_ba98_7654_3210,
            0,
            5
        ]
    );
    Ok(())
}
