//! Bit vectors, texts and rows at fixed values.

use dt_core::bits::Bits;
use dt_core::row::Row;
use dt_core::text::Text;
use std::alloc::Global;
use std::process::Abort;
use std::test::Fail;

#[test]
fn bits_have_their_bounds(rt: HostRuntime) -> Result<(), Fail> {
    for (width, value, is_there) in [
        (4, 15, true),
        (4, 16, false),
        (0, 0, false),
        (129, 0, false),
        (128, u128::MAX, true),
    ] {
        assert_eq!(rt;
            Bits::new(width, value).is_some(),
            is_there,
            "{width} {value}"
        );
    }
    Ok(())
}

#[test]
fn text_takes_a_byte(rt: HostRuntime) -> Result<(), Fail> {
    let mut text = Text::new(rt.alloc())?;
    text.push(b'a')?;
    assert_eq!(rt; text.bytes(), b"a".as_slice());
    Ok(())
}

#[test]
fn rows_give_their_values(rt: HostRuntime) -> Result<(), Fail> {
    let mixed = [
        (1, 1),
        (128, u128::MAX - 6),
        (3, 5),
        (64, 1 << 63),
        (7, 100),
    ];
    gives_its_values(&rt, rt.alloc(), &[(4, 9)])?;
    gives_its_values(&rt, rt.alloc(), &mixed)
}

// A row of these widths and values gives each back, and so it does when the lowest bit of each has been turned.
fn gives_its_values(rt: &impl Abort, alloc: Global, pairs: &[(u32, u128)]) -> Result<(), Fail> {
    let mut values = Vec::new(alloc);
    for (width, value) in pairs {
        let Ok(()) = values.push(Bits::new(*width, *value).ok_or("bits")?) else {
            return Err("memory".into());
        };
    }
    let mut row = Row::new(alloc, values)?;
    assert_eq!(rt; row.len(), pairs.len());
    assert_eq!(rt; row.value(u32::try_from(pairs.len())?), None);
    for (k, (width, value)) in (0..u32::MAX).zip(pairs) {
        assert_eq!(rt; row.value(k), Bits::new(*width, *value));
        turn(&mut row, k)?;
    }
    for (k, (width, value)) in (0..u32::MAX).zip(pairs) {
        assert_eq!(rt; row.value(k), Bits::new(*width, *value ^ 1));
    }
    Ok(())
}

// Turns the lowest bit of the value in place k.
fn turn(row: &mut Row, k: u32) -> Result<(), Fail> {
    let old = row.value(k).ok_or("value")?;
    let new = Bits::new(old.width(), old.value() ^ 1).ok_or("bits")?;
    row.set(k, new);
    Ok(())
}
