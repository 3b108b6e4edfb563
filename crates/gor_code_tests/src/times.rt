//! Tests of the code of times, both ways.
use crate::spelled::of_text;
use gor_bits::Bits;
use gor_model::Unit;
use gor_times::{TimeFault, TimeState, read_code, write_code};
use std::alloc::{AllocError, Global};
use std::test::Fail;

// The change, and its code.
const CODES: [(i64, &str); 17] = [
    (0, "0"),
    (64, "10 1111111"),
    (65, "110 101000000"),
    (-63, "10 0000000"),
    (-64, "110 010111111"),
    (256, "110 111111111"),
    (257, "1110 100100000000"),
    (-255, "110 000000000"),
    (-256, "1110 011011111111"),
    (2048, "1110 111111111111"),
    (2049, "1111 00000000000000000000100000000001"),
    (-2047, "1110 000000000000"),
    (-2048, "1111 11111111111111111111100000000000"),
    (0x7fff_ffff, "1111 01111111111111111111111111111111"),
    (-0x8000_0000, "1111 10000000000000000000000000000000"),
    (-2, "10 0111101"),
    (1, "10 1000000"),
];

/// Whether a change is written as these bits, and read from them.
fn is_spelled(bits: &mut Bits, d: i64, want: &Bits) -> Result<bool, AllocError> {
    if d < -0x8000_0000 || d > 0x7fff_ffff {
        return Ok(false);
    }
    bits.reserve(36)?;
    write_code(bits, d);
    Ok(bits.as_bytes() == want.as_bytes() && read_code(want, 0) == Ok((d, want.len())))
}

/// The same of the bits that a text names.
fn has_code(alloc: Global, d: i64, text: &str) -> Result<bool, AllocError> {
    let want = of_text(alloc, text)?;
    let mut bits = Bits::new(alloc);
    is_spelled(&mut bits, d, &want)
}

#[test]
fn spells_each_change(rt: HostRuntime) -> Result<(), Fail> {
    for (d, text) in CODES {
        assert!(rt; has_code(rt.alloc(), d, text)?, "{d}");
    }
    Ok(())
}

// Bits that are no code, and why.
const REFUSED: [(&str, TimeFault); 11] = [
    ("", TimeFault::Short { at: 0 }),
    ("1", TimeFault::Short { at: 0 }),
    ("111", TimeFault::Short { at: 0 }),
    ("10 011111", TimeFault::Short { at: 0 }),
    (
        "1111 0000000000000000000010000000000",
        TimeFault::Short { at: 0 },
    ),
    ("10 0111111", TimeFault::Spelling { at: 0 }),
    ("110 100111111", TimeFault::Spelling { at: 0 }),
    ("110 011000000", TimeFault::Spelling { at: 0 }),
    ("1110 100011111111", TimeFault::Spelling { at: 0 }),
    (
        "1111 00000000000000000000100000000000",
        TimeFault::Spelling { at: 0 },
    ),
    (
        "1111 11111111111111111111100000000001",
        TimeFault::Spelling { at: 0 },
    ),
];

fn is_refused(alloc: Global, text: &str, want: TimeFault) -> Result<bool, AllocError> {
    let bits = of_text(alloc, text)?;
    Ok(read_code(&bits, 0) == Err(want))
}

#[test]
fn refuses_what_is_no_code(rt: HostRuntime) -> Result<(), Fail> {
    for (text, want) in REFUSED {
        assert!(rt; is_refused(rt.alloc(), text, want)?, "{text}");
    }
    Ok(())
}

// The first and the last time of a window stand as 0 and as the window's length less one, and no more.
const FIRST: [(Unit, &str, Result<u64, TimeFault>); 5] = [
    (Unit::Second, "00000000000000", Ok(1427162400)),
    (Unit::Second, "01110000011111", Ok(1427169599)),
    (Unit::Milli, "000000000000000000000000", Ok(1427162400000)),
    (Unit::Milli, "011011011101110011111111", Ok(1427169599999)),
    (
        Unit::Second,
        "01110000100000",
        Err(TimeFault::Order { at: 0 }),
    ),
];

/// Whether the first time of the window, or why there is none, is read from just these bits.
fn has_first(
    alloc: Global,
    unit: Unit,
    text: &str,
    want: Result<u64, TimeFault>,
) -> Result<bool, AllocError> {
    let bits = of_text(alloc, text)?;
    Ok(match TimeState::new(unit, 198217).read(&bits, 0) {
        Ok((time, next, _)) => want == Ok(time) && next == bits.len(),
        Err(fault) => want == Err(fault),
    })
}

/// Writes the first time of a block.
fn write_first(bits: &mut Bits) -> Result<(), AllocError> {
    bits.reserve(36)?;
    TimeState::new(Unit::Second, 198217).write(bits, 1427162462);
    Ok(())
}

#[test]
fn places_a_first_time(rt: HostRuntime) -> Result<(), Fail> {
    for (unit, text, want) in FIRST {
        assert!(rt; has_first(rt.alloc(), unit, text, want)?, "{text}");
    }
    let mut bits = Bits::new(rt.alloc());
    write_first(&mut bits)?;
    assert!(rt; bits.get(0, 14) == Some(62));
    Ok(())
}
