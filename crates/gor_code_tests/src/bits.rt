//! Tests of bits.
use gor_bits::Bits;
use std::alloc::{AllocError, Global};
use std::test::Fail;

// Three points of a block: the number that so many bits at a place spell.
const NUMBERS: [(usize, u32, Option<u64>); 4] = [
    (14, 64, Some(0x4028_0000_0000_0000)),
    (78, 2, Some(0b10)),
    (89, 14, Some(0b11_01011_000001_1)),
    (90, 14, None),
];

/// Writes three points of a block one by one.
fn write_block(bits: &mut Bits) -> Result<(), AllocError> {
    bits.push(14, 62)?;
    bits.push(64, 0x4028_0000_0000_0000)?;
    bits.push(9, 0b10_0111101)?;
    bits.reserve(16)?;
    bits.push_reserved(1, 0);
    bits.push_reserved(1, 0);
    bits.push_reserved(14, 0b11_01011_000001_1);
    Ok(())
}

fn spells(bits: &Bits, at: usize, count: u32, want: Option<u64>) -> bool {
    1 <= count && count <= 64 && bits.get(at, count) == want
}

/// Whether a copy of the bits is held by these bytes.
fn copies_to(bits: &Bits, want: &[u8]) -> Result<bool, AllocError> {
    let bytes = bits.copy()?.into_bytes();
    Ok(bytes.as_slice() == want)
}

#[test]
fn holds_a_block(rt: HostRuntime) -> Result<(), Fail> {
    let mut bits = Bits::new(rt.alloc());
    write_block(&mut bits)?;
    assert!(rt; bits.len() == 103);
    for (at, count, want) in NUMBERS {
        assert!(rt; spells(&bits, at, count, want), "{count} bits at {at}");
    }
    let want = [
        0x00, 0xf9, 0x00, 0xa0, 0, 0, 0, 0, 0, 0x02, 0x7a, 0x6b, 0x06,
    ];
    assert!(rt; copies_to(&bits, &want)?);
    Ok(())
}

/// Overwrites four bits.
fn overwrites(bits: &mut Bits) -> bool {
    if bits.len() != 16 {
        return false;
    }
    bits.overwrite(6, 4, 0b1011);
    bits.as_bytes() == [0xf2, 0xfc].as_slice() && bits.len() == 16
}

/// Keeps seven bits.
fn truncates(bits: &mut Bits) -> bool {
    if bits.len() != 16 {
        return false;
    }
    bits.truncate(7);
    bits.as_bytes() == [0xf2].as_slice() && !bits.is_empty()
}

#[test]
fn changes_its_bits(rt: HostRuntime) -> Result<(), Fail> {
    let bytes = [0xf0, 0x3c].to_vec(rt.alloc())?;
    assert!(rt; bytes.len() == 2);
    let mut bits = Bits::of_bytes(bytes);
    assert!(rt; overwrites(&mut bits));
    assert!(rt; truncates(&mut bits));
    Ok(())
}
