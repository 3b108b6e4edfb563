//! Tests of the code of words, both ways.
use crate::spelled::of_text;
use gor_bits::Bits;
use gor_values::{ValueFault, ValueState};
use std::alloc::{AllocError, Global};
use std::test::Fail;

// The words of a block, and their bits.
const WORDS: [(&[u64], &str); 5] = [
    (
        &[
            0x4028000000000000,
            0x4028000000000000,
            0x4038000000000000,
            0x4028000000000000,
        ],
        "0100000000101000000000000000000000000000000000000000000000000000 0 11 01011 000001 1 10 1",
    ),
    (
        &[0x0000000000000000, 0x0000000000ff0000],
        "0000000000000000000000000000000000000000000000000000000000000000 11 11111 010001 00000000011111111",
    ),
    (
        &[0x0000000000000000, 0x8000000000000001],
        "0000000000000000000000000000000000000000000000000000000000000000 11 00000 000000 1000000000000000000000000000000000000000000000000000000000000001",
    ),
    (
        &[0xffffffffffffffff, 0x7ff8000000000001],
        "1111111111111111111111111111111111111111111111111111111111111111 11 00000 111111 100000000000011111111111111111111111111111111111111111111111111",
    ),
    (
        &[0x3ff0000000000000, 0xbff0000000000000, 0x3ff0000000000000],
        "0011111111110000000000000000000000000000000000000000000000000000 11 00000 000001 1 10 1",
    ),
];

/// Writes the next word of a block.
fn write(bits: &mut Bits, state: &mut ValueState, word: u64) -> Result<(), AllocError> {
    bits.reserve(77)?;
    state.write(bits, word);
    Ok(())
}

/// Whether the words of a block are read from just these bits.
fn are_read(bits: &Bits, words: &[u64]) -> bool {
    let mut state = ValueState::new();
    let mut at = 0;
    for word in words {
        let Ok((read, next, after)) = state.read(bits, at) else {
            return false;
        };
        if read != *word {
            return false;
        }
        at = next;
        state = after;
    }
    at == bits.len()
}

/// Whether the words of a block have the bits that a text names, both ways.
fn have_bits(alloc: Global, words: &[u64], text: &str) -> Result<bool, AllocError> {
    let want = of_text(alloc, text)?;
    let mut bits = Bits::new(alloc);
    let mut state = ValueState::new();
    for word in words {
        write(&mut bits, &mut state, *word)?;
    }
    Ok(bits.as_bytes() == want.as_bytes() && are_read(&want, words))
}

#[test]
fn spells_words(rt: HostRuntime) -> Result<(), Fail> {
    for (words, text) in WORDS {
        assert!(rt; have_bits(rt.alloc(), words, text)?, "{text}");
    }
    Ok(())
}

// Codes behind the one word 0, so without a value window.
const REFUSED: [(&str, ValueFault); 11] = [
    ("", ValueFault::Short { at: 0 }),
    ("1", ValueFault::Short { at: 0 }),
    ("11 00000 00000", ValueFault::Short { at: 0 }),
    ("11 00000 000001", ValueFault::Short { at: 0 }),
    ("11 11111 100010 1", ValueFault::Short { at: 0 }),
    ("10", ValueFault::Spelling { at: 0 }),
    ("10 1", ValueFault::Spelling { at: 0 }),
    (
        "11 11111 100010 1000000000000000000000000000000001",
        ValueFault::Spelling { at: 0 },
    ),
    ("11 00000 000001 0", ValueFault::Spelling { at: 0 }),
    ("11 00000 000010 10", ValueFault::Spelling { at: 0 }),
    (
        "11 11110 010010 000000000011111111",
        ValueFault::Spelling { at: 0 },
    ),
];

// Codes under the window of the one bit behind 11.
const REFUSED_BEHIND: [(&str, ValueFault); 3] = [
    ("10", ValueFault::Short { at: 0 }),
    ("10 0", ValueFault::Spelling { at: 0 }),
    ("11 01011 000001 1", ValueFault::Spelling { at: 0 }),
];

fn is_refused(
    alloc: Global,
    state: &ValueState,
    text: &str,
    want: ValueFault,
) -> Result<bool, AllocError> {
    let bits = of_text(alloc, text)?;
    Ok(match state.read(&bits, 0) {
        Ok(_) => false,
        Err(fault) => fault == want,
    })
}

#[test]
fn refuses_what_is_no_code(rt: HostRuntime) -> Result<(), Fail> {
    let alloc = rt.alloc();
    let mut bits = Bits::new(alloc);
    let mut state = ValueState::new();
    write(&mut bits, &mut state, 0)?;
    for (text, want) in REFUSED {
        assert!(rt; is_refused(alloc, &state, text, want)?, "{text}");
    }
    write(&mut bits, &mut state, 0x0010_0000_0000_0000)?;
    for (text, want) in REFUSED_BEHIND {
        assert!(rt; is_refused(alloc, &state, text, want)?, "behind 11: {text}");
    }
    Ok(())
}
