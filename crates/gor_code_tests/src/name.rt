//! Tests of names, their keys and their shards.
use gor_name::{Name, NameFault};
use std::alloc::{AllocError, Global};
use std::test::Fail;

// A spelling, and its key.
const KEYS: [(&str, &str); 7] = [
    ("CPU", "cpu"),
    ("cpu", "cpu"),
    ("Cpu", "cpu"),
    ("Straße", "strasse"),
    ("STRASSE", "strasse"),
    ("ΣΊΣΥΦΟΣ", "σίσυφοσ"),
    ("№1/ж-Ж", "№1/ж-ж"),
];

fn is_spelled(name: &Name, text: &str, key: &str) -> bool {
    name.text() == text && name.key() == key.as_bytes()
}

/// Whether a text is a name with this key, and so is its copy.
fn has_key(alloc: Global, text: &str, key: &str) -> Result<bool, NameFault> {
    let name = Name::read(alloc, text)?;
    Ok(is_spelled(&name, text, key) && is_spelled(&name.copy()?, text, key))
}

#[test]
fn a_key_ignores_case(rt: HostRuntime) -> Result<(), Fail> {
    for (text, key) in KEYS {
        assert!(rt; has_key(rt.alloc(), text, key)?, "{text}");
    }
    Ok(())
}

// A text, and why it is no name.
const REFUSED: [(&str, NameFault); 8] = [
    ("", NameFault::Empty),
    (" cpu", NameFault::Control { at: 0 }),
    ("c\u{1f}pu", NameFault::Control { at: 1 }),
    ("cpu\u{1f}", NameFault::Control { at: 3 }),
    ("\u{7f}cpu", NameFault::Control { at: 0 }),
    ("c\u{7f}pu", NameFault::Control { at: 1 }),
    ("cpu\u{7f}", NameFault::Control { at: 3 }),
    ("ж\tж ", NameFault::Control { at: 2 }),
];

/// Whether a text is no name for this reason.
fn is_refused(alloc: Global, text: &str, want: NameFault) -> bool {
    match Name::read(alloc, text) {
        Ok(_) => false,
        Err(fault) => fault == want,
    }
}

#[test]
fn other_texts_are_refused(rt: HostRuntime) {
    for (text, fault) in REFUSED {
        assert!(rt; is_refused(rt.alloc(), text, fault), "at {text}");
    }
}

/// Adds 252 bytes.
fn push_long(text: &mut String) -> Result<(), AllocError> {
    for _ in 0..63u32 {
        text.push_str("жß")?;
    }
    Ok(())
}

/// Adds a text, and says how many bytes the name of all has.
fn read_longer(alloc: Global, text: &mut String, more: &str) -> Result<usize, NameFault> {
    text.push_str(more)?;
    let name = Name::read(alloc, text)?;
    Ok(name.text().len())
}

// What is added behind 252 bytes, each behind the one before it, and the count of bytes of the name.
const LONG: [(&str, Result<usize, NameFault>); 3] = [
    ("abc", Ok(255)),
    ("d", Err(NameFault::Long { bytes: 256 })),
    (" ", Err(NameFault::Long { bytes: 257 })),
];

#[test]
fn a_name_has_at_most_255_bytes(rt: HostRuntime) -> Result<(), Fail> {
    let mut text = String::new(rt.alloc());
    push_long(&mut text)?;
    for (more, want) in LONG {
        assert!(rt;
            read_longer(rt.alloc(), &mut text, more) == want,
            "{want:?}"
        );
    }
    Ok(())
}

// A name, a count of shards, and the shard.
const SHARDS: [(&str, u32, u32); 4] = [("a", 4, 0), ("A", 4, 0), ("b", 4, 1), ("c", 4, 2)];

fn is_in(alloc: Global, text: &str, count: u32, shard: u32) -> Result<bool, NameFault> {
    let name = Name::read(alloc, text)?;
    Ok(0 < count && name.shard(count) == shard)
}

// The published vectors of the hash. That of no bytes, which no name has, stands in `proofs/HashRows.antt`.
const HASHES: [(&str, u64); 2] = [("a", 0xaf63dc4c8601ec8c), ("foobar", 0x85944171f73967e8)];

// Counts of shards of which no two have a common divisor: what is left of a number below 2^64 by each of them is left of no
// other such number.
const COUNTS: [u32; 3] = [4294967295, 4294967294, 4294967293];

/// Whether a name's key has this hash.
fn has_hash(alloc: Global, text: &str, hash: u64) -> Result<bool, NameFault> {
    let name = Name::read(alloc, text)?;
    for count in COUNTS {
        if count == 0 || u64::from(name.shard(count)) != hash % u64::from(count) {
            return Ok(false);
        }
    }
    Ok(true)
}

#[test]
fn shards_of_short_names(rt: HostRuntime) -> Result<(), Fail> {
    for (text, count, shard) in SHARDS {
        assert!(rt; is_in(rt.alloc(), text, count, shard)?, "{text}");
    }
    for (text, hash) in HASHES {
        assert!(rt; has_hash(rt.alloc(), text, hash)?, "{text}");
    }
    Ok(())
}
