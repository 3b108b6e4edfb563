//! Tests of sources and sinks in memory.
use gor_outside::{Failed, MemorySink, MemorySource, Sink, Source};
use std::alloc::AllocError;

// What each read answers, and the piece behind it, into whose front it reads.
const READS: [(Result<usize, Failed>, [u8; 4]); 4] = [
    (Ok(3), *b"abc\0"),
    (Err(Failed), *b"abc\0"),
    (Ok(2), *b"dec\0"),
    (Ok(0), *b"dec\0"),
];

/// Whether the next read answers this and leaves this piece.
fn reads(
    source: &mut MemorySource,
    piece: &mut [u8; 4],
    want: Result<usize, Failed>,
    behind: [u8; 4],
) -> bool {
    source.read(piece) == want && *piece == behind
}

#[test]
fn a_source_gives_pieces_and_fails_where_it_was_told(rt: HostRuntime) -> Result<(), AllocError> {
    let bytes = b"abcde".to_vec(rt.alloc())?;
    let failing = [1u64].to_vec(rt.alloc())?;
    let mut source = MemorySource::new(bytes, 3, failing);
    let mut piece = [0u8; 4];
    for (want, behind) in READS {
        assert!(rt; reads(&mut source, &mut piece, want, behind), "{want:?}");
    }
    assert!(rt; source.calls() == 4);
    Ok(())
}

// The bytes of each write, and what it answers.
const WRITES: [(&[u8], Result<usize, Failed>); 3] = [
    (b"abcde", Ok(3)),
    (b"de", Err(Failed)),
    (b"de", Ok(2)),
];

fn writes(sink: &mut MemorySink, bytes: &[u8], want: Result<usize, Failed>) -> bool {
    sink.write(bytes) == want
}

#[test]
fn a_sink_holds_what_it_took(rt: HostRuntime) -> Result<(), AllocError> {
    let failing = [1u64].to_vec(rt.alloc())?;
    let mut sink = MemorySink::new(rt.alloc(), 3, failing);
    for (bytes, want) in WRITES {
        assert!(rt; writes(&mut sink, bytes, want), "{want:?}");
    }
    assert!(rt; sink.bytes() == b"abcde".as_slice());
    Ok(())
}
