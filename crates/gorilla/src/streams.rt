//! Standard input and output, as a source and a sink that count their faults.
ghost use Rattle.std.specs.Prelude.{None, ◌<◌, ◌^◌};

use gor_outside::{Failed, Sink, Source};
use std::io::{Read, Write};

/// Standard input as a source. It tells nothing of its bytes.
#[derive(Drop)]
pub struct InputStream<R: Read> {
    reader: R,
    faults: u64,
    ghost in_range: { faults < 2 ^ 64 },
}

impl<R: Read> InputStream<R> {
    /// A source over a reader that has not failed.
    pub fn new(reader: R) -> InputStream<R> {
        InputStream { reader, faults: 0 }
    }
}

impl<R: Read> Source for InputStream<R> {
    ghost left = { λ _. None };

    ghost faults = { λ s. s.faults };

    ghost reads = { λ _. 0 };

    ghost faults_fit = { λ s. s.in_range };

    fn read(&mut self, buf: &mut [u8]) -> Result<usize, Failed> {
        if let Ok(count) = self.reader.read(buf) {
            return Ok(count);
        }
        self.faults = self.faults.saturating_add(1);
        Err(Failed)
    }
}

/// Standard output as a sink. It tells nothing of its bytes.
#[derive(Drop)]
pub struct OutputStream<W: Write> {
    writer: W,
    faults: u64,
    ghost in_range: { faults < 2 ^ 64 },
}

impl<W: Write> OutputStream<W> {
    /// A sink over a writer that has not failed.
    pub fn new(writer: W) -> OutputStream<W> {
        OutputStream { writer, faults: 0 }
    }
}

impl<W: Write> Sink for OutputStream<W> {
    ghost held = { λ _. None };

    ghost faults = { λ s. s.faults };

    ghost faults_fit = { λ s. s.in_range };

    fn write(&mut self, piece: &[u8]) -> Result<usize, Failed> {
        if let Ok(count) = self.writer.write(piece)
            && (count > 0 || piece.is_empty())
        {
            return Ok(count);
        }
        self.faults = self.faults.saturating_add(1);
        Err(Failed)
    }
}
