//! A body that is being made, with the room for its frame: its length before it and a shut gate behind it.
ghost use Rattle.std.specs.Prelude.{◌≡◌, ◌+◌, ◌<◌, ◌≤◌, [], ◌++◌, length, drop, take, vec_len, vec_capacity, IfOk, OnOk};
ghost use Rattle.gor_gate.specs.Gates.{eight, framed};

use byteorder::{BigEndian, ByteOrder};
use std::alloc::{AllocError, Global};
use std::marker::Model;

/// A body that is being made. It stands behind eight bytes that are kept for its length, and there is room for one byte
/// behind it, so an append is one write and takes no memory. Contracts see its body and its spare, which is the count of
/// bytes that the body may still grow by without memory.
#[derive(Drop)]
pub struct Frame {
    pub(crate) bytes: Vec<u8>,
}

impl Model for Frame {
    ghost use Rattle.std.specs.Prelude.{◌+◌, ◌-◌, ◌≤◌, drop, vec_len, vec_capacity};
    ghost use Rattle.gor_gate.specs.Frames.{Filling};

    ghost Value = { Filling };

    ghost view = { λ a. record { body = drop 8 a.bytes.items; spare = vec_capacity a.bytes - vec_len a.bytes - 1 } };

    ghost invariant = { λ a. (8 ≤ vec_len a.bytes) × (vec_len a.bytes + 1 ≤ vec_capacity a.bytes) };
}

impl Frame {
    /// A frame with an empty body. It fails only for want of memory.
    pub fn new(alloc: Global) -> Result<Frame, AllocError>
        ensures { IfOk result (λ frame. frame.body ≡ []) }
    {
        let mut bytes = Vec::with_capacity(alloc, 9)?;
        bytes.extend_from_slice(&[0; 8])?;
        bytes.reserve(1)?;
        Ok(Frame { bytes })
    }

    /// A frame of bytes of which the first eight are kept for the length, and the others are the body. There is room for
    /// one byte behind them. It takes no memory.
    pub fn of(bytes: Vec<u8>) -> Frame
        requires long { 8 ≤ vec_len bytes }
        requires room { vec_len bytes < vec_capacity bytes }
        ensures body { result.body ≡ drop 8 bytes.items }
        ensures spare { vec_len bytes + 1 + result.spare ≡ vec_capacity bytes }
    {
        Frame { bytes }
    }

    /// The bytes behind a frame: eight bytes of no meaning, and then the body, with the room that `Frame::of` asks for.
    /// It takes no memory.
    pub fn into_bytes(self) -> Vec<u8>
        ensures body { drop 8 result.items ≡ self.body }
        ensures long { 8 ≤ vec_len result }
        ensures spare { vec_len result + 1 + self.spare ≡ vec_capacity result }
    {
        let Frame { bytes } = self;
        bytes
    }

    /// Makes room for `n` bytes more. It fails only for want of memory, and the body and its room are then as they were.
    pub fn reserve(&mut self, n: usize) -> Result<(), AllocError>
        ensures body { self.new.body ≡ self.old.body }
        ensures room { OnOk result (n ≤ self.new.spare) }
        ensures kept { self.old.spare ≤ self.new.spare }
    {
        self.bytes.reserve(n.saturating_add(1))
    }

    /// Adds bytes, for which there is room. It takes no memory.
    pub fn push_reserved(&mut self, bytes: &[u8])
        requires { length bytes.now ≤ self.old.spare }
        ensures body { self.new.body ≡ self.old.body ++ bytes.now }
        ensures spare { self.new.spare + length bytes.now ≡ self.old.spare }
    {
        push_all(&mut self.bytes, bytes);
    }

    /// Empties the body, and keeps its room. It takes no memory.
    pub fn clear(&mut self)
        ensures body { self.new.body ≡ [] }
        ensures spare { self.new.spare ≡ self.old.spare + length self.old.body }
    {
        self.bytes.truncate(8);
    }
}

fn push_all(into: &mut Vec<u8>, bytes: &[u8])
    requires { vec_len into.old + length bytes.now ≤ vec_capacity into.old }
    ensures items { into.new.items ≡ into.old.items ++ bytes.now }
    ensures len { vec_len into.new ≡ vec_len into.old + length bytes.now }
    ensures capacity { vec_capacity into.new ≡ vec_capacity into.old }
{
    for byte in bytes {
        into.push_reserved(*byte);
    }
}

/// Writes the length before a body, and a shut gate behind it.
pub(crate) fn close(bytes: &mut Vec<u8>)
    requires long { 8 ≤ vec_len bytes.old }
    requires room { vec_len bytes.old < vec_capacity bytes.old }
    ensures items { bytes.new.items ≡ framed (drop 8 bytes.old.items) }
    ensures len { vec_len bytes.new ≡ vec_len bytes.old + 1 }
    ensures capacity { vec_capacity bytes.new ≡ vec_capacity bytes.old }
{
    let len = (bytes.len() - 8) as u64;
    put_length(bytes, len);
    bytes.push_reserved(0);
}

fn put_length(bytes: &mut [u8], len: u64)
    requires { 8 ≤ length bytes.old }
    ensures { bytes.new ≡ eight len ++ drop 8 bytes.old }
{
    BigEndian::write_u64(bytes, len);
}
