//! A short text in a small array, written from its end to its start. It takes no memory.

ghost use Rattle.std.specs.Prelude.{◌≡◌, ◌+◌, ◌≤◌, ◌++◌, [], length, drop, decimal};
ghost use Rattle.gor_text.specs.Spelling.{word_text};

use itoa::write_digits;
use std::marker::Model;

/// The greatest length of a piece, in bytes.
const ROOM: usize = 64;

/// The digits of base 16, in lower case.
static GLYPHS: [u8; 16] = *b"0123456789abcdef";

/// A text of at most 64 bytes. Contracts see its bytes. A number's lowest digit is known first, so each part is put in front of
/// what stands already.
#[derive(Drop)]
pub(crate) struct Piece {
    bytes: [u8; ROOM],
    start: usize,
}

impl Model for Piece {
    ghost use Rattle.std.specs.Prelude.{ℕ, List, ◌≤◌, drop};

    ghost Value = { List ℕ };

    ghost view = { λ p. drop p.start p.bytes };

    ghost invariant = { λ p. p.start ≤ 64 };
}

impl Piece {
    /// No text.
    pub(crate) fn new() -> Piece
        ensures { result ≡ [] }
    {
        Piece {
            bytes: [0; ROOM],
            start: ROOM,
        }
    }

    /// The text.
    pub(crate) fn as_slice(&self) -> &[u8]
        ensures { result.now ≡ self.now }
    {
        &self.bytes[self.start..]
    }

    /// Puts a text in front.
    pub(crate) fn text(&mut self, text: &[u8])
        requires room { length text.now + length self.old ≤ 64 }
        ensures text { self.new ≡ text.now ++ self.old }
        ensures len { length self.new ≡ length text.now + length self.old }
    {
        let start = self.start - text.len();
        self.bytes[start..self.start].copy_from_slice(text);
        self.start = start;
    }

    /// Puts a number in front, in decimal digits.
    pub(crate) fn number(&mut self, number: u64)
        requires room { 20 + length self.old ≤ 64 }
        ensures text { self.new ≡ decimal number ++ self.old }
        ensures len { length self.new ≤ 20 + length self.old }
    {
        self.start = write_digits(number, &mut self.bytes, self.start);
    }

    /// Puts a word in front, in 16 hexadecimal digits.
    pub(crate) fn word(&mut self, word: u64)
        requires room { 16 + length self.old ≤ 64 }
        ensures text { self.new ≡ word_text word ++ self.old }
        ensures len { length self.new ≡ 16 + length self.old }
    {
        let start = self.start - 16;
        write_word(word, &mut self.bytes, start);
        self.start = start;
    }
}

/// Writes a word over 16 bytes, in hexadecimal digits.
#[tactic(auto, unfolding(crate::specs::Spelling::word_text))]
fn write_word(word: u64, bytes: &mut [u8], start: usize)
    requires room { start + 16 ≤ length bytes.old }
    ensures written { drop start bytes.new ≡ word_text word ++ drop (start + 16) bytes.old }
    ensures len { length bytes.new ≡ length bytes.old }
{
    let mut rest = word;
    let mut left = 16;
    while left > 0 {
        left -= 1;
        bytes[start + left] = GLYPHS[(rest % 16) as usize];
        rest /= 16;
    }
}
