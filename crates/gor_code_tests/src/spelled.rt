//! Bits that a text names.
use gor_bits::Bits;
use std::alloc::{AllocError, Global};

fn push_text(bits: &mut Bits, text: &str) -> Result<(), AllocError> {
    for byte in text.bytes() {
        match byte {
            b'0' => bits.push(1, 0)?,
            b'1' => bits.push(1, 1)?,
            _ => {}
        }
    }
    Ok(())
}

/// The bits that a text of 0 and 1 names; what else stands there is passed over.
pub fn of_text(alloc: Global, text: &str) -> Result<Bits, AllocError> {
    let mut bits = Bits::new(alloc);
    push_text(&mut bits, text)?;
    Ok(bits)
}
