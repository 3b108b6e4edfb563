//! What a disk in memory, or an image of it, has in a file; and which calls it was asked.
ghost use Rattle.std.specs.Prelude.{◌≡◌, IfOk};

use gor_disk::{Disk, DiskCall, DiskKind, FileId, MemoryDisk};
use gor_gate::Frame;
use std::alloc::{AllocError, Global};

/// A frame with this body.
pub fn framed(alloc: Global, body: &[u8]) -> Result<Frame, AllocError>
    ensures { IfOk result (λ frame. frame.body ≡ body.now) }
{
    let mut frame = Frame::new(alloc)?;
    frame.reserve(body.len())?;
    frame.push_reserved(body);
    Ok(frame)
}

/// Whether a file has these bytes.
pub fn holds(
    alloc: Global,
    disk: &mut MemoryDisk,
    file: FileId,
    want: &[u8],
) -> Result<bool, AllocError> {
    let Ok(len) = disk.len(file) else {
        return Ok(false);
    };
    let mut bytes = vec![in alloc; 0u8; len as usize]?;
    match disk.read_at(file, 0, bytes.as_mut_slice()) {
        Ok(()) => Ok(bytes.as_slice() == want),
        Err(_) => Ok(false),
    }
}

/// Whether a file has these bytes in an image of this moment.
pub fn leaves(
    alloc: Global,
    disk: &MemoryDisk,
    moment: u64,
    choice: u64,
    file: FileId,
    want: &[u8],
) -> Result<bool, AllocError> {
    if moment > disk.calls().len() as u64 {
        return Ok(false);
    }
    let mut image = disk.image(moment, choice)?;
    holds(alloc, &mut image, file, want)
}

/// A call of a disk that is wanted: its kind, and its place and length.
pub type Wanted = (DiskKind, u64, u64);

fn is_wanted(call: &DiskCall, file: FileId, want: Wanted, failed: bool) -> bool {
    let (kind, at, len) = want;
    *call
        == DiskCall {
            file,
            kind,
            at,
            len,
            failed,
        }
}

/// Whether the calls from this place on are these of one file, of which the last one alone may have failed.
pub fn are_calls(
    calls: &[DiskCall],
    from: usize,
    file: FileId,
    want: &[Wanted],
    failed: bool,
) -> bool {
    if calls.len() < from || calls.len() - from != want.len() {
        return false;
    }
    for (place, wanted) in want.iter().enumerate() {
        let last = place + 1 == want.len();
        match calls.get(from + place) {
            Some(call) if is_wanted(call, file, *wanted, failed && last) => (),
            _ => return false,
        }
    }
    true
}
