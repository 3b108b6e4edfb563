//! What a disk asks of the files and folders that it holds open.
use std::fs::{File, OpenFile};
use std::io;
use std::os::unix::fs::FileExt;

/// An open file or folder, read and written at places of its own, that can be locked, and closed with an answer.
pub trait HeldFile: OpenFile + FileExt {
    /// Takes the lock, for this holder alone or beside others that share it, or fails at once: with `WouldBlock` where another
    /// holder is in the way. It goes when the file is closed, also by the end of the process.
    fn lock_at_once(&self, alone: bool) -> io::Result<()>;

    /// Closes it. Whatever the answer, it is closed.
    fn close(self) -> io::Result<()>;
}

impl HeldFile for File {
    fn lock_at_once(&self, alone: bool) -> io::Result<()> {
        if alone {
            self.try_lock()?;
        } else {
            self.try_lock_shared()?;
        }
        Ok(())
    }

    /// The system closes it as it is dropped, and its answer is not handed on. What was written to it was made stable before.
    fn close(self) -> io::Result<()> {
        drop(self);
        Ok(())
    }
}
