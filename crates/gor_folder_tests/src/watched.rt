//! The system's files, with a count of what is asked of them, and a call that fails.
use gor_folder::HeldFile;
use std::alloc::{AllocError, Allocator, Global};
use std::fs::{File, Metadata, OpenFile, OpenOptions};
use std::io::{self, Read, Seek, SeekFrom, Write};
use std::os::unix::fs::FileExt;
use std::path::PathBuf;
use std::rt::Files;
use std::sync::Arc;
use std::sync::atomic::{AtomicU64, Ordering};

/// What is asked of the system.
#[derive(Clone, Copy)]
pub enum Call {
    /// What stands at a path, or is open.
    Look,
    /// The names in a folder.
    List,
    /// A path without links.
    RealPath,
    /// A new folder.
    MakeFolder,
    /// A new file.
    MakeFile,
    /// A file or a folder that is there is opened.
    Open,
    Lock,
    Read,
    Write,
    Cut,
    /// A file is made stable.
    Sync,
    /// The names of a folder are made stable.
    SyncFolder,
    Close,
    /// No call: a file was opened before a folder was locked.
    Early,
    /// No call: a file was read that was neither made here nor stable.
    Unstable,
    /// No call: how many names were made since the last time that a folder was made stable.
    NewNames,
}

const KINDS: usize = 16;

/// The calls of a kind that fail: behind so many that do not, so many, with this number of the system.
#[derive(Clone, Copy)]
pub struct Plan(pub Call, pub u64, pub u64, pub i32);

/// No call fails.
pub const NO_PLAN: Plan = Plan(Call::Early, 0, 0, 0);

/// The counts of calls, and the plan.
#[derive(Drop)]
pub struct Calls {
    counts: Vec<AtomicU64>,
    plan: Plan,
}

impl Calls {
    fn new(alloc: Global, plan: Plan) -> Result<Calls, AllocError> {
        let mut counts = Vec::new(alloc);
        for _ in 0..KINDS {
            counts.push(AtomicU64::new(0))?;
        }
        Ok(Calls { counts, plan })
    }

    /// How many calls of a kind there were.
    pub fn count(&self, call: Call) -> u64 {
        match self.counts.get(call as usize) {
            Some(count) => count.load(Ordering::SeqCst),
            None => 0,
        }
    }

    /// Counts a call, and gives how many there were before.
    fn add(&self, call: Call) -> u64 {
        match self.counts.get(call as usize) {
            Some(count) => count.fetch_add(1, Ordering::SeqCst),
            None => 0,
        }
    }

    fn set_to_zero(&self, call: Call) {
        if let Some(count) = self.counts.get(call as usize) {
            count.store(0, Ordering::SeqCst);
        }
    }

    /// Begins all counts anew.
    pub fn reset(&self) {
        for count in &self.counts {
            count.store(0, Ordering::SeqCst);
        }
    }

    /// Counts a call, which fails where the plan says so.
    fn make(&self, call: Call) -> io::Result<()> {
        let before = self.add(call);
        let Plan(failing, after, times, code) = self.plan;
        if call as u8 == failing as u8 && before >= after && before - after < times {
            return Err(io::Error::from_raw_os_error(code));
        }
        Ok(())
    }
}

/// The system, watched.
#[derive(Drop)]
pub struct Watched {
    host: HostRuntime,
    calls: Arc<Calls, Global>,
}

impl Watched {
    pub fn new(host: &HostRuntime, plan: Plan) -> Result<Watched, AllocError> {
        let calls = Arc::new(host.alloc(), Calls::new(host.alloc(), plan)?)?;
        Ok(Watched {
            host: host.clone()?,
            calls,
        })
    }

    pub fn host(&self) -> &HostRuntime {
        &self.host
    }

    pub fn calls(&self) -> &Calls {
        &self.calls
    }

    fn file_of(&self, file: File, is_made: bool) -> io::Result<WatchedFile> {
        let is_folder = file.metadata()?.is_dir();
        if !is_folder && self.calls.count(Call::Lock) == 0 {
            self.calls.add(Call::Early);
        }
        Ok(WatchedFile {
            file,
            calls: Arc::try_clone(&self.calls)?,
            is_folder,
            is_stable: AtomicU64::new(if is_made { 1 } else { 0 }),
        })
    }
}

impl Clone for Watched {
    fn clone(&self) -> Result<Watched, AllocError> {
        Ok(Watched {
            host: self.host.clone()?,
            calls: Arc::try_clone(&self.calls)?,
        })
    }
}

impl Alloc for Watched {
    type A = Global;

    fn alloc(&self) -> Global {
        self.host.alloc()
    }
}

impl Files for Watched {
    type File = WatchedFile;

    type Dir = <HostRuntime as Files>::Dir;

    fn open_file(&self, how: &OpenOptions, path: &str) -> io::Result<WatchedFile> {
        let is_made = how.asks_create_new();
        self.calls
            .make(if is_made { Call::MakeFile } else { Call::Open })?;
        let file = self.host.open_file(how, path)?;
        if is_made {
            self.calls.add(Call::NewNames);
        }
        self.file_of(file, is_made)
    }

    fn open_dir(&self, path: &str) -> io::Result<<HostRuntime as Files>::Dir> {
        self.calls.make(Call::List)?;
        self.host.open_dir(path)
    }

    fn metadata(&self, path: &str) -> io::Result<Metadata> {
        self.calls.make(Call::Look)?;
        self.host.metadata(path)
    }

    fn symlink_metadata(&self, path: &str) -> io::Result<Metadata> {
        self.calls.make(Call::Look)?;
        self.host.symlink_metadata(path)
    }

    fn copy(&self, from: &str, to: &str) -> io::Result<u64> {
        self.host.copy(from, to)
    }

    fn rename(&self, from: &str, to: &str) -> io::Result<()> {
        self.host.rename(from, to)
    }

    fn remove_file(&self, path: &str) -> io::Result<()> {
        self.host.remove_file(path)
    }

    fn create_dir(&self, path: &str) -> io::Result<()> {
        self.calls.make(Call::MakeFolder)?;
        self.calls.add(Call::NewNames);
        self.host.create_dir(path)
    }

    fn remove_dir(&self, path: &str) -> io::Result<()> {
        self.host.remove_dir(path)
    }

    fn remove_dir_all<B: Allocator>(&self, alloc: B, path: &str) -> io::Result<()> {
        self.host.remove_dir_all(alloc, path)
    }

    fn canonicalize<B: Allocator>(&self, alloc: B, path: &str) -> io::Result<PathBuf<B>> {
        self.calls.make(Call::RealPath)?;
        self.host.canonicalize(alloc, path)
    }
}

/// An open file, watched.
#[derive(Drop)]
pub struct WatchedFile {
    file: File,
    calls: Arc<Calls, Global>,
    is_folder: bool,
    /// 0 until it was made stable.
    is_stable: AtomicU64,
}

impl Read for WatchedFile {
    fn read(&mut self, buf: &mut [u8]) -> io::Result<usize> {
        self.file.read(buf)
    }
}

impl Write for WatchedFile {
    fn write(&mut self, buf: &[u8]) -> io::Result<usize> {
        self.file.write(buf)
    }

    fn flush(&mut self) -> io::Result<()> {
        self.file.flush()
    }
}

impl Seek for WatchedFile {
    fn seek(&mut self, to: SeekFrom) -> io::Result<u64> {
        self.file.seek(to)
    }
}

impl OpenFile for WatchedFile {
    fn metadata(&self) -> io::Result<Metadata> {
        self.calls.make(Call::Look)?;
        self.file.metadata()
    }

    fn set_len(&self, size: u64) -> io::Result<()> {
        self.calls.make(Call::Cut)?;
        self.file.set_len(size)
    }

    fn sync_all(&self) -> io::Result<()> {
        if self.is_folder {
            self.calls.make(Call::SyncFolder)?;
            self.calls.set_to_zero(Call::NewNames);
        } else {
            self.calls.make(Call::Sync)?;
            self.is_stable.store(1, Ordering::SeqCst);
        }
        self.file.sync_all()
    }

    fn sync_data(&self) -> io::Result<()> {
        self.file.sync_data()
    }
}

impl FileExt for WatchedFile {
    fn read_at(&self, buf: &mut [u8], offset: u64) -> io::Result<usize> {
        if self.is_stable.load(Ordering::SeqCst) == 0 {
            self.calls.add(Call::Unstable);
        }
        self.calls.make(Call::Read)?;
        self.file.read_at(buf, offset)
    }

    fn write_at(&self, buf: &[u8], offset: u64) -> io::Result<usize> {
        self.calls.make(Call::Write)?;
        self.file.write_at(buf, offset)
    }
}

impl HeldFile for WatchedFile {
    fn lock_at_once(&self, alone: bool) -> io::Result<()> {
        self.calls.make(Call::Lock)?;
        self.file.lock_at_once(alone)
    }

    fn close(self) -> io::Result<()> {
        let WatchedFile { file, calls, .. } = self;
        file.close()?;
        calls.make(Call::Close)
    }
}
