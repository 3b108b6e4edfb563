//! Steps on a disk and its folder, with what is wanted, and how they are done.
use crate::watched::{Call, Plan, Watched};
use gor_disk::{Disk, DiskFailed, FileId};
use gor_folder::FolderDisk;
use std::alloc::AllocError;
use std::fs;
use std::os::unix::fs::symlink;
use std::process::Abort;

/// A step, with what is wanted. A path begins in the folder of the test, and the disk lies in its folder `store/shard.0`.
#[derive(Clone, Copy)]
pub enum Step {
    /// A new disk of a run, in place of the one before.
    Run,
    /// A new disk of a dump, in place of the one before.
    Dump,
    /// The file has this length.
    Len(FileId, u64),
    /// From the place on these bytes are read.
    Read(FileId, u64, &'static [u8]),
    /// These bytes are written from the place on.
    Write(FileId, u64, &'static [u8]),
    /// The file is cut to this length.
    Cut(FileId, u64),
    /// The file is made stable.
    Sync(FileId),
    /// The disk is closed.
    Close,
    /// So many calls of a kind were made since the counts began.
    Made(Call, u64),
    /// All counts begin anew.
    Count,
    /// A folder is made.
    Folder(&'static str),
    /// A file is written, and made where it is absent.
    Put(&'static str, &'static [u8]),
    /// A link is made, which leads to the first text.
    Link(&'static str, &'static str),
    /// What stands at the first path is moved to the second.
    Move(&'static str, &'static str),
    /// A file is removed.
    Remove(&'static str),
    /// A file has these bytes.
    Holds(&'static str, &'static [u8]),
    /// Nothing stands there.
    Lacks(&'static str),
}

/// A step, and what the disk tells where it is a call that is to fail; the empty text where nothing is to fail. Of a disk its
/// first failure alone is told.
#[derive(Clone, Copy)]
pub struct Row(pub Step, pub &'static str);

/// How a step went.
enum Went {
    /// As is wanted.
    Well,
    /// With another value than is wanted.
    Wrong,
    /// The disk failed.
    Failed,
}

/// How a step went whose value is, or is not, what is wanted.
fn compared(is_so: bool) -> Went {
    if is_so { Went::Well } else { Went::Wrong }
}

/// How a call went that gives nothing.
fn answered(answer: Result<(), DiskFailed>) -> Went {
    match answer {
        Ok(()) => Went::Well,
        Err(DiskFailed) => Went::Failed,
    }
}

/// A disk in the folder of a test.
#[derive(Drop)]
struct Machine {
    rt: Watched,
    place: &'static str,
    disk: FolderDisk<Watched>,
}

impl Machine {
    fn path(&self, name: &str) -> Result<String, AllocError> {
        let place = self.place;
        format!(in self.rt.alloc(); "{place}/{name}")
    }

    /// A new disk, once the one before is gone.
    fn renew(&mut self, writes: bool) -> Result<bool, AllocError> {
        let _ = self.disk.close();
        let (folder, rt) = (self.path("store/shard.0")?, self.rt.clone()?);
        self.disk = if writes {
            FolderDisk::new(rt, folder)
        } else {
            FolderDisk::for_dump(rt, folder)
        };
        Ok(true)
    }

    fn read(&mut self, file: FileId, from: u64, wanted: &[u8]) -> Result<Went, AllocError> {
        let mut into = vec![in self.rt.alloc(); 0u8; wanted.len()]?;
        match self.disk.read_at(file, from, &mut into) {
            Ok(()) => Ok(compared(into.as_slice() == wanted)),
            Err(DiskFailed) => Ok(Went::Failed),
        }
    }

    fn length(&mut self, file: FileId, wanted: u64) -> Went {
        match self.disk.len(file) {
            Ok(length) => compared(length == wanted),
            Err(DiskFailed) => Went::Failed,
        }
    }

    /// Does a step on the folder.
    fn change(&self, step: Step) -> Result<bool, AllocError> {
        let host = self.rt.host();
        match step {
            Step::Folder(path) => Ok(fs::create_dir(host, self.path(path)?).is_ok()),
            Step::Put(path, bytes) => Ok(fs::write(host, self.path(path)?, bytes).is_ok()),
            Step::Link(to, path) => Ok(symlink(host, to, self.path(path)?).is_ok()),
            Step::Move(from, to) => Ok(fs::rename(host, self.path(from)?, self.path(to)?).is_ok()),
            Step::Remove(path) => Ok(fs::remove_file(host, self.path(path)?).is_ok()),
            Step::Holds(path, bytes) => Ok(fs::read(host, self.path(path)?).is_ok_and(
                |found| found.as_slice() == bytes,
            )),
            Step::Lacks(path) => Ok(fs::symlink_metadata(host, self.path(path)?).is_err()),
            Step::Made(call, wanted) => Ok(self.rt.calls().count(call) == wanted),
            _ => Ok(false),
        }
    }

    /// Does a step.
    fn step(&mut self, step: Step) -> Result<Went, AllocError> {
        match step {
            Step::Run => Ok(compared(self.renew(true)?)),
            Step::Dump => Ok(compared(self.renew(false)?)),
            Step::Count => {
                self.rt.calls().reset();
                Ok(Went::Well)
            }
            Step::Len(file, wanted) => Ok(self.length(file, wanted)),
            Step::Read(file, from, wanted) => self.read(file, from, wanted),
            Step::Write(file, to, bytes) => Ok(answered(self.disk.write_at(file, to, bytes))),
            Step::Cut(file, len) => Ok(answered(self.disk.cut(file, len))),
            Step::Sync(file) => Ok(answered(self.disk.sync(file))),
            Step::Close => Ok(answered(self.disk.close())),
            _ => Ok(compared(self.change(step)?)),
        }
    }

    /// Whether the disk tells this. What is wanted leaves out the folder of the test.
    fn tells(&self, wanted: &str) -> Result<bool, AllocError> {
        let Some(told) = self.disk.cause() else {
            return Ok(false);
        };
        let text = format!(in self.rt.alloc(); "{told}")?;
        let text = text.as_str();
        let inner = text
            .strip_prefix(self.place)
            .and_then(|rest| rest.strip_prefix('/'));
        Ok(inner.unwrap_or(text) == wanted)
    }

    /// Does a row, and says whether all went as is wanted.
    fn row(&mut self, row: Row) -> Result<bool, AllocError> {
        let Row(step, wanted) = row;
        match self.step(step)? {
            Went::Well => Ok(wanted.is_empty()),
            Went::Wrong => Ok(false),
            Went::Failed => self.tells(wanted),
        }
    }
}

/// A disk of a run in a new folder.
fn machine_in(rt: &HostRuntime, place: &'static str, plan: Plan) -> Result<Machine, AllocError> {
    let rt = Watched::new(rt, plan)?;
    let folder = format!(in rt.alloc(); "{place}/store/shard.0")?;
    let disk = FolderDisk::new(rt.clone()?, folder);
    Ok(Machine { rt, place, disk })
}

/// Does some rows in a folder that is new, and goes in the end. The place of the first row that does not go as is wanted.
fn first_wrong(
    rt: &HostRuntime,
    place: &'static str,
    plan: Plan,
    rows: &[Row],
) -> Result<Option<usize>, AllocError> {
    let _ = fs::remove_dir_all(rt, place);
    if fs::create_dir(rt, place).is_err() {
        return Ok(Some(0));
    }
    let mut machine = machine_in(rt, place, plan)?;
    for (number, row) in rows.iter().enumerate() {
        if !machine.row(*row)? {
            return Ok(Some(number));
        }
    }
    if fs::remove_dir_all(rt, place).is_err() {
        return Ok(Some(rows.len()));
    }
    Ok(None)
}

/// A case: rows in a folder of their own, under a plan.
#[derive(Clone, Copy)]
pub struct Case(pub &'static str, pub Plan, pub &'static [Row]);

/// Does each case in a new folder, and names the first row that does not go as is wanted.
pub fn follow<R: Abort>(
    rt: &R,
    host: &HostRuntime,
    place: &'static str,
    cases: &[Case],
) -> Result<(), AllocError> {
    for case in cases {
        let Case(name, plan, rows) = *case;
        let wrong = first_wrong(host, place, plan, rows)?;
        if let Some(row) = wrong {
            assert!(rt; false, "{name}: row {row}");
        }
    }
    Ok(())
}
