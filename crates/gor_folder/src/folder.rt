//! A folder whose files are read and written, from its lock to its end.
ghost use Rattle.std.specs.Prelude.{ℕ, ◌+◌, ◌^◌, ◌<◌, length, IfOk, IfSome, OnOk};

use crate::calls::look_in;
use crate::cause::{Cause, Operation, Place, Reason, asked, at};
use crate::file_name::FileName;
use crate::folders::{check_new_shard, lock_folder, reach, store_of, sync_above, sync_open};
use crate::held_file::HeldFile;
use crate::identity::Identity;
use crate::opened::Opened;
use crate::regular::{self, is_named};
use gor_disk::FileId;
use std::alloc::AllocError;
use std::fs::OpenFile;
use std::io::ErrorKind;
use std::os::unix::fs::FileExt;
use std::rt::Files;

/// No file has so many bytes.
const NO_LENGTH: u64 = 1 << 63;

/// How many files are held open before the opening of another one lets a block file go.
const MOST_HELD: usize = 32;

/// What a disk is for.
#[derive(Clone, Copy)]
pub enum Purpose {
    /// A run, which is alone on the folder, and makes it where it is absent.
    Run,
    /// A dump, which reads, beside other dumps.
    Dump,
}

/// How far a folder's use has come.
#[derive(Clone, Copy)]
enum Stage {
    /// Nothing was done.
    New,
    /// The folder is not there, and is not made: its files are empty.
    Absent,
    /// The folder is locked, and may be used.
    Ready,
    /// The folder may not be used.
    Refused,
}

/// A file of the folder, from its first use on.
#[derive(Drop)]
struct Held<F: Drop> {
    name: FileId,
    path: String,
    /// None while nothing stands at its path.
    opened: Option<Opened<F>>,
}

/// The file of a name, where it was used before.
fn held_of<F: Drop>(held: &[Held<F>], name: FileId) -> Option<&Held<F>> {
    for known in held {
        if known.name == name {
            return Some(known);
        }
    }
    None
}

/// How many files are open.
fn count_open<F: Drop>(held: &[Held<F>]) -> usize {
    let mut open = 0usize;
    for known in held {
        if known.opened.is_some() {
            open = open.saturating_add(1);
        }
    }
    open
}

/// The place of the block file that is held longest.
fn oldest_block<F: Drop>(held: &[Held<F>]) -> Option<usize>
    ensures { IfSome result (λ i. i < length held.now) }
{
    for (i, known) in held.iter().enumerate() {
        if matches!(known.name, FileId::Block(_)) && known.opened.is_some() {
            return Some(i);
        }
    }
    None
}

/// Adds a file to those that are held.
fn keep<F: Drop>(held: &mut Vec<Held<F>>, found: Held<F>) -> Result<(), Reason> {
    match held.push(found) {
        Ok(()) => Ok(()),
        Err(_) => Err(Reason::NoMemory),
    }
}

/// Refuses a path that no longer names what was opened there.
fn check_named<R: Files>(rt: &R, path: &str, identity: Identity) -> Result<(), Reason> {
    if is_named(rt, path, identity)? {
        return Ok(());
    }
    Err(Reason::Vanished)
}

/// The length of an open file in bytes.
fn length_of<F: OpenFile>(file: &F) -> Result<u64, Reason>
    ensures { IfOk result (λ n. n < 2 ^ 63) }
{
    let length = asked(Operation::Look, look_in(file))?.len();
    if length >= NO_LENGTH {
        return Err(Reason::TooLong);
    }
    Ok(length)
}

/// Refuses a write that would end past the greatest length of a file.
fn check_end(to: u64, count: usize) -> Result<(), Reason>
    ensures { OnOk result (to + count < 2 ^ 63) }
{
    if to >= NO_LENGTH || count as u64 >= NO_LENGTH - to {
        return Err(Reason::TooLong);
    }
    Ok(())
}

/// Cuts an open file, where it is longer than a length.
fn cut_open<F: OpenFile>(file: &F, len: u64) -> Result<(), Reason> {
    if len < length_of(file)? {
        asked(Operation::Cut, file.set_len(len))?;
    }
    Ok(())
}

/// Closes a file.
fn close_held<F: HeldFile + Drop>(held: Held<F>) -> Result<(), Cause> {
    let Held { name, opened, .. } = held;
    match opened {
        Some(Opened { file, .. }) => at(Place::File(name), asked(Operation::Close, file.close())),
        None => Ok(()),
    }
}

/// Lets a file go. What was written to it is stable then.
fn let_go<F: HeldFile + Drop>(held: Held<F>) -> Result<(), Cause> {
    if let Some(opened) = &held.opened {
        at(Place::File(held.name), sync_open(&opened.file))?;
    }
    close_held(held)
}

/// The first of two failures.
fn first(earlier: Result<(), Cause>, later: Result<(), Cause>) -> Result<(), Cause> {
    match earlier {
        Ok(()) => later,
        Err(cause) => Err(cause),
    }
}

/// A folder as it is used. Nothing is done before its first use, which locks it; the lock is held until it is closed.
#[derive(Drop)]
pub struct Folder<R: Files + Drop> {
    rt: R,
    path: String,
    purpose: Purpose,
    stage: Stage,
    lock: Option<Opened<R::File>>,
    held: Vec<Held<R::File>>,
    /// Whether a file was made since the folder's names were made stable.
    has_new_names: bool,
    /// Whether a sync failed: the system may then call stable what it has lost.
    sync_failed: bool,
}

impl<R: Files + AllocGlobal + Clone + Drop> Folder<R>
where
    R::File: HeldFile,
{
    /// The folder of a path, which need not be there.
    pub fn new(rt: R, path: String, purpose: Purpose) -> Folder<R> {
        let held = Vec::new(rt.alloc());
        Folder {
            rt,
            path,
            purpose,
            stage: Stage::New,
            lock: None,
            held,
            has_new_names: false,
            sync_failed: false,
        }
    }

    /// Its path.
    pub fn path(&self) -> &str {
        self.path.as_str()
    }

    fn is_written(&self) -> bool {
        matches!(self.purpose, Purpose::Run)
    }

    /// Refuses to write for a dump.
    fn check_purpose(&self) -> Result<(), Reason> {
        if self.is_written() {
            return Ok(());
        }
        Err(Reason::OnlyRead)
    }

    fn place(&self) -> Place {
        Place::Folder(self.path.len())
    }

    /// The path of a file.
    fn path_of(&self, name: FileId) -> Result<String, AllocError> {
        let (folder, name) = (self.path.as_str(), FileName(name));
        format!(in *self.path.allocator(); "{folder}/{name}")
    }

    // ---- the beginning

    /// Locks the folder, has its names and those on the way to it stable, and looks whether it is one that this program
    /// leaves. Whether the folder is there.
    fn begin(&mut self) -> Result<bool, Cause> {
        let alone = self.is_written();
        if !reach(&self.rt, &self.path, alone)? {
            return Ok(false);
        }
        let lock = at(self.place(), lock_folder(&self.rt, &self.path, alone))?;
        let synced = at(self.place(), sync_open(&lock.file));
        self.lock = Some(lock);
        synced?;
        sync_above(&self.rt, &self.path)?;
        self.refuse_old_bytes()?;
        Ok(true)
    }

    /// Whether the marks begin with a gate that is open.
    fn has_mark(&mut self) -> Result<bool, Cause> {
        self.hold(FileId::Marks)?;
        if self.length(FileId::Marks)? <= 1 {
            return Ok(false);
        }
        let mut gate = [0u8; 1];
        self.read(FileId::Marks, 0, &mut gate)?;
        Ok(gate == [1])
    }

    /// Refuses a folder without a mark in which there are bytes of an older store: a fresh one would be begun over them.
    fn refuse_old_bytes(&mut self) -> Result<(), Cause> {
        if self.has_mark()? {
            return Ok(());
        }
        for name in [FileId::Keys(0), FileId::Log(0)] {
            self.hold(name)?;
            if self.length(name)? > 1 {
                let (place, reason) = (Place::File(name), Reason::OldBytes);
                return Err(Cause { place, reason });
            }
        }
        at(self.place(), check_new_shard(&self.rt, &self.path))
    }

    /// Whether the folder is there, from its first use on. One that was refused is refused for good.
    fn enter(&mut self) -> Result<bool, Cause> {
        match self.stage {
            Stage::Ready => Ok(true),
            Stage::Absent => Ok(false),
            Stage::Refused => Err(Cause {
                place: self.place(),
                reason: Reason::Failed,
            }),
            Stage::New => {
                self.stage = Stage::Refused;
                let there = self.begin()?;
                self.stage = if there { Stage::Ready } else { Stage::Absent };
                Ok(there)
            }
        }
    }

    // ---- the files

    /// Lets a block file go where many files are held. The other files are few.
    fn make_room(&mut self) -> Result<(), Cause> {
        if count_open(&self.held) < MOST_HELD {
            return Ok(());
        }
        match oldest_block(&self.held) {
            Some(i) => let_go(self.held.remove(i)),
            None => Ok(()),
        }
    }

    /// Refuses a folder that its path no longer names.
    fn check_folder(&self) -> Result<(), Cause> {
        let Some(lock) = &self.lock else {
            return Ok(());
        };
        at(
            self.place(),
            check_named(&self.rt, &self.path, lock.identity),
        )
    }

    /// What stands at a file's path, with what it holds stable.
    fn find(&self, name: FileId) -> Result<Held<R::File>, Reason> {
        let path = self.path_of(name)?;
        let store = store_of(&self.path).unwrap_or(&self.path);
        let opened = regular::open(&self.rt, &path, store, self.is_written())?;
        Ok(Held { name, path, opened })
    }

    /// Holds a file that was not used before.
    fn hold_anew(&mut self, name: FileId) -> Result<(), Cause> {
        self.make_room()?;
        self.check_folder()?;
        let found = at(Place::File(name), self.find(name))?;
        at(Place::File(name), keep(&mut self.held, found))
    }

    /// Holds a file, from its first use on. Where that fails, the folder is refused for good: a second try may find stable what
    /// the system has lost.
    fn hold(&mut self, name: FileId) -> Result<(), Cause> {
        if held_of(&self.held, name).is_some() {
            return Ok(());
        }
        let answer = self.hold_anew(name);
        if answer.is_err() {
            self.stage = Stage::Refused;
        }
        answer
    }

    /// The file that is open under a name; none where nothing stands at its path.
    fn opened(&self, name: FileId) -> Option<&Opened<R::File>> {
        held_of(&self.held, name)?.opened.as_ref()
    }

    /// Makes a file where nothing stands.
    fn make(&mut self, name: FileId) -> Result<(), Reason> {
        for known in &mut self.held {
            if known.name == name {
                self.has_new_names = true;
                known.opened = Some(regular::make(&self.rt, &known.path)?);
            }
        }
        Ok(())
    }

    // ---- the calls

    /// Holds a file where the folder is there.
    fn touch(&mut self, name: FileId) -> Result<(), Cause> {
        if self.enter()? {
            self.hold(name)?;
        }
        Ok(())
    }

    fn length(&self, name: FileId) -> Result<u64, Cause>
        ensures { IfOk result (λ n. n < 2 ^ 63) }
    {
        match self.opened(name) {
            Some(opened) => at(Place::File(name), length_of(&opened.file)),
            None => Ok(0),
        }
    }

    fn read(&self, name: FileId, from: u64, into: &mut [u8]) -> Result<(), Cause> {
        let answer = match self.opened(name) {
            Some(opened) => opened.file.read_exact_at(into, from),
            None if into.is_empty() => Ok(()),
            None => Err(ErrorKind::UnexpectedEof.into()),
        };
        at(Place::File(name), asked(Operation::Read, answer))
    }

    fn write(&mut self, name: FileId, to: u64, bytes: &[u8]) -> Result<(), Reason> {
        if self.opened(name).is_none() {
            self.make(name)?;
        }
        match self.opened(name) {
            Some(opened) => asked(Operation::Write, opened.file.write_all_at(bytes, to)),
            None => Err(Reason::Vanished),
        }
    }

    /// Makes the folder's names stable where a file was made, and sees that its path still names it.
    fn sync_names(&self) -> Result<(), Cause> {
        match &self.lock {
            Some(lock) if self.has_new_names => {
                at(self.place(), sync_open(&lock.file))?;
                self.check_folder()
            }
            _ => Ok(()),
        }
    }

    /// Makes a file stable, and its name, and sees that its path still names it.
    fn sync_held(&self, known: &Held<R::File>, opened: &Opened<R::File>) -> Result<(), Cause> {
        let place = Place::File(known.name);
        at(place, sync_open(&opened.file))?;
        self.sync_names()?;
        at(place, check_named(&self.rt, &known.path, opened.identity))
    }

    /// The length of a file in bytes; 0 of one that is absent.
    pub fn len(&mut self, name: FileId) -> Result<u64, Cause>
        ensures { IfOk result (λ n. n < 2 ^ 63) }
    {
        self.touch(name)?;
        self.length(name)
    }

    /// Reads as many bytes as `into` has, from a place on. Of an absent file nothing can be read but nothing.
    pub fn read_at(&mut self, name: FileId, from: u64, into: &mut [u8]) -> Result<(), Cause> {
        self.touch(name)?;
        self.read(name, from, into)
    }

    /// Writes bytes from a place on, at most the file's length, and makes the file where it is absent.
    pub fn write_at(&mut self, name: FileId, to: u64, bytes: &[u8]) -> Result<(), Cause>
        ensures { OnOk result (to + length bytes.now < 2 ^ 63) }
    {
        let place = Place::File(name);
        at(place, check_end(to, bytes.len()))?;
        at(place, self.check_purpose())?;
        self.touch(name)?;
        if to > self.length(name)? {
            return at(place, Err(Reason::Shorter));
        }
        at(place, self.write(name, to, bytes))
    }

    /// Cuts a file to a length, where it is longer.
    pub fn cut(&mut self, name: FileId, len: u64) -> Result<(), Cause> {
        let place = Place::File(name);
        at(place, self.check_purpose())?;
        self.touch(name)?;
        match self.opened(name) {
            Some(opened) => at(place, cut_open(&opened.file, len)),
            None => Ok(()),
        }
    }

    /// Makes a file stable, and its name. Once a sync has failed, every later one fails: the system may call stable what it
    /// has lost.
    pub fn sync(&mut self, name: FileId) -> Result<(), Cause> {
        self.touch(name)?;
        let Some(known) = held_of(&self.held, name) else {
            return Ok(());
        };
        let Some(opened) = &known.opened else {
            return Ok(());
        };
        if self.sync_failed {
            return at(Place::File(name), Err(Reason::Failed));
        }
        let answer = self.sync_held(known, opened);
        self.sync_failed = answer.is_err();
        self.has_new_names = self.has_new_names && answer.is_err();
        answer
    }

    /// Closes all that is open, the folder's lock last. It cannot be used after that.
    pub fn close(&mut self) -> Result<(), Cause> {
        self.stage = Stage::Refused;
        let mut answer = Ok(());
        for _ in 0..self.held.len() {
            if let Some(held) = self.held.pop() {
                answer = first(answer, close_held(held));
            }
        }
        if let Some(lock) = self.lock.take() {
            let closed = at(self.place(), asked(Operation::Close, lock.file.close()));
            answer = first(answer, closed);
        }
        answer
    }
}
