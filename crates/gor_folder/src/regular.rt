//! Regular files: found, opened and made.
use crate::calls::{look_at, look_in, look_through, real_path};
use crate::cause::{Operation, Reason, asked};
use crate::folders::{sync_folder, sync_open};
use crate::held_file::HeldFile;
use crate::identity::Identity;
use crate::opened::Opened;
use std::fs::{OpenFile, OpenOptions};
use std::io::ErrorKind;
use std::rt::Files;

/// Makes the names of the folder stable in which a link ends; it has to lie within the store.
fn sync_target<R: Files + AllocGlobal>(rt: &R, path: &str, store: &str) -> Result<(), Reason> {
    let target = asked(Operation::Look, real_path(rt, path))?;
    let store = asked(Operation::Look, real_path(rt, store))?;
    if !target.starts_with(store.as_path()) {
        return Err(Reason::Outside);
    }
    match target.parent() {
        Some(parent) => sync_folder(rt, parent.to_string_lossy()),
        None => Err(Reason::Outside),
    }
}

/// Which file a link leads to: a regular one within the store.
fn follow<R: Files + AllocGlobal>(rt: &R, path: &str, store: &str) -> Result<Identity, Reason> {
    match look_through(rt, path) {
        Ok(found) if found.is_file() => {
            sync_target(rt, path, store)?;
            Ok(Identity::of(&found))
        }
        Ok(_) => Err(Reason::NoFile),
        Err(error) if error.kind() == ErrorKind::NotFound => Err(Reason::NoFile),
        Err(error) => Err(Reason::System(Operation::Look, error)),
    }
}

/// Which regular file stands at a path, where something does.
fn find<R: Files + AllocGlobal>(
    rt: &R,
    path: &str,
    store: &str,
) -> Result<Option<Identity>, Reason> {
    match look_at(rt, path) {
        Ok(found) if found.is_file() => Ok(Some(Identity::of(&found))),
        Ok(found) if found.is_symlink() => Ok(Some(follow(rt, path, store)?)),
        Ok(_) => Err(Reason::NoFile),
        Err(error) if error.kind() == ErrorKind::NotFound => Ok(None),
        Err(error) => Err(Reason::System(Operation::Look, error)),
    }
}

/// Which regular file is open.
fn identify<F: OpenFile>(file: &F) -> Result<Identity, Reason> {
    let found = asked(Operation::Look, look_in(file))?;
    if !found.is_file() {
        return Err(Reason::NoFile);
    }
    Ok(Identity::of(&found))
}

/// Opens the regular file at a path, where something is there, to be read and, where that is asked, written. What it holds
/// is stable then. It is looked at before it is opened too, since the opening of a pipe may wait for ever.
pub fn open<R: Files + AllocGlobal>(
    rt: &R,
    path: &str,
    store: &str,
    writes: bool,
) -> Result<Option<Opened<R::File>>, Reason>
where
    R::File: HeldFile,
{
    let Some(identity) = find(rt, path, store)? else {
        return Ok(None);
    };
    let answer = OpenOptions::new().read(true).write(writes).open(rt, path);
    let file = asked(Operation::Open, answer)?;
    if identify(&file)? != identity {
        return Err(Reason::Vanished);
    }
    sync_open(&file)?;
    Ok(Some(Opened { file, identity }))
}

/// Makes a file where nothing is, to be read and written. Its name is not stable yet.
pub fn make<R: Files>(rt: &R, path: &str) -> Result<Opened<R::File>, Reason>
where
    R::File: HeldFile,
{
    let answer = OpenOptions::new()
        .read(true)
        .write(true)
        .create_new(true)
        .open(rt, path);
    let file = asked(Operation::Make, answer)?;
    let identity = identify(&file)?;
    Ok(Opened { file, identity })
}

/// Whether a path still names the file that was opened.
pub fn is_named<R: Files>(rt: &R, path: &str, identity: Identity) -> Result<bool, Reason> {
    match look_through(rt, path) {
        Ok(found) => Ok(Identity::of(&found) == identity),
        Err(error) if error.kind() == ErrorKind::NotFound => Ok(false),
        Err(error) => Err(Reason::System(Operation::Look, error)),
    }
}
