//! The folders on the way to a disk's files: found or made, locked, and their names made stable.
use crate::calls::{list, look_at, look_in, make_folder};
use crate::cause::{Cause, Operation, Place, Reason, asked, at, top_of};
use crate::held_file::HeldFile;
use crate::identity::Identity;
use crate::opened::Opened;
use std::fs::{self, OpenFile};
use std::io::ErrorKind;
use std::rt::Files;

/// Which folder stands at a path, where one does. A link is no folder.
fn find_folder<R: Files>(rt: &R, path: &str) -> Result<Option<Identity>, Reason> {
    match look_at(rt, path) {
        Ok(found) if found.is_dir() => Ok(Some(Identity::of(&found))),
        Ok(_) => Err(Reason::NoFolder),
        Err(error) if error.kind() == ErrorKind::NotFound => Ok(None),
        Err(error) => Err(Reason::System(Operation::Look, error)),
    }
}

/// Whether a folder is there in the end, which is made where it is absent and is to be made.
fn reach_folder<R: Files>(rt: &R, path: &str, makes: bool) -> Result<bool, Reason> {
    if find_folder(rt, path)?.is_some() {
        return Ok(true);
    }
    if !makes {
        return Ok(false);
    }
    match make_folder(rt, path) {
        Ok(()) => {}
        // Another run makes it at the same time.
        Err(error) if error.kind() == ErrorKind::AlreadyExists => {}
        Err(error) => return Err(Reason::System(Operation::Make, error)),
    }
    match find_folder(rt, path)? {
        Some(_) => Ok(true),
        None => Err(Reason::Vanished),
    }
}

/// The folder that so many bytes of a path name; none where there are no bytes.
fn part_of(path: &str, end: usize) -> Option<&str> {
    path.get(..end).filter(|part| !part.is_empty())
}

/// Refuses a shard's folder in which something else lies than a shard without a mark has.
pub fn check_new_shard<R: Files + AllocGlobal + Clone + Drop>(
    rt: &R,
    folder: &str,
) -> Result<(), Reason> {
    let names = asked(Operation::List, list(rt, folder))?;
    if names.has_later {
        return Err(Reason::NoShard);
    }
    Ok(())
}

/// The path of the folder that holds a shard's folder; none where that has one name alone.
pub fn store_of(folder: &str) -> Option<&str> {
    folder.rfind('/').and_then(|end| part_of(folder, end))
}

/// Refuses a folder without a shard in which something else lies.
fn check_store<R: Files + AllocGlobal + Clone + Drop>(rt: &R, folder: &str) -> Result<(), Cause> {
    let Some(store) = store_of(folder) else {
        return Ok(());
    };
    let place = Place::Folder(store.len());
    let names = at(place, asked(Operation::List, list(rt, store)))?;
    if names.has_strange && !names.has_shards {
        return at(place, Err(Reason::NoStore));
    }
    Ok(())
}

/// Whether the folders on the way to a folder are there in the end, and the folder too.
pub fn reach<R: Files + AllocGlobal + Clone + Drop>(
    rt: &R,
    folder: &str,
    makes: bool,
) -> Result<bool, Cause> {
    for (end, _) in folder.match_indices('/') {
        if let Some(part) = part_of(folder, end)
            && !at(Place::Folder(end), reach_folder(rt, part, makes))?
        {
            return Ok(false);
        }
    }
    let place = Place::Folder(folder.len());
    if at(place, find_folder(rt, folder))?.is_none() {
        check_store(rt, folder)?;
    }
    at(place, reach_folder(rt, folder, makes))
}

/// Opens a folder that is there, and locks it.
pub fn lock_folder<R: Files>(rt: &R, folder: &str, alone: bool) -> Result<Opened<R::File>, Reason>
where
    R::File: HeldFile,
{
    let file = asked(Operation::Open, fs::open(rt, folder))?;
    match file.lock_at_once(alone) {
        Ok(()) => {}
        Err(error) if error.kind() == ErrorKind::WouldBlock => return Err(Reason::InUse),
        Err(error) => return Err(Reason::System(Operation::Lock, error)),
    }
    let found = asked(Operation::Look, look_in(&file))?;
    let identity = Identity::of(&found);
    if find_folder(rt, folder)? != Some(identity) {
        return Err(Reason::Vanished);
    }
    Ok(Opened { file, identity })
}

/// Makes what was written to an open file, or the names of an open folder, stable.
pub fn sync_open<F: OpenFile>(file: &F) -> Result<(), Reason> {
    asked(Operation::Sync, file.sync_all())
}

/// Makes the names of a folder stable.
pub fn sync_folder<R: Files>(rt: &R, path: &str) -> Result<(), Reason> {
    let file = asked(Operation::Open, fs::open(rt, path))?;
    sync_open(&file)
}

/// Makes the names of the folders above a folder stable, the lowest first, up to the one in which the path begins.
pub fn sync_above<R: Files>(rt: &R, folder: &str) -> Result<(), Cause> {
    for (end, _) in folder.rmatch_indices('/') {
        if let Some(part) = part_of(folder, end) {
            at(Place::Folder(end), sync_folder(rt, part))?;
        }
    }
    at(Place::Top, sync_folder(rt, top_of(folder)))
}
