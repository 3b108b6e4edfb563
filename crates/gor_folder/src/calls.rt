//! The calls of the system that std does not make again where a signal interrupts them. It does so where it opens, locks, reads,
//! writes, cuts or syncs a file.
use std::fs::{self, Metadata, OpenFile};
use std::io::{self, ErrorKind};
use std::path::PathBuf;
use std::rt::Files;

/// Whether a signal interrupted a call.
fn is_interrupted<T>(answer: &io::Result<T>) -> bool {
    match answer {
        Ok(_) => false,
        Err(error) => error.kind() == ErrorKind::Interrupted,
    }
}

/// A call of the system, made again as often as a signal interrupts it.
macro_rules! again {
    ($call:expr) => {{
        let mut answer = $call;
        for _ in 0..u64::MAX {
            if !is_interrupted(&answer) {
                break;
            }
            answer = $call;
        }
        answer
    }};
}

/// What stands at a path; a link is not followed.
pub fn look_at<R: Files>(rt: &R, path: &str) -> io::Result<Metadata> {
    again!(fs::symlink_metadata(rt, path))
}

/// What a path leads to.
pub fn look_through<R: Files>(rt: &R, path: &str) -> io::Result<Metadata> {
    again!(fs::metadata(rt, path))
}

/// What is open.
pub fn look_in<F: OpenFile>(file: &F) -> io::Result<Metadata> {
    again!(file.metadata())
}

/// A path from the root on, without links.
pub fn real_path<R: Files + AllocGlobal>(rt: &R, path: &str) -> io::Result<PathBuf> {
    again!(fs::canonicalize(rt, path))
}

/// What names a folder has.
#[derive(Clone, Copy)]
pub struct Names {
    /// A name of a shard's folder is among them.
    pub has_shards: bool,
    /// A name is among them that no store's folder has.
    pub has_strange: bool,
    /// A name is among them that no shard's folder has before its first mark.
    pub has_later: bool,
}

/// Whether a folder has a name that no program gave it: where a file system begins there is one.
fn is_found(name: &str) -> bool {
    name == "lost+found"
}

/// Whether a name is one of those in a shard's folder before its first mark.
fn is_first(name: &str) -> bool {
    name == "marks" || name == "keys.0" || name == "log.0"
}

/// Reads the names in a folder once.
fn read_names<R: Files + AllocGlobal + Clone + Drop>(rt: &R, path: &str) -> io::Result<Names> {
    let mut names = Names {
        has_shards: false,
        has_strange: false,
        has_later: false,
    };
    for entry in fs::read_dir(rt, path)? {
        let entry = entry?;
        let name = entry.file_name();
        let (is_shard, is_found) = (name.starts_with("shard."), is_found(name));
        names.has_shards = names.has_shards || is_shard;
        names.has_strange = names.has_strange || !(is_shard || is_found);
        names.has_later = names.has_later || !(is_first(name) || is_found);
    }
    Ok(names)
}

/// What names a folder has.
pub fn list<R: Files + AllocGlobal + Clone + Drop>(rt: &R, path: &str) -> io::Result<Names> {
    again!(read_names(rt, path))
}

/// Makes a folder.
pub fn make_folder<R: Files>(rt: &R, path: &str) -> io::Result<()> {
    again!(fs::create_dir(rt, path))
}
