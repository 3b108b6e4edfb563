//! Files in memory, by their names.
ghost use Rattle.std.specs.Prelude.{◌≡◌, ◌≢◌, ◌+◌, ◌^◌, ◌≤◌, ◌<◌, length, take, OnOk, OnErr, IfOk};
ghost use Rattle.gor_disk.specs.Names.{same_file};
ghost use Rattle.gor_disk.specs.Memory.{contents, place};
ghost use Rattle.gor_disk.specs.Disk.{overwritten};
ghost use Rattle.gor_disk.specs.declared.disk.FileId.{FileId as Name};

use crate::FileId;
use crate::editing::write_over;
use std::alloc::{AllocError, Global};

/// A file's name and its bytes.
#[derive(Drop)]
pub struct File {
    pub name: FileId,
    pub bytes: Vec<u8>,
}

fn is_same(a: FileId, b: FileId) -> bool
    ensures { result ≡ same_file a b }
{
    match (a, b) {
        (FileId::Marks, FileId::Marks) => true,
        (FileId::Keys(m), FileId::Keys(n)) => m == n,
        (FileId::Log(m), FileId::Log(n)) => m == n,
        (FileId::Block(m), FileId::Block(n)) => m == n,
        _ => false,
    }
}

fn place_of(files: &[File], name: FileId) -> usize
    ensures { result ≡ place files.now name }
{
    let mut i = 0;
    for file in files {
        if is_same(name, file.name) {
            return i;
        }
        i += 1;
    }
    i
}

/// The bytes of a file; none where it is not there.
pub fn bytes_of(files: &[File], name: FileId) -> &[u8]
    ensures { result.now ≡ contents files.now name }
{
    for file in files {
        if is_same(name, file.name) {
            return &file.bytes;
        }
    }
    &[]
}

/// Puts other bytes in the place of a file's. Without memory nothing has changed.
pub fn set_bytes(files: &mut Vec<File>, name: FileId, bytes: Vec<u8>) -> Result<(), AllocError>
    ensures bytes { OnOk result (contents files.new.items name ≡ bytes.items) }
    ensures others { OnOk result ((f : Name) → f ≢ name → contents files.new.items f ≡ contents files.old.items f) }
    ensures err { OnErr result (files.new.items ≡ files.old.items) }
{
    let i = place_of(files, name);
    if i < files.len() {
        files[i] = File { name, bytes };
    } else {
        files.push(File { name, bytes })?;
    }
    Ok(())
}

/// Writes bytes into a file in place, from `at` on. Without memory no file's bytes have changed.
pub fn write_file(
    alloc: Global,
    files: &mut Vec<File>,
    name: FileId,
    at: usize,
    bytes: &[u8],
) -> Result<(), AllocError>
    requires { at ≤ length (contents files.old.items name) }
    ensures done { OnOk result (contents files.new.items name ≡ overwritten at bytes.now (contents files.old.items name)) }
    ensures fits { OnOk result (at + length bytes.now < 2 ^ 63) }
    ensures others { (f : Name) → f ≢ name → contents files.new.items f ≡ contents files.old.items f }
    ensures err { OnErr result (contents files.new.items name ≡ contents files.old.items name) }
{
    let i = place_of(files, name);
    if i < files.len() {
        return write_over(&mut files[i].bytes, at, bytes);
    }
    let bytes = bytes.to_vec(alloc)?;
    files.push(File { name, bytes })?;
    Ok(())
}

/// Cuts a file in place.
pub fn cut_file(files: &mut Vec<File>, name: FileId, len: usize)
    requires { len ≤ length (contents files.old.items name) }
    ensures done { contents files.new.items name ≡ take len (contents files.old.items name) }
    ensures others { (f : Name) → f ≢ name → contents files.new.items f ≡ contents files.old.items f }
{
    let i = place_of(files, name);
    if i < files.len() {
        files[i].bytes.truncate(len);
    }
}

/// A copy of files.
pub fn copy_files(alloc: Global, files: &[File]) -> Result<Vec<File>, AllocError>
    ensures { IfOk result (λ copy. (f : Name) → contents copy.items f ≡ contents files.now f) }
{
    let mut copy = Vec::new(alloc);
    for file in files {
        let bytes = file.bytes.to_vec(alloc)?;
        copy.push(File {
            name: file.name,
            bytes,
        })?;
    }
    Ok(copy)
}
