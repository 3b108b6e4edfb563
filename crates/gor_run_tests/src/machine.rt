//! One call of a top call, on a disk beside fifteen that are not to be called.
ghost use Rattle.std.specs.Prelude.{◌≡◌, ◌≤◌, length, IfOk, IsTrue};
ghost use Rattle.std.specs.List.{AllByRecursion};
ghost use Rattle.gor_disk.specs.Disk.{NothingPending};

use gor_disk::{Disk, DiskCall, DiskKind, MemoryDisk};
use gor_outside::{MemorySink, MemorySource, Pause, Sink};
use gor_run::{Outcome, dump, run};
use std::alloc::{AllocError, Global};
use std::sync::Wait;
use std::thread::Threads;

/// The input of a run: its bytes, or how they are made.
#[derive(Clone, Copy)]
pub enum Input {
    Bytes(&'static [u8]),
    /// So many bytes of a comment.
    Comment(usize),
    /// A delete of a name of so many bytes.
    LongName(usize),
    /// So many puts, each as late as three others, in turn for four names.
    FourNames(u32),
    /// Puts to the name `a`, one a second, from second 1 until before this one.
    OneName(u32),
}

/// What fails: a call of the source, of the sink or of the disk, by its place from 0.
#[derive(Clone, Copy)]
pub enum Fails {
    Nothing,
    Read(u64),
    Write(u64),
    Disk(u64),
}

/// What a top call is handed beside its disks.
#[derive(Drop)]
pub struct Call {
    pub words: Vec<String>,
    pub source: MemorySource,
    pub sink: MemorySink,
}

fn words_of(alloc: Global, text: &str) -> Result<Vec<String>, AllocError> {
    let mut words = Vec::new(alloc);
    for word in text.split(' ') {
        words.push(String::from_str(alloc, word)?)?;
    }
    Ok(words)
}

/// The places of the reads, of the writes and of the calls of the disk that fail, of which there is one at most.
fn places(fails: Fails) -> (Option<u64>, Option<u64>, Option<u64>) {
    match fails {
        Fails::Nothing => (None, None, None),
        Fails::Read(place) => (Some(place), None, None),
        Fails::Write(place) => (None, Some(place), None),
        Fails::Disk(place) => (None, None, Some(place)),
    }
}

/// A list of one number, or of none.
fn at(alloc: Global, place: Option<u64>) -> Result<Vec<u64>, AllocError> {
    let mut places = Vec::new(alloc);
    if let Some(place) = place {
        places.push(place)?;
    }
    Ok(places)
}

fn four_names(alloc: Global, lines: u32) -> Result<Vec<u8>, AllocError> {
    let mut text = Vec::new(alloc);
    for line in 0..lines {
        let (name, time) = (line % 4, line / 4);
        let put = format!(in alloc; "0 put name.{name} {time} 0000000000000000\n")?;
        text.extend_from_slice(put.as_bytes())?;
    }
    Ok(text)
}

fn one_name(alloc: Global, end: u32) -> Result<Vec<u8>, AllocError> {
    let mut text = Vec::new(alloc);
    for time in 1..end {
        let put = format!(in alloc; "0 put a {time} 0000000000000000\n")?;
        text.extend_from_slice(put.as_bytes())?;
    }
    Ok(text)
}

fn long_name(alloc: Global, length: usize) -> Result<Vec<u8>, AllocError> {
    let mut text = b"0 del ".to_vec(alloc)?;
    text.resize(text.len().saturating_add(length), b'x')?;
    Ok(text)
}

fn bytes_of(alloc: Global, input: Input) -> Result<Vec<u8>, AllocError> {
    match input {
        Input::Bytes(bytes) => bytes.to_vec(alloc),
        Input::Comment(length) => vec![in alloc; b'#'; length],
        Input::LongName(length) => long_name(alloc, length),
        Input::FourNames(lines) => four_names(alloc, lines),
        Input::OneName(end) => one_name(alloc, end),
    }
}

/// A source that gives a thousand bytes a call.
fn source_of(alloc: Global, input: Input, fails: Fails) -> Result<MemorySource, AllocError> {
    let failing = at(alloc, places(fails).0)?;
    Ok(MemorySource::new(bytes_of(alloc, input)?, 1000, failing))
}

/// What a call is handed whose sink takes so many bytes a call.
pub fn call_of(
    alloc: Global,
    words: &str,
    input: Input,
    fails: Fails,
    piece: usize,
) -> Result<Call, AllocError>
    requires { 1 ≤ piece }
{
    let words = words_of(alloc, words)?;
    let sink = MemorySink::new(alloc, piece, at(alloc, places(fails).1)?);
    Ok(Call {
        words,
        source: source_of(alloc, input, fails)?,
        sink,
    })
}

/// An empty disk of which a call may fail.
pub fn disk_of(alloc: Global, fails: Fails) -> Result<MemoryDisk, AllocError>
    ensures { IfOk result (λ disk. NothingPending (⟦<MemoryDisk as Disk>⟧.view disk)) }
{
    Ok(MemoryDisk::failing(alloc, at(alloc, places(fails).2)?))
}

/// Sixteen disks: this one, and others that hold nothing.
pub fn disks_with(alloc: Global, first: MemoryDisk) -> Result<Vec<MemoryDisk>, AllocError>
    ensures sixteen { IfOk result (λ disks. length disks.items ≡ 16) }
    ensures pending { NothingPending (⟦<MemoryDisk as Disk>⟧.view first) → IfOk result (λ disks. AllByRecursion (λ d. NothingPending (⟦<MemoryDisk as Disk>⟧.view d)) disks.items) }
{
    Ok(vec![in alloc;
        first,
        MemoryDisk::new(alloc),
        MemoryDisk::new(alloc),
        MemoryDisk::new(alloc),
        MemoryDisk::new(alloc),
        MemoryDisk::new(alloc),
        MemoryDisk::new(alloc),
        MemoryDisk::new(alloc),
        MemoryDisk::new(alloc),
        MemoryDisk::new(alloc),
        MemoryDisk::new(alloc),
        MemoryDisk::new(alloc),
        MemoryDisk::new(alloc),
        MemoryDisk::new(alloc),
        MemoryDisk::new(alloc),
        MemoryDisk::new(alloc),
    ]?)
}

/// A run, of which nothing is told here.
pub fn called_run<R: AllocGlobal + Threads + Wait + Sync, K: Sink, D: Disk + Send, P: Pause + Sync>(
    rt: &R,
    words: &[String],
    source: &mut MemorySource,
    sink: &mut K,
    disks: Vec<D>,
    pause: &P,
) -> Outcome<D>
    requires sixteen { length disks.items ≡ 16 }
    requires pending { IsTrue D.tells → AllByRecursion (λ d. NothingPending (D.view d)) disks.items }
{
    run(rt, words, source, sink, disks, pause)
}

/// A dump, of which nothing is told here.
pub fn called_dump<R: AllocGlobal, K: Sink, D: Disk>(
    rt: &R,
    words: &[String],
    sink: &mut K,
    disks: Vec<D>,
) -> Outcome<D>
    requires { length disks.items ≡ 16 }
{
    dump(rt, words, sink, disks)
}

fn are_uncalled(disks: &[MemoryDisk]) -> bool {
    for disk in disks {
        if !disk.calls().is_empty() {
            return false;
        }
    }
    true
}

/// Puts the first disk back, and says whether sixteen came, of which no other was called.
pub fn take_first(disk: &mut MemoryDisk, disks: Vec<MemoryDisk>) -> bool {
    let mut disks = disks;
    if disks.len() != 16 {
        return false;
    }
    let first = disks.swap_remove(0);
    *disk = first;
    are_uncalled(&disks)
}

/// Whether a disk was only read behind its first calls.
pub fn is_only_read(calls: &[DiskCall], before: usize) -> bool {
    for call in calls.iter().skip(before) {
        if call.kind != DiskKind::Len && call.kind != DiskKind::Read {
            return false;
        }
    }
    true
}
