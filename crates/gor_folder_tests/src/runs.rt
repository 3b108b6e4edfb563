//! Whole runs and dumps on real folders.
ghost use Rattle.std.specs.Prelude.{◌≡◌, ◌<◌, ◌^◌, length, None};

use crate::watched::{Call, NO_PLAN, Watched};
use gor_disk::{Disk, FileId};
use gor_folder::{FolderDisk, dump_disks, store_disks};
use gor_outside::{Failed, MemorySink, MemorySource, NoPause, Sink};
use gor_run::{Outcome, Status, dump, run};
use std::alloc::{AllocError, Global};
use std::fs;
use std::sync::Wait;
use std::thread::Threads;

type WatchedDisk = FolderDisk<Watched>;

/// The words of a command line.
fn words_of(alloc: Global, text: &str) -> Result<Vec<String>, AllocError> {
    let mut words = Vec::new(alloc);
    for word in text.split(' ') {
        words.push(String::from_str(alloc, word)?)?;
    }
    Ok(words)
}

/// A run on some disks.
fn ran<R: AllocGlobal + Threads + Wait + Sync, K: Sink>(
    rt: &R,
    disks: Vec<WatchedDisk>,
    input: &[u8],
    sink: &mut K,
) -> Result<Outcome<WatchedDisk>, AllocError>
    requires { length disks.items ≡ 16 }
{
    let alloc = rt.alloc();
    let words = words_of(alloc, "run --shards 1")?;
    let mut source = MemorySource::new(input.to_vec(alloc)?, 4096, Vec::new(alloc));
    Ok(run(rt, &words, &mut source, sink, disks, &NoPause))
}

/// Whether a call ended with this status, and this is told of the disk of shard 0.
fn has_told(
    alloc: Global,
    outcome: &Outcome<WatchedDisk>,
    status: Status,
    wanted: &str,
) -> Result<bool, AllocError> {
    let Some(told) = outcome.disks.first().and_then(|disk| disk.cause()) else {
        return Ok(wanted.is_empty() && outcome.status == status);
    };
    let text = format!(in alloc; "{told}")?;
    Ok(text.as_str() == wanted && outcome.status == status)
}

/// Whether a run in a folder answers so, and ends so.
fn runs<R: AllocGlobal + Threads + Wait + Sync>(
    rt: &R,
    disks: Vec<WatchedDisk>,
    input: &[u8],
    text: &[u8],
    status: Status,
    wanted: &str,
) -> Result<bool, AllocError>
    requires { length disks.items ≡ 16 }
{
    let mut sink = MemorySink::new(rt.alloc(), 4096, Vec::new(rt.alloc()));
    let outcome = ran(rt, disks, input, &mut sink)?;
    Ok(sink.bytes() == text && has_told(rt.alloc(), &outcome, status, wanted)?)
}

/// Whether a dump of a folder writes this, and ends so.
fn dumps(
    rt: &Watched,
    store: &str,
    text: &[u8],
    status: Status,
    wanted: &str,
) -> Result<bool, AllocError> {
    let alloc = rt.alloc();
    let words = words_of(alloc, "dump")?;
    let mut sink = MemorySink::new(alloc, 4096, Vec::new(alloc));
    let outcome = dump(rt, &words, &mut sink, dump_disks(rt, store)?);
    Ok(sink.bytes() == text && has_told(alloc, &outcome, status, wanted)?)
}

const PUT: &[u8] = b"0 put a 10 0000000000000001\n0 flush 0\n";

const PUT_TEXT: &[u8] = b"0 0:0 stored\n0 0:1 take 1\n0 0:2 done 1\n";

const PUT_DUMP: &[u8] = b"0 a floor 0 points 1 10:0000000000000001\n";

const FAILED: Status = Status::DeviceFault { shard: 0 };

const IN_USE: &str = "two_of_a_test/shard.0: in use by another run";

/// A run has its folder from its first call on. Another run and a dump are refused meanwhile, and the first is whole.
fn two<R: AllocGlobal + Threads + Wait + Sync>(
    rt: &R,
    watched: &Watched,
) -> Result<bool, AllocError> {
    let store = "two_of_a_test";
    let mut first = store_disks(watched, store)?;
    let is_held = match first.first_mut() {
        Some(disk) => disk.len(FileId::Marks).is_ok(),
        None => false,
    };
    let is_refused = runs(rt, store_disks(watched, store)?, PUT, b"", FAILED, IN_USE)?
        && dumps(watched, store, b"", FAILED, IN_USE)?;
    let is_whole = runs(rt, first, PUT, PUT_TEXT, Status::Ok, "")?;
    Ok(is_held && is_refused && is_whole && dumps(watched, store, PUT_DUMP, Status::Ok, "")?)
}

#[test]
fn the_second_of_two_runs_is_refused(rt: HostRuntime) -> Result<(), AllocError> {
    let _ = fs::remove_dir_all(&rt, "two_of_a_test");
    let went = two(&rt, &Watched::new(&rt, NO_PLAN)?)?;
    assert!(rt; went);
    assert!(rt; fs::remove_dir_all(&rt, "two_of_a_test").is_ok());
    Ok(())
}

/// A store whose marks are lost is refused by both calls.
fn lost<R: AllocGlobal + Threads + Wait + Sync>(
    rt: &R,
    watched: &Watched,
) -> Result<bool, AllocError> {
    let (store, marks) = ("marks_of_a_test", "marks_of_a_test/shard.0/marks");
    let wanted = "marks_of_a_test/shard.0/keys.0: holds bytes, and marks holds no mark";
    let is_laid = runs(
        rt,
        store_disks(watched, store)?,
        PUT,
        PUT_TEXT,
        Status::Ok,
        "",
    )?;
    let is_lost = fs::remove_file(watched.host(), marks).is_ok();
    let is_refused = runs(rt, store_disks(watched, store)?, PUT, b"", FAILED, wanted)?
        && dumps(watched, store, b"", FAILED, wanted)?;
    Ok(is_laid && is_lost && is_refused && fs::exists(watched.host(), marks).ok() == Some(false))
}

#[test]
fn a_run_without_its_marks_is_refused(rt: HostRuntime) -> Result<(), AllocError> {
    let _ = fs::remove_dir_all(&rt, "marks_of_a_test");
    let went = lost(&rt, &Watched::new(&rt, NO_PLAN)?)?;
    assert!(rt; went);
    assert!(rt; fs::remove_dir_all(&rt, "marks_of_a_test").is_ok());
    Ok(())
}

/// A sink that moves a folder away at its first write, and keeps what it is given.
#[derive(Drop)]
struct Mover {
    rt: HostRuntime,
    from: &'static str,
    to: &'static str,
    text: Vec<u8>,
    faults: u64,
    ghost in_range: { faults < 2 ^ 64 },
}

impl Sink for Mover {
    ghost held = { λ _. None };

    ghost faults = { λ s. s.faults };

    ghost faults_fit = { λ s. s.in_range };

    fn write(&mut self, piece: &[u8]) -> Result<usize, Failed> {
        if self.text.is_empty() {
            let _ = fs::rename(&self.rt, self.from, self.to);
        }
        if self.text.extend_from_slice(piece).is_ok() {
            return Ok(piece.len());
        }
        self.faults = self.faults.saturating_add(1);
        Err(Failed)
    }
}

/// The store is moved away behind the first phase: nothing is answered as flushed after that.
fn moved<R: AllocGlobal + Threads + Wait + Sync>(
    rt: &R,
    watched: &Watched,
) -> Result<bool, AllocError> {
    let (alloc, store) = (rt.alloc(), "moved_of_a_test");
    let mut sink = Mover {
        rt: watched.host().clone()?,
        from: store,
        to: "moved_away_of_a_test",
        text: Vec::new(alloc),
        faults: 0,
    };
    let input =
        b"0 put a 10 0000000000000001\n0 flush 0\njoin\n0 put a 20 0000000000000001\n0 flush 0\n0 put a 30 0000000000000001\n0 flush 0\n";
    let text =
        b"0 0:0 stored\n0 0:1 take 1\n0 0:2 done 1\n0 0:3 stored\n0 0:4 take 1\n0 0:5 stop\n0 0:6 stopped\n0 0:7 stopped\n";
    let wanted = "moved_of_a_test/shard.0/log.0: was moved, removed or replaced";
    let outcome = ran(rt, store_disks(watched, store)?, input, &mut sink)?;
    Ok(sink.text.as_slice() == text.as_slice() && has_told(alloc, &outcome, FAILED, wanted)?)
}

#[test]
fn a_run_whose_folder_is_moved_stops(rt: HostRuntime) -> Result<(), AllocError> {
    let _ = fs::remove_dir_all(&rt, "moved_of_a_test");
    let _ = fs::remove_dir_all(&rt, "moved_away_of_a_test");
    let went = moved(&rt, &Watched::new(&rt, NO_PLAN)?)?;
    assert!(rt; went);
    // No folder was made in its place.
    assert!(rt; fs::exists(&rt, "moved_of_a_test").ok() == Some(false));
    assert!(rt; fs::remove_dir_all(&rt, "moved_away_of_a_test").is_ok());
    Ok(())
}

/// What a run asks of the system.
#[derive(Clone, Copy, PartialEq, Eq)]
struct Asked {
    opens: u64,
    made: u64,
    writes: u64,
    syncs: u64,
    folder_syncs: u64,
    unstable_names: u64,
}

/// A put and a flush, so many times.
fn flushes(alloc: Global, count: u32) -> Result<Vec<u8>, AllocError> {
    let mut text = Vec::new(alloc);
    for time in 0..count {
        let lines = format!(in alloc; "0 put a {time} 0000000000000001\n0 flush 0\n")?;
        text.extend_from_slice(lines.as_bytes())?;
    }
    Ok(text)
}

/// What a run of so many flushes on a new store asks of the system; none where it does not end well.
fn asked_for<R: AllocGlobal + Threads + Wait + Sync>(
    rt: &R,
    host: &HostRuntime,
    count: u32,
) -> Result<Option<Asked>, AllocError> {
    let (watched, store) = (Watched::new(host, NO_PLAN)?, "flushes_of_a_test");
    let _ = fs::remove_dir_all(host, store);
    let mut sink = MemorySink::new(rt.alloc(), 4096, Vec::new(rt.alloc()));
    let input = flushes(rt.alloc(), count)?;
    let outcome = ran(rt, store_disks(&watched, store)?, &input, &mut sink)?;
    if outcome.status != Status::Ok || fs::remove_dir_all(host, store).is_err() {
        return Ok(None);
    }
    let calls = watched.calls();
    Ok(Some(Asked {
        opens: calls.count(Call::Open),
        made: calls.count(Call::MakeFile),
        writes: calls.count(Call::Write),
        syncs: calls.count(Call::Sync),
        folder_syncs: calls.count(Call::SyncFolder),
        unstable_names: calls.count(Call::NewNames),
    }))
}

/// Whether another run asks for two writes and two syncs more for each flush more, and for nothing else.
fn is_more(asked: Asked, before: Asked, flushes: u64) -> bool {
    let more = flushes.saturating_mul(2);
    asked
        == Asked {
            writes: before.writes.saturating_add(more),
            syncs: before.syncs.saturating_add(more),
            ..before
        }
}

/// A flush to a known name is two writes and two syncs, and every name that was made is stable by its folder's sync.
fn flushed<R: AllocGlobal + Threads + Wait + Sync>(
    rt: &R,
    host: &HostRuntime,
) -> Result<bool, AllocError> {
    let (Some(one), Some(two), Some(many)) = (
        asked_for(rt, host, 1)?,
        asked_for(rt, host, 2)?,
        asked_for(rt, host, 300)?,
    ) else {
        return Ok(false);
    };
    // The three folders on the way are opened for their names, which are synced once; and so is each of the three files that
    // are made, with its folder.
    let is_first = one.made == 3
        && one.opens == 3
        && one.folder_syncs == 6
        && one.unstable_names == 0;
    Ok(is_first && is_more(two, one, 1) && is_more(many, two, 298))
}

#[test]
fn a_flush_is_two_writes_and_two_syncs(rt: HostRuntime) -> Result<(), AllocError> {
    let went = flushed(&rt, &rt)?;
    assert!(rt; went);
    Ok(())
}
