//! A disk that measures its syncs.
use crate::report::{nanos_since, now};
use gor_disk::{Disk, DiskFailed, FileId};
use std::time::Clock;

/// A disk, with the time that its syncs took. It tells what the disk tells, and its faults are the disk's.
#[derive(Drop)]
pub struct TimedDisk<D: Disk, C: Clock + Drop> {
    pub disk: D,
    pub clock: C,
    /// How often it was asked to make a file stable.
    pub syncs: u64,
    /// The nanoseconds that its syncs took; one whose time is not known has none.
    pub nanos: u64,
}

impl<D: Disk, C: Clock + Drop> Disk for TimedDisk<D, C> {
    ghost tells = { D.tells };

    ghost view = { λ d. D.view d.disk };

    ghost faults = { λ d. D.faults d.disk };

    ghost seen_may_stay = { λ d. D.seen_may_stay d.disk };

    ghost faults_fit = { λ d. D.faults_fit d.disk };

    fn len(&mut self, file: FileId) -> Result<u64, DiskFailed> {
        self.disk.len(file)
    }

    fn read_at(&mut self, file: FileId, at: u64, into: &mut [u8]) -> Result<(), DiskFailed> {
        self.disk.read_at(file, at, into)
    }

    fn write_at(&mut self, file: FileId, at: u64, bytes: &[u8]) -> Result<(), DiskFailed> {
        self.disk.write_at(file, at, bytes)
    }

    fn cut(&mut self, file: FileId, len: u64) -> Result<(), DiskFailed> {
        self.disk.cut(file, len)
    }

    fn sync(&mut self, file: FileId) -> Result<(), DiskFailed> {
        let begin = now(&self.clock);
        let answer = self.disk.sync(file);
        self.syncs = self.syncs.saturating_add(1);
        if let Ok(begin) = begin {
            let passed = nanos_since(&self.clock, begin).unwrap_or(0);
            self.nanos = self.nanos.saturating_add(passed);
        }
        answer
    }
}
