//! A disk that tells nothing: each file is empty, and what is written is gone. A device on it stands for a shard of any rows.
ghost use Rattle.std.specs.Prelude.{◌^◌, ◌<◌, false, []};

use gor_disk::{Disk, DiskFailed, FileId};

#[derive(Drop)]
pub(crate) struct SilentDisk {
    faults: u64,
    ghost in_range: { faults < 2 ^ 64 },
}

impl SilentDisk {
    pub(crate) fn new() -> SilentDisk {
        SilentDisk { faults: 0 }
    }
}

impl Disk for SilentDisk {
    ghost use Rattle.std.proofs.lemmas.Bool.{false≢true};
    ghost use Rattle.gor_disk.specs.Disk.{settled};

    ghost tells = { false };

    ghost view = { λ d. record { seen = λ f. []; moment = 0; held = λ t f. settled [] } };

    ghost faults = { λ d. d.faults };

    ghost seen_may_stay = { λ d f told. absurd (false≢true told) };

    ghost faults_fit = { λ d. d.in_range };

    fn len(&mut self, file: FileId) -> Result<u64, DiskFailed> {
        let _ = file;
        Ok(0)
    }

    fn read_at(&mut self, file: FileId, at: u64, into: &mut [u8]) -> Result<(), DiskFailed> {
        let _ = (file, at, into.len());
        Ok(())
    }

    fn write_at(&mut self, file: FileId, at: u64, bytes: &[u8]) -> Result<(), DiskFailed> {
        let _ = file;
        if at < 1 << 63 && (bytes.len() as u64) < (1 << 63) - at {
            return Ok(());
        }
        self.faults = self.faults.saturating_add(1);
        Err(DiskFailed)
    }

    fn cut(&mut self, file: FileId, len: u64) -> Result<(), DiskFailed> {
        let _ = (file, len);
        Ok(())
    }

    fn sync(&mut self, file: FileId) -> Result<(), DiskFailed> {
        let _ = file;
        Ok(())
    }
}
