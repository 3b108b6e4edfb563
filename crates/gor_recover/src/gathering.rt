//! The files that the marks name are read into one store.
ghost use Rattle.std.specs.Prelude.{◌≡◌, ◌≤◌, ℕ, IfOk, IfErr, IsTrue};
ghost use Rattle.gor_image.specs.Images.{read_files};
ghost use Rattle.gor_image.specs.Recovery.{base_end};
ghost use Rattle.gor_recover.specs.Openings.{OnlyRead, IsMet, CountsOpenFault};
ghost use Rattle.gor_recover.specs.StoreReads.{IsBasedOn};
ghost use Rattle.gor_recover.specs.LogReads.{AreNoLogs};
ghost use Rattle.gor_recover.specs.Gathers.{GathersAll};

use crate::base::{Based, live_windows};
use crate::blocks_read::add_block_files;
use crate::files::read_key_list;
use crate::logs::Logs;
use crate::logs_read::add_logs;
use crate::records::PlacedKey;
use crate::recovered::OpenFault;
use crate::series::Series;
use gor_disk::Disk;
use gor_marks::Mark;
use gor_model::windows::end_of;
use std::alloc::Global;

/// What is gathered of the files that the marks name.
#[derive(Drop)]
pub(crate) struct GatheredFiles {
    pub keys: Vec<PlacedKey>,
    pub series: Series,
    pub logs: Logs,
}

/// No log is read yet; the floor is the end of the last window that is sealed.
fn no_logs(alloc: Global, base: Option<u32>) -> Logs
    ensures none { AreNoLogs result }
    ensures floor { result.floor ≡ base_end base }
{
    let floor = match base {
        Some(window) => end_of(window),
        None => 0,
    };
    Logs {
        ranges: Vec::new(alloc),
        tops: Vec::new(alloc),
        floor,
        last: 0,
    }
}

/// Reads the files that the marks name, in their order, and gathers what they have by series. Each file is given up before
/// the next one, but for the records of the key list.
pub(crate) fn gather<D: Disk>(
    alloc: Global,
    disk: &mut D,
    marks: &[Mark],
    base: Based,
) -> Result<GatheredFiles, OpenFault>
    requires order { base.first_log ≤ base.current }
    ensures ok { IfOk result (GathersAll D.tells ((D.view disk.old).seen) marks.now base) }
    ensures err { IsTrue D.tells → IsBasedOn marks.now base → IfErr result (IsMet (read_files ((D.view disk.old).seen) marks.now)) }
    ensures same { IsTrue D.tells → OnlyRead (D.view disk.old) (D.view disk.new) }
    ensures cause { CountsOpenFault result (D.faults disk.old) (D.faults disk.new) }
{
    let keys = match read_key_list(alloc, disk, base.current, base.current > 0, base.upto) {
        Ok(keys) => keys,
        Err(fault) => return Err(fault),
    };
    let Ok(mut series) = Series::begun(alloc, &keys) else {
        return Err(OpenFault::NoMemory);
    };
    let Ok(windows) = live_windows(alloc, marks, base.window.unwrap_or(0)) else {
        return Err(OpenFault::NoMemory);
    };
    if let Err(fault) = add_block_files(alloc, disk, &windows, &mut series) {
        return Err(fault);
    }
    let mut logs = no_logs(alloc, base.window);
    if let Err(fault) = add_logs(
        alloc,
        disk,
        base.first_log,
        base.current,
        base.window,
        &mut series,
        &mut logs,
    ) {
        return Err(fault);
    }
    Ok(GatheredFiles { keys, series, logs })
}
