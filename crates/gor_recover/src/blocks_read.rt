//! The block files that are live are read, oldest first, and their points gathered.
ghost use Rattle.std.specs.Prelude.{◌≡◌, ℕ, IfOk, IfErr, IsTrue};
ghost use Rattle.gor_disk.specs.declared.disk.FileId.TheVariants.{Block};
ghost use Rattle.gor_image.specs.Grammars.{rows_at};
ghost use Rattle.gor_image.specs.Images.{in_file, read_blocks};
ghost use Rattle.gor_recover.specs.Openings.{OnlyRead, IsMet, CountsOpenFault};
ghost use Rattle.gor_recover.specs.StoreReads.{HasRows, HasBlocks};

use crate::files::read_block_file;
use crate::recovered::OpenFault;
use crate::series::Series;
use gor_disk::Disk;
use std::alloc::Global;

/// Gathers the points of the block file of a window, which is then given up.
fn add_block_file<D: Disk>(
    alloc: Global,
    disk: &mut D,
    window: u32,
    series: &mut Series,
) -> Result<(), OpenFault>
    ensures ok { IfOk result (λ _. HasRows D.tells ((D.view disk.old).seen) window series.old series.new) }
    ensures err { IsTrue D.tells → IfErr result (IsMet (in_file (Block window) (rows_at window ((D.view disk.old).seen (Block window))))) }
    ensures same { IsTrue D.tells → OnlyRead (D.view disk.old) (D.view disk.new) }
    ensures cause { CountsOpenFault result (D.faults disk.old) (D.faults disk.new) }
{
    let parts = match read_block_file(alloc, disk, window) {
        Ok(parts) => parts,
        Err(fault) => return Err(fault),
    };
    match series.add_rows(&parts) {
        Ok(()) => Ok(()),
        Err(_) => Err(OpenFault::NoMemory),
    }
}

/// Gathers the points of the block files of some windows, one file at a time.
pub(crate) fn add_block_files<D: Disk>(
    alloc: Global,
    disk: &mut D,
    windows: &[u32],
    series: &mut Series,
) -> Result<(), OpenFault>
    ensures ok { IfOk result (λ _. HasBlocks D.tells ((D.view disk.old).seen) windows.now series.old series.new) }
    ensures err { IsTrue D.tells → IfErr result (IsMet (read_blocks ((D.view disk.old).seen) windows.now)) }
    ensures same { IsTrue D.tells → OnlyRead (D.view disk.old) (D.view disk.new) }
    ensures cause { CountsOpenFault result (D.faults disk.old) (D.faults disk.new) }
{
    for window in windows {
        if let Err(fault) = add_block_file(alloc, disk, *window, series) {
            return Err(fault);
        }
    }
    Ok(())
}
