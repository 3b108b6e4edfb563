//! The files of a finish and then its mark: a caller that knows no more of the calls than what they promise.
ghost use Rattle.std.specs.Prelude.{◌≡◌, IsTrue};
ghost use Rattle.gor_disk.specs.declared.disk.FileId.TheVariants.{Marks};
ghost use Rattle.gor_disk.specs.Disk.{CountsFault};
ghost use Rattle.gor_gate.specs.Places.{IsEnsured};
ghost use Rattle.gor_seal_tests.specs.Turnover.{TurnsOver};

use crate::looks::{framed, holds};
use crate::marks::ready;
use gor_disk::{DeviceFault, Disk, FileId, MemoryDisk};
use gor_gate::{Frame, Gated};
use gor_seal::{begin_log, write_blocks, write_keys_file, write_mark_file};
use std::alloc::{AllocError, Global};
use std::test::Fail;

/// Writes the block file, the key list, the log and then the mark. At each moment a crash leaves the state that there was.
pub fn turn_over<D: Disk>(
    disk: &mut D,
    window: u32,
    number: u32,
    blocks: &[u8],
    list: &mut Frame,
    marks: &mut Gated,
    mark: &mut Frame,
) -> Result<(), DeviceFault>
    requires file { marks.old.file ≡ Marks }
    requires ensured { IsTrue D.tells → IsEnsured marks.old (D.view disk.old) }
    ensures kept { IsTrue D.tells → TurnsOver window number blocks.now list.old.body mark.old.body (D.view disk.old) (D.view disk.new) }
    ensures cause { CountsFault result (D.faults disk.old) (D.faults disk.new) }
{
    write_blocks(disk, window, blocks)?;
    write_keys_file(disk, number, list)?;
    begin_log(disk, number)?;
    write_mark_file(disk, marks, mark)
}

/// The files that are wanted: a body of one byte, and one of two as the mark.
const FILES: [(FileId, &[u8]); 4] = [
    (FileId::Block(5), b"GORB"),
    (FileId::Keys(1), &[1, 0, 0, 0, 0, 0, 0, 0, 1, 7, 0]),
    (FileId::Log(1), &[0]),
    (FileId::Marks, &[1, 0, 0, 0, 0, 0, 0, 0, 2, 8, 9, 0]),
];

fn is_turned(alloc: Global) -> Result<bool, AllocError> {
    let mut list = framed(alloc, &[7])?;
    let mut mark = framed(alloc, &[8, 9])?;
    let mut disk = MemoryDisk::new(alloc);
    let Some(mut marks) = ready(&mut disk) else {
        return Ok(false);
    };
    let turned = turn_over(&mut disk, 5, 1, b"GORB", &mut list, &mut marks, &mut mark);
    let calls = disk.calls().len();
    for (file, want) in FILES {
        if !holds(alloc, &mut disk, file, want)? {
            return Ok(false);
        }
    }
    Ok(turned.is_ok() && calls == 16)
}

#[test]
fn a_store_is_turned_over(rt: HostRuntime) -> Result<(), Fail> {
    assert!(rt; is_turned(rt.alloc())?);
    Ok(())
}
