//! A disk is recovered: read whole, checked and restored.
ghost use Rattle.std.specs.Prelude.{◌≡◌, ◌<◌, ℕ, [], length, Ok, IfOk, IfErr, IsTrue};
ghost use Rattle.gor_image.specs.Images.{opens_to, same_home};
ghost use Rattle.gor_recover.specs.Openings.{OnlyRead, IsMet, CountsOpenFault};
ghost use Rattle.gor_recover.specs.NamesRead.{IsCalm};
ghost use Rattle.gor_recover.specs.Recovered.{IsRecovered};
ghost use Rattle.gor_recover.specs.declared.recovered.OpenFault.TheVariants as refused;
ghost use Rattle.gor_recover.specs.Recovers.{AreHomed, Opens, OpensStore, IsFresh, store_opens};

use crate::base::based_on;
use crate::files::read_marks;
use crate::gathering::gather;
use crate::recovered::{LogTop, OpenFault, Recovered};
use crate::restore::restore;
use gor_disk::Disk;
use gor_image::ImageFault;
use gor_marks::Mark;
use std::alloc::Global;

/// Refuses marks of another shard, or of a store of another count of shards.
fn check_home(marks: &[Mark], shards: u32, shard: u32) -> Result<(), OpenFault>
    ensures ok { IfOk result (λ _. same_home shards shard marks.now ≡ Ok tt) }
    ensures err { IfErr result (IsMet (same_home shards shard marks.now)) }
    ensures calm { IfErr result IsCalm }
{
    let Some(
        Mark::Home {
            shards: found_shards,
            shard: found_shard,
        },
    ) = marks.first()
    else {
        return Ok(());
    };
    if *found_shards == shards && *found_shard == shard {
        return Ok(());
    }
    Err(OpenFault::Image(ImageFault::Home {
        found_shards: *found_shards,
        found_shard: *found_shard,
        asked_shards: shards,
        asked_shard: shard,
    }))
}

/// What a shard whose files were never written begins from.
fn fresh(alloc: Global) -> Result<Recovered, OpenFault>
    ensures fresh { IfOk result IsFresh }
    ensures err { IfErr result (λ fault. fault ≡ refused.NoMemory) }
{
    let mut tops = Vec::new(alloc);
    match tops.push(LogTop { log: 0, top: None }) {
        Ok(()) => Ok(Recovered {
            fresh: true,
            floor: 0,
            next: 1,
            marks: Vec::new(alloc),
            tops,
            rows: Vec::new(alloc),
        }),
        Err(_) => Err(OpenFault::NoMemory),
    }
}

/// What the files that some marks name stand for.
fn open_store<D: Disk>(
    alloc: Global,
    disk: &mut D,
    marks: Vec<Mark>,
    slots: u32,
) -> Result<Recovered, OpenFault>
    requires some { 0 < length marks.items }
    requires home { AreHomed marks.items }
    ensures ok { IfOk result (OpensStore D.tells ((D.view disk.old).seen) marks.items slots) }
    ensures err { IsTrue D.tells → IfErr result (IsMet (store_opens ((D.view disk.old).seen) marks.items slots)) }
    ensures same { IsTrue D.tells → OnlyRead (D.view disk.old) (D.view disk.new) }
    ensures cause { CountsOpenFault result (D.faults disk.old) (D.faults disk.new) }
{
    let base = based_on(&marks);
    match gather(alloc, disk, &marks, base) {
        Ok(store) => restore(alloc, base.current, base.upto, slots, marks, store),
        Err(fault) => Err(fault),
    }
}

/// The map that the files of a shard stand for, with what its device goes on from. It reads the files whole, one after
/// another, and writes nothing; where there is no mark, it reads no other file.
///
/// `shards` and `shard` are whose files these should be, and `slots` how many slots the shard has. The refusals come in
/// this order: damage of the marks, another home, damage of the key list, of the live block files by rising window and of
/// the remaining logs by rising number, a record of the key list that has no place, points that do not rise, a slot that is
/// not given, and change numbers that end. `Disk` comes only where the disk's count of faults rose, and `NoMemory` where
/// memory was wanting; it takes the memory of the points of all series that the key list begins, twice at most, and of the
/// largest file.
pub fn recover<D: Disk>(
    alloc: Global,
    disk: &mut D,
    shards: u32,
    shard: u32,
    slots: u32,
) -> Result<Recovered, OpenFault>
    // What is recovered is the start of what the image opens to.
    ensures ok { IsTrue D.tells → IfOk result (Opens ((D.view disk.old).seen) shards shard slots) }
    // A fault of the image is the one that opening it meets.
    ensures err { IsTrue D.tells → IfErr result (IsMet (opens_to ((D.view disk.old).seen) shards shard slots)) }
    // On every disk it is a start, where a shard may have these slots, with marks and logs to go on from.
    ensures start { IfOk result (IsRecovered shards shard slots) }
    ensures same { IsTrue D.tells → OnlyRead (D.view disk.old) (D.view disk.new) }
    ensures cause { CountsOpenFault result (D.faults disk.old) (D.faults disk.new) }
{
    let marks = match read_marks(alloc, disk) {
        Ok(marks) => marks,
        Err(fault) => return Err(fault),
    };
    if marks.is_empty() {
        return fresh(alloc);
    }
    if let Err(fault) = check_home(&marks, shards, shard) {
        return Err(fault);
    }
    open_store(alloc, disk, marks, slots)
}
