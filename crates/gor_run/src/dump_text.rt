//! The text of a dump.
ghost use Rattle.std.specs.Prelude.{◌≡◌, ◌++◌, flat_map, length, map, IfOk, OnOk};
ghost use Rattle.std.specs.List.Sorted.{IsPermutation, IsSortedByKey};
ghost use Rattle.std.specs.Ordering.{nat_cmp};
ghost use Rattle.std.specs.Cmp.Lexicographic.{slice_cmp};
ghost use Rattle.gor_recover.specs.Recovered.{keyed_row, recovered_start};
ghost use Rattle.gor_model.specs.Names.{key_of};
ghost use Rattle.gor_run.specs.Dumps.{IsDumpOf, floor_part, row_line};
ghost use Rattle.gor_run.specs.Words.{most_slots};

use gor_recover::{Recovered, RecoveredRow};
use gor_text::{write_floor, write_series};
use std::alloc::{AllocError, Global};

/// The only shard of a store of one.
pub const ONLY_SHARD: u32 = 0;

/// Adds the line of the shard's floor, where that is not 0.
fn push_floor(text: &mut Vec<u8>, floor: u64) -> Result<(), AllocError>
    ensures { OnOk result (text.new.items ≡ text.old.items ++ floor_part 0 floor) }
{
    if floor == 0 {
        return Ok(());
    }
    write_floor(text, ONLY_SHARD, floor)
}

/// Adds the line of a series.
fn push_row(text: &mut Vec<u8>, row: &RecoveredRow) -> Result<(), AllocError>
    ensures { OnOk result (text.new.items ≡ text.old.items ++ row_line 0 (keyed_row row.now)) }
{
    let name = row.name.text().as_bytes();
    write_series(text, ONLY_SHARD, name, row.floor, &row.points)
}

/// Adds the lines of series in their order.
fn push_rows(text: &mut Vec<u8>, rows: &[RecoveredRow]) -> Result<(), AllocError>
    ensures { OnOk result (text.new.items ≡ text.old.items ++ flat_map (row_line 0) (map keyed_row rows.now)) }
{
    for row in rows {
        push_row(text, row)?;
    }
    Ok(())
}

/// Sorts series by the bytes of their keys.
fn sort_rows(rows: &mut [RecoveredRow])
    ensures len { length rows.new ≡ length rows.old }
    ensures all { IsPermutation rows.old rows.new }
    ensures ordered { IsSortedByKey (λ row. key_of row.name) (slice_cmp nat_cmp) rows.new }
{
    rows.sort_unstable_by(|a, b| a.name.key().cmp(b.name.key()));
}

/// The text of a dump of what was recovered.
pub fn dump_text(alloc: Global, recovered: Recovered) -> Result<Vec<u8>, AllocError>
    ensures { IfOk result (λ text. IsDumpOf 0 (recovered_start most_slots recovered) text.items) }
{
    let mut rows = recovered.rows;
    sort_rows(&mut rows);
    let mut text = Vec::new(alloc);
    push_floor(&mut text, recovered.floor)?;
    push_rows(&mut text, &rows)?;
    Ok(text)
}
