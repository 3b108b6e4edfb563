//! The series that are there get the points that were gathered for them.
ghost use Rattle.std.specs.Prelude.{◌≡◌, [], ◌∷◌, ◌++◌, IfOk, IfErr, OnOk, IsTrue};
ghost use Rattle.std.specs.List.{AllByRecursion, list_any};
ghost use Rattle.gor_model.specs.Windows.{kept};
ghost use Rattle.gor_recover.specs.Gathering.{has_uid};
ghost use Rattle.gor_recover.specs.declared.recovered.OpenFault.TheVariants as refused;
ghost use Rattle.gor_recover.specs.NamesRead.{IsCalm};
ghost use Rattle.gor_recover.specs.Filling.{Fills, FailsToFill, FillAll, FailToFill};

use crate::names::NamedRow;
use crate::recovered::{OpenFault, RecoveredRow};
use crate::series::Series;
use gor_image::{DamageKind, ImageFault};
use gor_model::Points;
use gor_model::windows::day;
use std::alloc::{AllocError, Global};

/// The points that are kept under a floor: those at most a day older than it.
fn kept(alloc: Global, floor: u64, points: &Points) -> Result<Points, AllocError>
    ensures { IfOk result (λ found. found ≡ kept floor points.now) }
{
    let oldest = floor.saturating_sub(day());
    let mut found = Points::new(alloc);
    for point in points.as_slice() {
        if oldest <= point.time {
            found.push(*point)?;
        }
    }
    Ok(found)
}

/// The row of a series that is there. It refuses points that do not rise.
fn filled(alloc: Global, named: NamedRow, series: &Series) -> Result<RecoveredRow, OpenFault>
    requires there { IsTrue (list_any (has_uid named.uid) series.now) }
    ensures ok { IfOk result (Fills series.now named) }
    ensures err { IfErr result (FailsToFill series.now named) }
    ensures calm { IfErr result IsCalm }
{
    let gathered = series.find(named.uid).unwrap();
    if let Some(spot) = gathered.wrong {
        return Err(OpenFault::Image(ImageFault::Damage {
            file: spot.file,
            at: spot.at,
            kind: DamageKind::Order,
        }));
    }
    let floor = named.floor.max(gathered.end);
    let Ok(points) = kept(alloc, floor, &gathered.points) else {
        return Err(OpenFault::NoMemory);
    };
    Ok(RecoveredRow {
        name: named.name,
        slot: named.slot,
        uid: named.uid,
        floor,
        points,
    })
}

fn push(rows: &mut Vec<RecoveredRow>, row: RecoveredRow) -> Result<(), OpenFault>
    ensures ok { OnOk result (rows.new.items ≡ rows.old.items ++ row ∷ []) }
    ensures err { IfErr result (λ fault. fault ≡ refused.NoMemory) }
{
    match rows.push(row) {
        Ok(()) => Ok(()),
        Err(_) => Err(OpenFault::NoMemory),
    }
}

/// The rows of the series that are there, by rising slot, each with its kept points. It refuses the first whose points do
/// not rise.
pub(crate) fn rows(
    alloc: Global,
    names: Vec<NamedRow>,
    series: &Series,
) -> Result<Vec<RecoveredRow>, OpenFault>
    requires there { AllByRecursion (λ named. IsTrue (list_any (has_uid named.uid) series.now)) names.items }
    ensures ok { IfOk result (λ found. FillAll series.now names.items found.items) }
    ensures err { IfErr result (FailToFill series.now names.items) }
    ensures calm { IfErr result IsCalm }
{
    let Ok(mut found) = Vec::with_capacity(alloc, names.len()) else {
        return Err(OpenFault::NoMemory);
    };
    for named in names {
        let row = match filled(alloc, named, series) {
            Ok(row) => row,
            Err(fault) => return Err(fault),
        };
        if let Err(fault) = push(&mut found, row) {
            return Err(fault);
        }
    }
    Ok(found)
}
