//! One object of a shard, taken and given back as what its number says.
ghost use Rattle.std.specs.Prelude.{◌≡◌, ◌+◌, ◌<◌, [], IfSome, IfNone};
ghost use Rattle.gor_model.specs.Objects.{Has};
ghost use Rattle.gor_rule.specs.Plays.{gave, refuses};
ghost use Rattle.gor_hall.specs.Calls.{StaysPass};
ghost use Rattle.gor_hall.specs.Halls.{IsPassOf, start_of};
ghost use Rattle.gor_hall.specs.Passes.{view, held, refused};
ghost use Rattle.gor_hall.specs.Steps.{AllBelow};
ghost use Rattle.gor_steps.specs.Views.{HasDirectory, HasSeries, HasJournal, Takes};

use crate::kinds::Parts;
use gor_cell::Cell;
use gor_dir::Directory;
use gor_hall::{Hall, Pass};
use gor_journal::Journal;
use std::sync::Wait;

// The number of the object that is the series of a slot.
pub(crate) fn series_object<V: Parts<K>, K>(shard: &Hall<V>, slot: u32) -> u32
    requires { slot < (start_of shard.now).slots }
    ensures { result ≡ slot + 2 }
{
    let _objects = shard.objects();
    slot + 2
}

// The number of the object that is the journal.
pub(crate) fn journal_object<V: Parts<K>, K>(shard: &Hall<V>) -> u32
    ensures { result ≡ (start_of shard.now).slots + 2 }
{
    shard.objects() - 1
}

/// Takes the directory, over what lies below it.
pub(crate) fn take_directory_over<V: Parts<K>, K, R: Wait>(
    rt: &R,
    shard: &Hall<V>,
    pass: &mut Pass,
) -> Directory
    requires pass { IsPassOf shard.now pass.old × AllBelow 1 (held pass.old) }
    ensures pass { StaysPass shard.now 0 pass.old pass.new }
    ensures took { Takes (view pass.old) 1 (view pass.new) }
    ensures stands { HasDirectory (view pass.new) result }
{
    shard.take(rt, pass, 1).into_directory()
}

/// Takes the directory.
pub(crate) fn take_directory<V: Parts<K>, K, R: Wait>(
    rt: &R,
    shard: &Hall<V>,
    pass: &mut Pass,
) -> Directory
    requires pass { IsPassOf shard.now pass.old × (held pass.old ≡ []) }
    ensures pass { StaysPass shard.now 0 pass.old pass.new }
    ensures took { Takes (view pass.old) 1 (view pass.new) }
    ensures stands { HasDirectory (view pass.new) result }
{
    take_directory_over(rt, shard, pass)
}

/// Takes the directory where nobody holds it.
pub(crate) fn try_take_directory<V: Parts<K>, K>(
    shard: &Hall<V>,
    pass: &mut Pass,
) -> Option<Directory>
    requires pass { IsPassOf shard.now pass.old × (held pass.old ≡ []) }
    ensures pass { StaysPass shard.now 0 pass.old pass.new }
    ensures some { IfSome result (λ directory. Takes (view pass.old) 1 (view pass.new) × (refused pass.new ≡ refused pass.old) × HasDirectory (view pass.new) directory) }
    ensures none { IfNone result (view pass.new ≡ refuses (view pass.old) 1) }
{
    match shard.try_take(pass, 1) {
        Some(part) => Some(part.into_directory()),
        None => None,
    }
}

/// Gives the directory back.
pub(crate) fn give_directory<V: Parts<K>, K>(shard: &Hall<V>, pass: &mut Pass, directory: Directory)
    requires pass { IsPassOf shard.now pass.old × Has (held pass.old) 1 }
    requires stands { HasDirectory (view pass.old) directory }
    ensures pass { StaysPass shard.now 0 pass.old pass.new }
    ensures gave { view pass.new ≡ gave (view pass.old) 1 }
{
    shard.give(pass, 1, V::of_directory(directory));
}

/// Takes the series of a slot.
pub(crate) fn take_series<V: Parts<K>, K, R: Wait>(
    rt: &R,
    shard: &Hall<V>,
    pass: &mut Pass,
    slot: u32,
) -> Cell
    requires pass { IsPassOf shard.now pass.old × AllBelow 2 (held pass.old) }
    requires slot { slot < (start_of shard.now).slots }
    ensures pass { StaysPass shard.now 0 pass.old pass.new }
    ensures took { Takes (view pass.old) (slot + 2) (view pass.new) }
    ensures stands { HasSeries (view pass.new) slot result }
{
    shard
        .take(rt, pass, series_object(shard, slot))
        .into_series()
}

/// Takes the series of a slot where nobody holds it.
pub(crate) fn try_take_series<V: Parts<K>, K>(
    shard: &Hall<V>,
    pass: &mut Pass,
    slot: u32,
) -> Option<Cell>
    requires pass { IsPassOf shard.now pass.old × AllBelow 2 (held pass.old) }
    requires slot { slot < (start_of shard.now).slots }
    ensures pass { StaysPass shard.now 0 pass.old pass.new }
    ensures some { IfSome result (λ cell. Takes (view pass.old) (slot + 2) (view pass.new) × (refused pass.new ≡ refused pass.old) × HasSeries (view pass.new) slot cell) }
    ensures none { IfNone result (view pass.new ≡ refuses (view pass.old) (slot + 2)) }
{
    match shard.try_take(pass, series_object(shard, slot)) {
        Some(part) => Some(part.into_series()),
        None => None,
    }
}

/// Gives the series of a slot back.
pub(crate) fn give_series<V: Parts<K>, K>(shard: &Hall<V>, pass: &mut Pass, slot: u32, cell: Cell)
    requires pass { IsPassOf shard.now pass.old × Has (held pass.old) (slot + 2) }
    requires slot { slot < (start_of shard.now).slots }
    requires stands { HasSeries (view pass.old) slot cell }
    ensures pass { StaysPass shard.now 0 pass.old pass.new }
    ensures gave { view pass.new ≡ gave (view pass.old) (slot + 2) }
{
    shard.give(pass, series_object(shard, slot), V::of_series(cell));
}

/// Takes the journal.
pub(crate) fn take_journal<V: Parts<K>, K, R: Wait>(
    rt: &R,
    shard: &Hall<V>,
    pass: &mut Pass,
) -> Journal
    requires pass { IsPassOf shard.now pass.old × AllBelow ((start_of shard.now).slots + 2) (held pass.old) }
    ensures pass { StaysPass shard.now 0 pass.old pass.new }
    ensures took { Takes (view pass.old) ((start_of shard.now).slots + 2) (view pass.new) }
    ensures stands { HasJournal (view pass.new) result }
{
    shard.take(rt, pass, journal_object(shard)).into_journal()
}

/// Gives the journal back.
pub(crate) fn give_journal<V: Parts<K>, K>(shard: &Hall<V>, pass: &mut Pass, journal: Journal)
    requires pass { IsPassOf shard.now pass.old × Has (held pass.old) ((start_of shard.now).slots + 2) }
    requires stands { HasJournal (view pass.old) journal }
    ensures pass { StaysPass shard.now 0 pass.old pass.new }
    ensures gave { view pass.new ≡ gave (view pass.old) ((start_of shard.now).slots + 2) }
{
    shard.give(pass, journal_object(shard), V::of_journal(journal));
}
