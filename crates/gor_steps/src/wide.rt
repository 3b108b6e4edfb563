//! The directory and the journal, held together over the device.
ghost use Rattle.std.specs.Prelude.{◌≡◌, ◌+◌, [], ◌∷◌};
ghost use Rattle.gor_hall.specs.Calls.{StaysPass};
ghost use Rattle.gor_hall.specs.Halls.{IsPassOf, start_of};
ghost use Rattle.gor_hall.specs.Passes.{view, held};
ghost use Rattle.gor_rule.specs.Plays.{gave};
ghost use Rattle.gor_steps.specs.Finishes.{HasWide, KeepsDevice};
ghost use Rattle.gor_steps.specs.Views.{HasNone, IsSound};

use crate::kinds::Parts;
use crate::parts::{give_directory, give_journal, take_directory_over, take_journal};
use gor_dir::Directory;
use gor_hall::{Hall, Pass};
use gor_journal::Journal;
use std::sync::Wait;

/// What a finish holds besides the device, for its Floor and again for its Take.
#[derive(Drop)]
pub struct Wide {
    /// The directory.
    pub directory: Directory,
    /// The journal.
    pub journal: Journal,
}

/// Takes both, and waits until they are free. The pass holds the device alone.
pub fn take_wide<V: Parts<K>, K, R: Wait>(rt: &R, shard: &Hall<V>, pass: &mut Pass) -> Wide
    requires pass { IsPassOf shard.now pass.old × (held pass.old ≡ 0 ∷ []) }
    ensures pass { StaysPass shard.now 0 pass.old pass.new }
    ensures none { HasNone (view pass.old) (view pass.new) }
    ensures sound { IsSound (view pass.new) }
    ensures stands { HasWide (view pass.new) result }
    ensures device { KeepsDevice (view pass.old) (view pass.new) }
{
    let directory = take_directory_over(rt, shard, pass);
    let journal = take_journal(rt, shard, pass);
    Wide { directory, journal }
}

/// Gives both back, the journal first, and keeps the device.
pub fn give_wide<V: Parts<K>, K>(shard: &Hall<V>, pass: &mut Pass, wide: Wide)
    requires pass { IsPassOf shard.now pass.old }
    requires stands { HasWide (view pass.old) wide }
    ensures pass { StaysPass shard.now 0 pass.old pass.new × (held pass.new ≡ 0 ∷ []) }
    ensures gave { view pass.new ≡ gave (gave (view pass.old) ((start_of shard.now).slots + 2)) 1 }
{
    let Wide { directory, journal } = wide;
    give_journal(shard, pass, journal);
    give_directory(shard, pass, directory);
}
