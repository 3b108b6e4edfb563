//! The parts of a shard that the calls take.
use gor_cell::Cell;
use gor_dir::Directory;
use gor_disk::Disk;
use gor_flush::Part;
use gor_hall::Hall;
use gor_journal::Journal;
use gor_steps::Parts;

/// One shard: the table of its parts.
pub type Shard<D> = Hall<Part<D>>;

/// That the parts of a shard are its objects. No value of it is made.
pub struct OfShard;

impl<D: Disk> Parts<OfShard> for Part<D> {
    ghost use Rattle.std.specs.Prelude.{◌≡◌};
    ghost use Rattle.gor_flush.specs.declared.part.Part.TheVariants as parts;
    ghost use Rattle.gor_point.specs.Kinds as kinds;

    ghost is_directory = { λ part directory. part ≡ parts.Directory directory };

    ghost is_series = { λ part cell. part ≡ parts.Series cell };

    ghost is_journal = { λ part journal. part ≡ parts.Journal journal };

    ghost some_directory = { kinds.some_directory D.tells D.view D.faults };

    ghost some_series = { kinds.some_series D.tells D.view D.faults };

    ghost some_journal = { kinds.some_journal D.tells D.view D.faults };

    ghost directory_in = { kinds.directory_in D.tells D.view D.faults };

    ghost series_in = { kinds.series_in D.tells D.view D.faults };

    ghost journal_in = { kinds.journal_in D.tells D.view D.faults };

    ghost directory_out = { kinds.directory_out D.tells D.view D.faults };

    ghost series_out = { kinds.series_out D.tells D.view D.faults };

    ghost journal_out = { kinds.journal_out D.tells D.view D.faults };

    fn of_directory(directory: Directory) -> Part<D> {
        Part::Directory(directory)
    }

    fn of_series(cell: Cell) -> Part<D> {
        Part::Series(cell)
    }

    fn of_journal(journal: Journal) -> Part<D> {
        Part::Journal(journal)
    }

    fn into_directory(self) -> Directory {
        match self {
            Part::Directory(directory) => directory,
            _ => unreachable!(),
        }
    }

    fn into_series(self) -> Cell {
        match self {
            Part::Series(cell) => cell,
            _ => unreachable!(),
        }
    }

    fn into_journal(self) -> Journal {
        match self {
            Part::Journal(journal) => journal,
            _ => unreachable!(),
        }
    }
}
