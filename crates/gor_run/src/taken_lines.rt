//! The lines that a run takes.
ghost use Rattle.std.specs.Prelude.{◌≡◌};
ghost use Rattle.gor_store.specs.Lines.{is_taken};

use gor_text::{Accepts, Item, Line};

/// The lines that this program takes yet: puts, gets, deletes and flushes in all lanes, and `join`.
#[derive(Clone, Copy, Debug)]
pub struct TakenLines;

fn takes(line: &Line) -> bool
    ensures { result ≡ is_taken line.now }
{
    matches!(
        line,
        Line::Put { .. } | Line::Get { .. } | Line::Del { .. } | Line::Flush { .. }
    )
}

impl Accepts for TakenLines {
    ghost use Rattle.gor_run.specs.TakenLines.{is_taken_item};

    ghost accepts = { λ _ item. is_taken_item item };

    fn accepts(&self, item: &Item) -> bool {
        match item {
            Item::Skipped | Item::Joined => true,
            Item::OnLane { line, .. } => takes(line),
        }
    }
}
