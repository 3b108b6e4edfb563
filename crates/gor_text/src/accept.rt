//! Which lines a program takes.
ghost use Rattle.std.specs.Prelude.{◌≡◌};
ghost use Rattle.std.specs.Prelude.{Bool};
ghost use Rattle.gor_text.specs.declared.workload.Item.{Item as Said};

use crate::Item;

/// Which lines a program takes. A line that it does not take is a bad line.
pub trait Accepts {
    /// Whether what a line says is taken.
    ghost accepts: { Self → Said → Bool };

    /// Whether what a line says is taken.
    fn accepts(&self, item: &Item) -> bool
        ensures { result ≡ accepts self.now item.now };
}

/// Every line of the grammar is taken.
#[derive(Clone, Copy, Debug)]
pub struct EveryLine;

impl Accepts for EveryLine {
    ghost use Rattle.gor_text.specs.Workloads.{every_line};

    ghost accepts = { λ _ item. every_line item };

    fn accepts(&self, item: &Item) -> bool {
        let _ = item;
        true
    }
}
