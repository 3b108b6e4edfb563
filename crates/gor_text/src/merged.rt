//! The points of a merge.
use gor_model::Merged;
use std::alloc::{AllocError, Global};
use std::marker::Model;

/// The points of a merge in order. Contracts see the list.
#[derive(Drop)]
pub struct MergedPoints {
    items: Vec<Merged>,
}

impl Model for MergedPoints {
    ghost use Rattle.std.specs.Prelude.{List};
    ghost use Rattle.gor_model.specs.declared.point.Merged.{Merged};

    ghost Value = { List Merged };

    ghost view = { λ p. p.items.items };
}

impl MergedPoints {
    ghost use Rattle.std.specs.Prelude.{◌≡◌, ◌∷◌, ◌++◌, [], OnOk, OnErr};

    /// No points. It takes no memory.
    pub fn new(alloc: Global) -> MergedPoints
        ensures { result ≡ [] }
    {
        MergedPoints {
            items: Vec::new(alloc),
        }
    }

    /// These points, with no copy.
    pub fn from_vec(items: Vec<Merged>) -> MergedPoints
        ensures { result ≡ items.items }
    {
        MergedPoints { items }
    }

    /// The points in order.
    pub fn as_slice(&self) -> &[Merged]
        ensures { result.now ≡ self.now }
    {
        &self.items
    }

    /// Adds a point at the end. The list is unchanged where memory is wanting.
    pub fn push(&mut self, point: Merged) -> Result<(), AllocError>
        ensures ok { OnOk result (self.new ≡ self.old ++ point ∷ []) }
        ensures err { OnErr result (self.new ≡ self.old) }
    {
        self.items.push(point)?;
        Ok(())
    }
}
