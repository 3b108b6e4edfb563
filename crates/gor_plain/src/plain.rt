//! The values of a hall's objects.
use crate::parts::{Cell, Device, Directory, Journal};
use gor_rule::Thing;

/// A value that stores its object's share as data, and stands for it.
#[derive(Drop)]
pub enum Plain {
    /// The device.
    Device(Device),
    /// The directory.
    Directory(Directory),
    /// The slot of a series.
    Series(Cell),
    /// The slot of no series.
    Vacant,
    /// The journal.
    Journal(Journal),
}

impl Thing for Plain {
    ghost use Rattle.gor_plain.specs.Plains.{plain_stands};

    ghost stands = { plain_stands };
}
