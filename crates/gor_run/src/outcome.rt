//! What a call gives back.
use crate::status::Status;
use gor_disk::Disk;

/// How a call ended, with the disks that it was handed, in their order.
#[derive(Drop)]
pub struct Outcome<D: Disk> {
    pub status: Status,
    pub disks: Vec<D>,
}
