//! Why bytes are not read as records, and faults of bodies as damage of their files.
ghost use Rattle.std.specs.Prelude.{◌≡◌, ◌+◌, ◌<◌, ◌^◌};
ghost use Rattle.gor_recover.specs.declared.file_fault.FileFault.TheVariants.{Damaged, NoMemory};
ghost use Rattle.gor_recover.specs.declared.recovered.OpenFault.{OpenFault as Refused};
ghost use Rattle.gor_image.specs.Grammars.{damage_of};
ghost use Rattle.gor_recover.specs.FileFaults.{in_its_file};
ghost use Rattle.gor_image.specs.Recovery.{is_above};

use crate::recovered::OpenFault;
use gor_disk::FileId;
use gor_image::{DamageKind, ImageFault};
use gor_model::Wrong;
use std::alloc::{AllocError, AllocFailed};

/// Why the bytes of a file were not read as records.
#[derive(Clone, Copy)]
pub(crate) enum FileFault {
    /// The first damage, and its place in bytes from the start of the file.
    Damaged { at: u64, kind: DamageKind },
    /// Memory is wanting.
    NoMemory,
}

impl From<AllocError> for FileFault {
    ghost from_gives = { λ _ given. given ≡ NoMemory };

    fn from(_e: AllocError) -> FileFault {
        FileFault::NoMemory
    }
}

impl<T: Drop> From<AllocFailed<T>> for FileFault {
    ghost from_gives = { λ _ given. given ≡ NoMemory };

    fn from(_e: AllocFailed<T>) -> FileFault {
        FileFault::NoMemory
    }
}

fn damage_of(wrong: Wrong) -> DamageKind
    ensures { result ≡ damage_of wrong }
{
    match wrong {
        Wrong::Version => DamageKind::Version,
        Wrong::Kind => DamageKind::Kind,
        Wrong::Short => DamageKind::Short,
        Wrong::Extra => DamageKind::Extra,
        Wrong::Value => DamageKind::Value,
        Wrong::Row => DamageKind::Row,
        Wrong::Padding => DamageKind::Padding,
    }
}

/// Damage of this kind at a place of the file.
pub(crate) fn damaged(at: u64, kind: DamageKind) -> FileFault
    ensures { result ≡ Damaged at kind }
{
    FileFault::Damaged { at, kind }
}

/// A fault of a body, which begins at `start`, as damage of its file.
pub(crate) fn misread(start: u64, at: u64, wrong: Wrong) -> FileFault
    requires { start + at < 2 ^ 64 }
    ensures { result ≡ Damaged (start + at) (damage_of wrong) }
{
    damaged(start + at, damage_of(wrong))
}

/// The fault, of this file.
pub(crate) fn in_its_file(file: FileId, fault: FileFault) -> OpenFault
    ensures { result ≡ in_its_file file fault }
{
    match fault {
        FileFault::Damaged { at, kind } => OpenFault::Image(ImageFault::Damage { file, at, kind }),
        FileFault::NoMemory => OpenFault::NoMemory,
    }
}

/// Whether a window or a slot is above the one before it, if there is one.
pub(crate) fn is_above(last: Option<u32>, next: u32) -> bool
    ensures { result ≡ is_above last next }
{
    match last {
        None => true,
        Some(last) => last < next,
    }
}
