//! The numbers and the texts of the statuses.
use gor_disk::FileId;
use gor_image::{DamageKind, ImageFault};
use gor_run::Status;
use std::alloc::{AllocError, Global};
use std::process::Abort;

/// Whether a status has this number and this text.
fn is_shown(alloc: Global, status: Status, number: u8, text: &str) -> Result<bool, AllocError> {
    let shown = format!(in alloc; "{status}")?;
    Ok(status.number() == number && shown.as_str() == text)
}

fn are_shown<R: AllocGlobal + Abort>(
    rt: &R,
    rows: &[(Status, u8, &str)],
) -> Result<(), AllocError> {
    for (status, number, text) in rows {
        assert!(rt; is_shown(rt.alloc(), *status, *number, text)?, "{text}");
    }
    Ok(())
}

const STATUSES: [(Status, u8, &str); 8] = [
    (Status::Ok, 0, ""),
    (
        Status::Words,
        2,
        "gorilla: usage: gorilla run|gen SEED LINES|dump [--shards N] [--slots N]",
    ),
    (
        Status::BadLine { line: 7 },
        3,
        "gorilla: line 7 is not a workload line",
    ),
    (Status::NoMemory, 4, "gorilla: no memory"),
    (Status::ReadFault, 5, "gorilla: the input could not be read"),
    (
        Status::WriteFault,
        6,
        "gorilla: the output could not be written",
    ),
    (
        Status::TooLong,
        9,
        "gorilla: the input is longer than 16777216 bytes",
    ),
    (
        Status::DeviceFault { shard: 5 },
        7,
        "gorilla: shard 5: the device failed",
    ),
];

#[test]
fn statuses_have_their_numbers(rt: HostRuntime) -> Result<(), AllocError> {
    are_shown(&rt, &STATUSES)
}

const REFUSALS: [(Status, u8, &str); 5] = [
    (
        Status::NotOpened {
            shard: 0,
            fault: ImageFault::Home {
                found_shards: 4,
                found_shard: 3,
                asked_shards: 1,
                asked_shard: 0,
            },
        },
        8,
        "gorilla: shard 0: home is 3 of 4, asked 0 of 1",
    ),
    (
        Status::NotOpened {
            shard: 0,
            fault: ImageFault::Damage {
                file: FileId::Block(7),
                at: 8,
                kind: DamageKind::Padding,
            },
        },
        8,
        "gorilla: shard 0: damage in block.7 at 8: padding",
    ),
    (
        Status::NotOpened {
            shard: 0,
            fault: ImageFault::Damage {
                file: FileId::Marks,
                at: 0,
                kind: DamageKind::Cut,
            },
        },
        8,
        "gorilla: shard 0: damage in marks at 0: cut",
    ),
    (
        Status::NotOpened {
            shard: 0,
            fault: ImageFault::Slots {
                needed: 5,
                given: 4,
            },
        },
        8,
        "gorilla: shard 0: slots needed 5, given 4",
    ),
    (
        Status::NotOpened {
            shard: 0,
            fault: ImageFault::Worn {
                next: 4_611_686_018_427_387_905,
            },
        },
        8,
        "gorilla: shard 0: change numbers end, next 4611686018427387905",
    ),
];

#[test]
fn refusals_have_their_texts(rt: HostRuntime) -> Result<(), AllocError> {
    are_shown(&rt, &REFUSALS)
}

const KINDS: [(Status, u8, &str); 12] = [
    (
        Status::NotOpened {
            shard: 15,
            fault: ImageFault::Damage {
                file: FileId::Keys(12),
                at: 30,
                kind: DamageKind::Cut,
            },
        },
        8,
        "gorilla: shard 15: damage in keys.12 at 30: cut",
    ),
    (
        Status::NotOpened {
            shard: 15,
            fault: ImageFault::Damage {
                file: FileId::Keys(12),
                at: 30,
                kind: DamageKind::Version,
            },
        },
        8,
        "gorilla: shard 15: damage in keys.12 at 30: version",
    ),
    (
        Status::NotOpened {
            shard: 15,
            fault: ImageFault::Damage {
                file: FileId::Keys(12),
                at: 30,
                kind: DamageKind::Kind,
            },
        },
        8,
        "gorilla: shard 15: damage in keys.12 at 30: kind",
    ),
    (
        Status::NotOpened {
            shard: 15,
            fault: ImageFault::Damage {
                file: FileId::Keys(12),
                at: 30,
                kind: DamageKind::Short,
            },
        },
        8,
        "gorilla: shard 15: damage in keys.12 at 30: short",
    ),
    (
        Status::NotOpened {
            shard: 15,
            fault: ImageFault::Damage {
                file: FileId::Keys(12),
                at: 30,
                kind: DamageKind::Extra,
            },
        },
        8,
        "gorilla: shard 15: damage in keys.12 at 30: extra",
    ),
    (
        Status::NotOpened {
            shard: 15,
            fault: ImageFault::Damage {
                file: FileId::Keys(12),
                at: 30,
                kind: DamageKind::Value,
            },
        },
        8,
        "gorilla: shard 15: damage in keys.12 at 30: value",
    ),
    (
        Status::NotOpened {
            shard: 15,
            fault: ImageFault::Damage {
                file: FileId::Keys(12),
                at: 30,
                kind: DamageKind::Order,
            },
        },
        8,
        "gorilla: shard 15: damage in keys.12 at 30: order",
    ),
    (
        Status::NotOpened {
            shard: 15,
            fault: ImageFault::Damage {
                file: FileId::Keys(12),
                at: 30,
                kind: DamageKind::Slot,
            },
        },
        8,
        "gorilla: shard 15: damage in keys.12 at 30: slot",
    ),
    (
        Status::NotOpened {
            shard: 15,
            fault: ImageFault::Damage {
                file: FileId::Keys(12),
                at: 30,
                kind: DamageKind::Name,
            },
        },
        8,
        "gorilla: shard 15: damage in keys.12 at 30: name",
    ),
    (
        Status::NotOpened {
            shard: 15,
            fault: ImageFault::Damage {
                file: FileId::Keys(12),
                at: 30,
                kind: DamageKind::Row,
            },
        },
        8,
        "gorilla: shard 15: damage in keys.12 at 30: row",
    ),
    (
        Status::NotOpened {
            shard: 15,
            fault: ImageFault::Damage {
                file: FileId::Keys(12),
                at: 30,
                kind: DamageKind::Block,
            },
        },
        8,
        "gorilla: shard 15: damage in keys.12 at 30: block",
    ),
    (
        Status::NotOpened {
            shard: 15,
            fault: ImageFault::Damage {
                file: FileId::Keys(12),
                at: 30,
                kind: DamageKind::Padding,
            },
        },
        8,
        "gorilla: shard 15: damage in keys.12 at 30: padding",
    ),
];

#[test]
fn kinds_of_damage_have_their_words(rt: HostRuntime) -> Result<(), AllocError> {
    are_shown(&rt, &KINDS)
}
