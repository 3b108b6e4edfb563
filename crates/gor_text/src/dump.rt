//! The lines of a dump.

ghost use Rattle.std.specs.Prelude.{◌≡◌, ◌+◌, ◌*◌, ◌≤◌, ◌++◌, length, vec_len, vec_capacity, OnOk};
ghost use Rattle.gor_text.specs.Dumps.{floor_line, series_line};

use crate::piece::Piece;
use crate::spelling::{POINT, push_points, push_text, room};
use gor_model::Points;
use std::alloc::AllocError;

/// Adds the line `SHARD floor FLOOR` of a dump, with its LF. After want of memory a front of it may have been added.
pub fn write_floor(out: &mut Vec<u8>, shard: u32, floor: u64) -> Result<(), AllocError>
    ensures { OnOk result (out.new.items ≡ out.old.items ++ floor_line shard floor) }
{
    let mut piece = Piece::new();
    piece.text(b"\n");
    piece.number(floor);
    piece.text(b" floor ");
    piece.number(u64::from(shard));
    out.extend_from_slice(piece.as_slice())
}

/// Adds the line `SHARD NAME floor FLOOR points K` of a dump, with ` TIME:WORD` for each of K points and its LF. After want
/// of memory a front of it may have been added.
pub fn write_series(
    out: &mut Vec<u8>,
    shard: u32,
    name: &[u8],
    floor: u64,
    points: &Points,
) -> Result<(), AllocError>
    ensures { OnOk result (out.new.items ≡ out.old.items ++ series_line shard name.now floor points.now) }
{
    out.try_reserve(room(room(77, name.len(), 1)?, points.len(), POINT)?)?;
    push_series(out, shard, name, floor, points);
    Ok(())
}

/// Adds the line of a series, for which there is room.
fn push_series(out: &mut Vec<u8>, shard: u32, name: &[u8], floor: u64, points: &Points)
    requires { vec_len out.old + 77 + length name.now + length points.now * 38 ≤ vec_capacity out.old }
    ensures { out.new.items ≡ out.old.items ++ series_line shard name.now floor points.now }
{
    let mut head = Piece::new();
    head.text(b" ");
    head.number(u64::from(shard));
    push_text(out, head.as_slice());
    push_text(out, name);
    let mut floors = Piece::new();
    floors.number(points.len() as u64);
    floors.text(b" points ");
    floors.number(floor);
    floors.text(b" floor ");
    push_text(out, floors.as_slice());
    push_points(out, points);
}
