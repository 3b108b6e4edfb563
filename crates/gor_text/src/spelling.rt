//! The parts of the text of answers. Room for a whole line is made once; what is then added takes no memory.

ghost use Rattle.std.specs.Prelude.{◌≡◌, ◌+◌, ◌*◌, ◌≤◌, ◌++◌, ◌∷◌, [], length, flat_map, codes, decimal, vec_len, vec_capacity, IfOk, OnOk, OnErr};
ghost use Rattle.gor_text.specs.Rooms.{reply_room, what_room};
ghost use Rattle.gor_text.specs.Spelling.{word_text, point_text, merged_text, reply_text, reason_text, refusal_line, merged_line, what_line, answer_line};

use crate::piece::Piece;
use crate::{LaneAnswer, MergedPoints, Reason, What};
use gor_model::{Merged, Point, Points, Reply};
use std::alloc::AllocError;

/// How many bytes a point takes at most, and how many a point of a merge.
pub(crate) const POINT: usize = 38;

const MERGED_POINT: usize = 59;

/// Adds a number in decimal digits. Where memory is wanting nothing was added.
pub fn write_number(out: &mut Vec<u8>, number: u64) -> Result<(), AllocError>
    ensures ok { OnOk result (out.new.items ≡ out.old.items ++ decimal number) }
    ensures err { OnErr result (out.new.items ≡ out.old.items) }
{
    let mut piece = Piece::new();
    piece.number(number);
    out.extend_from_slice(piece.as_slice())
}

/// Adds a word in 16 hexadecimal digits. Where memory is wanting nothing was added.
pub fn write_word(out: &mut Vec<u8>, word: u64) -> Result<(), AllocError>
    ensures ok { OnOk result (out.new.items ≡ out.old.items ++ word_text word) }
    ensures err { OnErr result (out.new.items ≡ out.old.items) }
{
    let mut piece = Piece::new();
    piece.word(word);
    out.extend_from_slice(piece.as_slice())
}

/// The room for so many things of a size beside others. So many that no `usize` counts their bytes have no room in memory.
pub(crate) fn room(others: usize, count: usize, each: usize) -> Result<usize, AllocError>
    ensures { IfOk result (λ room. room ≡ others + count * each) }
{
    let all = count.checked_mul(each).ok_or(AllocError)?;
    others.checked_add(all).ok_or(AllocError)
}

/// Adds a text, for which there is room.
pub(crate) fn push_text(out: &mut Vec<u8>, text: &[u8])
    requires room { vec_len out.old + length text.now ≤ vec_capacity out.old }
    ensures items { out.new.items ≡ out.old.items ++ text.now }
    ensures len { vec_len out.new ≡ vec_len out.old + length text.now }
    ensures capacity { vec_capacity out.old ≤ vec_capacity out.new }
{
    out.extend_from_slice(text).unwrap();
}

/// Adds ` TIME:WORD`, for which there is room.
fn push_point(out: &mut Vec<u8>, point: Point)
    requires room { vec_len out.old + 38 ≤ vec_capacity out.old }
    ensures items { out.new.items ≡ out.old.items ++ point_text point }
    ensures len { vec_len out.new ≤ vec_len out.old + 38 }
    ensures capacity { vec_capacity out.old ≤ vec_capacity out.new }
{
    let mut piece = Piece::new();
    piece.word(point.word);
    piece.text(b":");
    piece.number(point.time);
    piece.text(b" ");
    push_text(out, piece.as_slice());
}

/// Adds each point of a list and then an LF, for which there is room.
pub(crate) fn push_points(out: &mut Vec<u8>, points: &Points)
    requires room { vec_len out.old + length points.now * 38 + 1 ≤ vec_capacity out.old }
    ensures { out.new.items ≡ out.old.items ++ flat_map point_text points.now ++ 10 ∷ [] }
{
    for point in points.as_slice() {
        push_point(out, *point);
    }
    push_text(out, b"\n");
}

/// Adds ` PLACE:TIME:WORD`, for which there is room.
fn push_merged_point(out: &mut Vec<u8>, merged: Merged)
    requires room { vec_len out.old + 59 ≤ vec_capacity out.old }
    ensures items { out.new.items ≡ out.old.items ++ merged_text merged }
    ensures len { vec_len out.new ≤ vec_len out.old + 59 }
    ensures capacity { vec_capacity out.old ≤ vec_capacity out.new }
{
    let mut piece = Piece::new();
    piece.word(merged.point.word);
    piece.text(b":");
    piece.number(merged.point.time);
    piece.text(b":");
    piece.number(u64::from(merged.place));
    piece.text(b" ");
    push_text(out, piece.as_slice());
}

/// Adds each point of a merged list and then an LF, for which there is room.
fn push_merged(out: &mut Vec<u8>, points: &MergedPoints)
    requires room { vec_len out.old + length points.now * 59 + 1 ≤ vec_capacity out.old }
    ensures { out.new.items ≡ out.old.items ++ flat_map merged_text points.now ++ 10 ∷ [] }
{
    for point in points.as_slice() {
        push_merged_point(out, *point);
    }
    push_text(out, b"\n");
}

/// Adds a word of the answers, the number behind it and an LF, for which there is room.
fn push_counted(out: &mut Vec<u8>, text: &[u8], number: u64)
    requires short { length text.now ≤ 7 }
    requires room { vec_len out.old + 28 ≤ vec_capacity out.old }
    ensures { out.new.items ≡ out.old.items ++ text.now ++ decimal number ++ 10 ∷ [] }
{
    let mut piece = Piece::new();
    piece.text(b"\n");
    piece.number(number);
    piece.text(text);
    push_text(out, piece.as_slice());
}

/// Adds a word of the answers and the count behind it, for which there is room.
fn push_count(out: &mut Vec<u8>, text: &[u8], count: usize)
    requires short { length text.now ≤ 7 }
    requires room { vec_len out.old + 27 ≤ vec_capacity out.old }
    ensures items { out.new.items ≡ out.old.items ++ text.now ++ decimal count }
    ensures len { vec_len out.new ≤ vec_len out.old + 27 }
    ensures capacity { vec_capacity out.old ≤ vec_capacity out.new }
{
    let mut piece = Piece::new();
    piece.number(count as u64);
    piece.text(text);
    push_text(out, piece.as_slice());
}

/// Adds what a shard answered and an LF, for which there is room.
fn push_reply(out: &mut Vec<u8>, reply: &Reply)
    requires room { vec_len out.old + reply_room reply.now ≤ vec_capacity out.old }
    ensures { out.new.items ≡ out.old.items ++ reply_text reply.now ++ 10 ∷ [] }
{
    match reply {
        Reply::Stored { due: _ } => push_text(out, b"stored\n"),
        Reply::Late { last } => push_counted(out, b"late ", *last),
        Reply::Closed { floor } => push_counted(out, b"closed ", *floor),
        Reply::Full { slots } => push_counted(out, b"full ", u64::from(*slots)),
        Reply::Stopped => push_text(out, b"stopped\n"),
        Reply::Points(points) => {
            push_count(out, b"points ", points.len());
            push_points(out, points);
        }
        Reply::Absent => push_text(out, b"absent\n"),
        Reply::Gone => push_text(out, b"gone\n"),
        Reply::Floor { floor } => push_counted(out, b"floor ", *floor),
        Reply::Sealed { floor } => push_counted(out, b"sealed ", *floor),
        Reply::Seal { name } => {
            push_text(out, b"seal ");
            push_text(out, name.as_slice());
            push_text(out, b"\n");
        }
        Reply::Take { changes } => push_counted(out, b"take ", *changes),
        Reply::Done { changes } => push_counted(out, b"done ", *changes),
        Reply::Stop => push_text(out, b"stop\n"),
    }
}

/// The word for why a call was refused.
fn reason_word(reason: Reason) -> &'static [u8]
    ensures word { result.now ≡ reason_text reason }
    ensures short { length result.now ≤ 6 }
{
    match reason {
        Reason::Name => b"name",
        Reason::Time => b"time",
        Reason::Range => b"range",
        Reason::Shard => b"shard",
        Reason::Window => b"window",
    }
}

/// Adds `LANE SHARD:NUMBER `, for which there is room.
fn push_event(out: &mut Vec<u8>, lane: u32, shard: u32, number: u64)
    requires room { vec_len out.old + 63 ≤ vec_capacity out.old }
    ensures items { out.new.items ≡ out.old.items ++ decimal lane ++ codes " " ++ decimal shard ++ codes ":" ++ decimal number ++ codes " " }
    ensures len { vec_len out.new ≤ vec_len out.old + 63 }
    ensures capacity { vec_capacity out.old ≤ vec_capacity out.new }
{
    let mut piece = Piece::new();
    piece.text(b" ");
    piece.number(number);
    piece.text(b":");
    piece.number(u64::from(shard));
    piece.text(b" ");
    piece.number(u64::from(lane));
    push_text(out, piece.as_slice());
}

/// Adds the line of a refusal, for which there is room.
fn push_refusal(out: &mut Vec<u8>, lane: u32, reason: Reason)
    requires { vec_len out.old + 30 ≤ vec_capacity out.old }
    ensures { out.new.items ≡ out.old.items ++ refusal_line lane reason }
{
    let mut piece = Piece::new();
    piece.text(b"\n");
    piece.text(reason_word(reason));
    piece.text(b" - ");
    piece.number(u64::from(lane));
    push_text(out, piece.as_slice());
}

/// Adds the line of a merge, for which there is room.
fn push_merge(out: &mut Vec<u8>, lane: u32, points: &MergedPoints)
    requires { vec_len out.old + 44 + length points.now * 59 ≤ vec_capacity out.old }
    ensures { out.new.items ≡ out.old.items ++ merged_line lane points.now }
{
    let mut piece = Piece::new();
    piece.number(points.as_slice().len() as u64);
    piece.text(b" = ");
    piece.number(u64::from(lane));
    push_text(out, piece.as_slice());
    push_merged(out, points);
}

/// Adds a line, for which there is room.
fn push_line(out: &mut Vec<u8>, lane: u32, what: &What)
    requires { vec_len out.old + what_room what.now ≤ vec_capacity out.old }
    ensures { out.new.items ≡ out.old.items ++ what_line lane what.now }
{
    match what {
        What::Event {
            shard,
            number,
            reply,
        } => {
            push_event(out, lane, *shard, *number);
            push_reply(out, reply);
        }
        What::Refused(reason) => push_refusal(out, lane, *reason),
        What::Merged(points) => push_merge(out, lane, points),
    }
}

/// How many bytes a line takes at most.
fn line_room(what: &What) -> Result<usize, AllocError>
    ensures { IfOk result (λ room. what_room what.now ≤ room) }
{
    match what {
        What::Event {
            reply: Reply::Points(points),
            ..
        } => room(91, points.len(), POINT),
        What::Event {
            reply: Reply::Seal { name },
            ..
        } => room(69, name.len(), 1),
        What::Merged(points) => room(44, points.as_slice().len(), MERGED_POINT),
        _ => Ok(91),
    }
}

/// Appends the line of an answer, with its LF. Where memory is wanting nothing was appended.
pub fn write_answer(out: &mut Vec<u8>, answer: &LaneAnswer) -> Result<(), AllocError>
    ensures ok { OnOk result (out.new.items ≡ out.old.items ++ answer_line answer.now) }
    ensures err { OnErr result (out.new.items ≡ out.old.items) }
{
    out.try_reserve(line_room(&answer.what)?)?;
    push_line(out, answer.lane, &answer.what);
    Ok(())
}
