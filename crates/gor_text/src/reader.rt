//! A workload is read from its bytes.
ghost use Rattle.std.specs.Prelude.{◌≡◌, ◌≢◌, ◌+◌, ◌<◌, ◌++◌, ℕ, [], ◌∷◌, length, map, IfOk, IfSome, IfNone, OnOk, Some, Err, true, false};
ghost use Rattle.gor_text.specs.Grammar.{lines_of, item_of};
ghost use Rattle.gor_text.specs.Workloads.{IsWorkloadText, IsFirstBad, is_good_line, HasLane, empty_lanes, phase_lines, lines_in, phases_of, every_line};
ghost use Rattle.gor_text.specs.declared.workload.Item.TheVariants as item;

use crate::item::read_item;
use crate::{Accepts, EveryLine, Item, Phase, Workload};
use std::alloc::{AllocError, Global};
use std::mem;
use thiserror::Error;

/// Why a text was not read as a workload.
#[derive(Clone, Copy, Debug, PartialEq, Eq, Error)]
pub enum TextFault {
    /// The first line that is no workload line, from 1.
    #[error("line {line} is not a workload line")]
    Line { line: u64 },
    /// There was no memory.
    #[error("no memory")]
    NoMemory,
}

/// The first line of a text without its LF, and the text behind it.
fn first_line(text: &[u8]) -> (&[u8], &[u8])
    requires { text.now ≢ [] }
    ensures lines { lines_of text.now ≡ result.0.now ∷ lines_of result.1.now }
    ensures shorter { length result.1.now < length text.now }
{
    for (at, byte) in text.iter().enumerate() {
        if *byte == b'\n' {
            return (&text[..at], &text[at + 1..]);
        }
    }
    (text, &[])
}

/// Whether one line is good, and what it says, if it is.
fn good_item<A: Accepts>(alloc: Global, text: &[u8], accept: &A) -> Result<Option<Item>, AllocError>
    ensures said { IfOk result (λ found. IfSome found (λ item. (item_of text.now ≡ Some item) × (A.accepts accept.now item ≡ true) × HasLane item)) }
    ensures bad { IfOk result (λ found. IfNone found (is_good_line (A.accepts accept.now) text.now ≡ false)) }
{
    let Some(item) = read_item(alloc, text)? else {
        return Ok(None);
    };
    if accept.accepts(&item) {
        Ok(Some(item))
    } else {
        Ok(None)
    }
}

/// The phases that were read so far, the last of which goes on.
#[derive(Drop)]
struct Reading {
    ended: Vec<Phase>,
    current: Phase,
}

impl Reading {
    ghost use Rattle.std.specs.Prelude.{◌≡◌, [], ◌<◌, length, map, IfOk, OnOk};
    ghost use Rattle.gor_text.specs.Workloads.{phase_lines, empty_lanes, HasLane, ended_after, current_after};

    /// Nothing was read.
    fn new(alloc: Global) -> Result<Reading, AllocError>
        ensures ended { IfOk result (λ reading. map phase_lines reading.ended.items ≡ []) }
        ensures current { IfOk result (λ reading. phase_lines reading.current ≡ empty_lanes) }
    {
        Ok(Reading {
            ended: Vec::new(alloc),
            current: Phase::new(alloc)?,
        })
    }

    /// Adds what a line says.
    fn add(&mut self, alloc: Global, item: Item) -> Result<(), AllocError>
        requires eight { length (phase_lines self.old.current) ≡ 8 }
        requires lane { HasLane item }
        ensures ended { OnOk result (map phase_lines self.new.ended.items ≡ ended_after item (map phase_lines self.old.ended.items) (phase_lines self.old.current)) }
        ensures current { OnOk result (phase_lines self.new.current ≡ current_after item (phase_lines self.old.current)) }
    {
        match item {
            Item::Skipped => Ok(()),
            Item::Joined => {
                let next = Phase::new(alloc)?;
                self.ended.push(mem::replace(&mut self.current, next))?;
                Ok(())
            }
            Item::OnLane { lane, line } => self.current.add(lane, line),
        }
    }
}

impl From<AllocError> for TextFault {
    ghost use Rattle.gor_text.specs.declared.reader.TextFault.TheVariants.{NoMemory};

    ghost from_gives = { λ _ e. e ≡ NoMemory };

    fn from(_: AllocError) -> TextFault {
        TextFault::NoMemory
    }
}

/// Reads a workload of which only some lines are taken: its phases, or the first line that is bad.
///
/// A line is bad where it is no workload line or `accept` does not take what it says. The text is read once, from its front.
pub fn read_accepted<A: Accepts>(
    alloc: Global,
    bytes: &[u8],
    accept: &A,
) -> Result<Workload, TextFault>
    ensures read { IfOk result (λ workload. IsWorkloadText (A.accepts accept.now) bytes.now (lines_in workload)) }
    ensures bad { (line : ℕ) → result ≡ Err (TextFault.Line line) → IsFirstBad (A.accepts accept.now) bytes.now line }
{
    let mut reading = Reading::new(alloc)?;
    let mut text = bytes;
    let mut line = 0u64;
    while !text.is_empty() {
        let (first, rest) = first_line(text);
        line += 1;
        let Some(item) = good_item(alloc, first, accept)? else {
            return Err(TextFault::Line { line });
        };
        reading.add(alloc, item)?;
        text = rest;
    }
    let Reading { ended, current } = reading;
    let mut phases = ended;
    phases.push(current).map_err(AllocError::from)?;
    Ok(Workload { phases })
}

/// Reads a workload: its phases, each with the lines of its eight lanes, or the first line, from 1, that is no workload
/// line.
pub fn read_workload(alloc: Global, bytes: &[u8]) -> Result<Workload, TextFault>
    ensures read { IfOk result (λ workload. IsWorkloadText every_line bytes.now (lines_in workload)) }
    ensures bad { (line : ℕ) → result ≡ Err (TextFault.Line line) → IsFirstBad every_line bytes.now line }
{
    read_accepted(alloc, bytes, &EveryLine)
}
