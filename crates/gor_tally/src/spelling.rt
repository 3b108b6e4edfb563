//! The parts of a tally's text.

ghost use Rattle.std.specs.Prelude.{◌≡◌, ◌++◌, option_to_list, OnOk};
ghost use Rattle.gor_tally.specs.declared.rule.Rule.TheVariants.{Least, Last};
ghost use Rattle.gor_tally.specs.Tallies.{value_text, time_and_word};

use gor_model::Point;
use gor_text::{write_number, write_word};
use std::alloc::AllocError;

/// Adds a word, or `none`.
pub(crate) fn push_word_or_none(out: &mut Vec<u8>, word: Option<u64>) -> Result<(), AllocError>
    ensures { OnOk result (out.new.items ≡ out.old.items ++ value_text Least (option_to_list word)) }
{
    match word {
        Some(word) => write_word(out, word),
        None => out.extend_from_slice(b"none"),
    }
}

/// Adds `TIME:WORD`, or `none`.
pub(crate) fn push_point_or_none(out: &mut Vec<u8>, point: Option<Point>) -> Result<(), AllocError>
    ensures { OnOk result (out.new.items ≡ out.old.items ++ value_text Last (time_and_word point)) }
{
    let Some(point) = point else {
        return out.extend_from_slice(b"none");
    };
    write_number(out, point.time)?;
    out.extend_from_slice(b":")?;
    write_word(out, point.word)
}
