//! The text of a run: workload lines in, answer lines out.
//!
//! `read_workload` gives the phases that a text says, or the first line that says nothing. `write_answer` writes the line of
//! an answer, and `write_floor` and `write_series` those of a dump. The grammar of the lines stands in `specs/Grammar.antt`, by cases on their bytes; which answers a line may have
//! and which text answers a workload in `specs/LineAnswers.antt` and `specs/Transcripts.antt`.
#![tactic(auto)]

pub mod accept;
pub mod answer;
pub mod dump;
pub mod fields;
pub mod item;
pub mod laws;
pub mod merged;
pub mod piece;
pub mod reader;
pub mod spelling;
pub mod workload;

pub use accept::{Accepts, EveryLine};
pub use answer::{LaneAnswer, Reason, What};
pub use dump::{write_floor, write_series};
pub use fields::read_number;
pub use merged::MergedPoints;
pub use reader::{TextFault, read_accepted, read_workload};
pub use spelling::{write_answer, write_number, write_word};
pub use workload::{Item, Line, Names, Phase, Workload};
