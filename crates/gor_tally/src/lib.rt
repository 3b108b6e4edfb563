//! Tallies: what some points come to by a rule, a page of points at a time, behind boxed trait objects.
//!
//! - `rule`: [`Rule`], the four rules.
//! - `tally`: the trait [`Tally`].
//! - `counter`, `lowest`, `highest`, `latest`: the tally of each rule.
//! - `feeding`: [`feed`] gives points to tallies in pages, and [`close_all`] writes what they came to.
//! - `spelling`: the parts of a tally's text.
//! - `laws`: that points may be taken in parts, and what a count counts.
#![tactic(auto)]

mod counter;
mod feeding;
mod highest;
mod latest;
pub mod laws;
mod lowest;
mod rule;
mod spelling;
mod tally;

pub use counter::Counter;
pub use feeding::{close_all, feed};
pub use highest::Highest;
pub use latest::Latest;
pub use lowest::Lowest;
pub use rule::Rule;
pub use tally::Tally;
