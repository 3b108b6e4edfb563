//! A small client of the hall: values that store their objects' shares as plain data, and lanes that put to a series which
//! they share, each in a thread of its own. It is for the hall's tests and for its callers to look at.
//!
//! - `parts`, `plain`: the values of the four kinds of object, and when one stands for its share.
//! - `start`: a start with one slot and one series, and its values.
//! - `puts`: a put under two locks, with its event in the history.
//! - `lanes`: all lanes of a hall at work in threads, and the hall closed after them.
//! - `locks`: what a pass takes in rising order, and what it is refused while another holds it.
//! - `shares`: what may cross to another thread.
#![tactic(auto)]

mod both;
mod lanes;
mod locks;
mod parts;
mod plain;
mod puts;
mod shares;
mod start;

pub use both::{give_both, take_both};
pub use lanes::{Ended, Lane, run_and_close, run_in_place};
pub use locks::{take_in_rising_order, try_and_give, try_while_held};
pub use parts::{Aside, Cell, Device, Directory, Done, Finished, Journal, Named, Sealed, Waiting};
pub use plain::Plain;
pub use puts::{StoredPut, put};
pub use shares::{hall_is_shared, pass_is_sent};
pub use start::{OneSeries, first_values};
