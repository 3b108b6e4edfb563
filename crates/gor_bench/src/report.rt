//! Tables of figures, printed row by row, and what rounds took.
use crate::fault::Fault;
use std::io;
use std::time::{Clock, Instant};

/// What a round took, way by way, in nanoseconds, and the size of what it made; or the least of some rounds, and all sizes.
#[derive(Clone, Copy)]
pub struct Spent {
    pub write: u64,
    pub copy: u64,
    pub read: u64,
    pub size: u64,
}

impl Spent {
    /// No round yet.
    pub fn new() -> Spent {
        Spent {
            write: u64::MAX,
            copy: u64::MAX,
            read: u64::MAX,
            size: 0,
        }
    }

    /// The least times, and the sum of the sizes.
    pub fn with(self, round: Spent) -> Spent {
        Spent {
            write: self.write.min(round.write),
            copy: self.copy.min(round.copy),
            read: self.read.min(round.read),
            size: self.size.saturating_add(round.size),
        }
    }
}

/// The tenths of a total that is shared out among so many.
pub fn tenths(total: u64, count: u64) -> u64 {
    total.saturating_mul(10) / count.max(1)
}

/// Prints a line of a table: its label, then the names of columns, or figures in tenths.
fn print_line<P: Print>(
    rt: &P,
    label: &str,
    columns: &[&'static str],
    figures: &[u64],
) -> io::Result<()> {
    print!(rt; "{label:<26}")?;
    for column in columns {
        print!(rt; "{column:>20}")?;
    }
    for figure in figures {
        let whole = *figure / 10;
        let tenth = *figure % 10;
        print!(rt; "{whole:>18}.{tenth}")?;
    }
    println!(rt; "")
}

/// Prints a line of a table: its head with the names of its columns, or a row with its figures, in tenths.
pub fn print_row<P: Print>(
    rt: &P,
    label: &str,
    columns: &[&'static str],
    figures: &[u64],
) -> Result<(), Fault> {
    match print_line(rt, label, columns, figures) {
        Ok(()) => Ok(()),
        Err(_) => Err(Fault::Output),
    }
}

/// The clock's time now.
pub fn now<C: Clock>(clock: &C) -> Result<Instant, Fault> {
    match Instant::now(clock) {
        Ok(now) => Ok(now),
        Err(_) => Err(Fault::Clock),
    }
}

/// The nanoseconds since then.
pub fn nanos_since<C: Clock>(clock: &C, then: Instant) -> Result<u64, Fault> {
    let passed = now(clock)?.duration_since(then);
    let seconds = passed.as_secs().saturating_mul(1_000_000_000);
    Ok(seconds.saturating_add(passed.subsec_nanos() as u64))
}
