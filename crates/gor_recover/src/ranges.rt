//! The ranges of change numbers that the batches of the logs cover.
ghost use Rattle.std.specs.Prelude.{◌≡◌, ◌<◌, ◌≤◌, ◌||◌, ℕ, take, drop, length, nat_le};
ghost use Rattle.std.specs.List.{AllByRecursion, list_any};
ghost use Rattle.gor_recover.specs.Ranges.{RangesRise, has_number};

/// The change numbers of a batch, both included.
#[derive(Clone, Copy)]
pub(crate) struct Range {
    pub first: u64,
    pub last: u64,
}

/// How many ranges end below a number; they rise, so these are the first ones. Its work is logarithmic.
fn below(ranges: &[Range], number: u64) -> usize
    requires rise { RangesRise 0 ranges.now }
    ensures within { result ≤ length ranges.now }
    ensures below { AllByRecursion (λ r. r.last < number) (take result ranges.now) }
    ensures beyond { AllByRecursion (λ r. number ≤ r.last) (drop result ranges.now) }
{
    let mut low = 0;
    let mut high = ranges.len();
    while low < high {
        let middle = low + (high - low) / 2;
        if ranges[middle].last < number {
            low = middle + 1;
        } else {
            high = middle;
        }
    }
    low
}

/// Whether a change number counts: one of the ranges has it, or it is at most that of the last mark.
pub(crate) fn is_covered(upto: u64, ranges: &[Range], number: u64) -> bool
    requires rise { RangesRise 0 ranges.now }
    ensures { result ≡ (nat_le number upto || list_any (has_number number) ranges.now) }
{
    if number <= upto {
        return true;
    }
    let at = below(ranges, number);
    at < ranges.len() && ranges[at].first <= number
}
