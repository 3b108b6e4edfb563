//! Merging: every point of every list once.

ghost use Rattle.std.specs.Prelude.{◌≡◌, ◌+◌, ◌<◌, ◌^◌, length, drop, set, slice_index, All, IfOk};
ghost use Rattle.std.specs.List.{sum_by};
ghost use Rattle.gor_model.specs.Merges.{IsMerged};
ghost use Rattle.gor_merge.specs.Heads.{TimesRise, head_of, heads_from, points_at};

use crate::tournament::Tournament;
use gor_model::{Merged, Points};
use std::alloc::{AllocError, Global};

/// Every point of every list once, with the place of its list from 0, by time and then by place.
///
/// It answers `AllocError` where memory is wanting. A point costs at most about the logarithm to base 2 of the count of lists in
/// comparisons. The merged list is made once at its full length, and all else that takes memory is a few words a list.
pub fn merge(alloc: Global, lists: &[Points]) -> Result<Vec<Merged>, AllocError>
    requires rising { All TimesRise lists.now }
    requires few { length lists.now < 2 ^ 32 }
    ensures merged { IfOk result (λ merged. IsMerged lists.now merged.items) }
{
    let mut merged = Vec::with_capacity(alloc, count_of(lists)?)?;
    let mut taken = vec![in alloc; 0usize; lists.len()]?;
    let mut tournament = Tournament::new(alloc, &heads_of(alloc, lists)?)?;
    while let Some(next) = tournament.winner() {
        merged.push(next)?;
        take_next(lists, &mut taken, &mut tournament, next.place as usize);
    }
    Ok(merged)
}

/// Takes the next point of a list: the one behind it then stands in the tournament.
fn take_next(lists: &[Points], taken: &mut [usize], tournament: &mut Tournament, place: usize)
    requires there { place < length lists.now }
    requires few { length lists.now < 2 ^ 32 }
    requires places { length taken.old ≡ length lists.now }
    requires heads { length tournament.old ≡ length lists.now }
    requires more { slice_index taken.old place < length (points_at lists.now place) }
    ensures taken { taken.new ≡ set taken.old place (slice_index taken.old place + 1) }
    ensures heads { tournament.new ≡ set tournament.old place (head_of place (drop (slice_index taken.old place + 1) (points_at lists.now place))) }
{
    // for the proof: no list has more points than a usize counts
    let _count = lists[place].len();
    taken[place] += 1;
    tournament.replace(place, head_at(lists, place, taken[place]));
}

/// How many points there are in all lists. So many that no `usize` counts them have no room in memory.
fn count_of(lists: &[Points]) -> Result<usize, AllocError>
    ensures { IfOk result (λ count. count ≡ sum_by length lists.now) }
{
    let mut count: usize = 0;
    for points in lists {
        count = count.checked_add(points.len()).ok_or(AllocError)?;
    }
    Ok(count)
}

/// The first point of each list.
fn heads_of(alloc: Global, lists: &[Points]) -> Result<Vec<Option<Merged>>, AllocError>
    requires few { length lists.now < 2 ^ 32 }
    ensures { IfOk result (λ heads. heads.items ≡ heads_from 0 lists.now) }
{
    let mut heads = Vec::with_capacity(alloc, lists.len())?;
    for place in 0..lists.len() {
        heads.push(head_at(lists, place, 0))?;
    }
    Ok(heads)
}

/// The first point of a list behind so many; `None` where there is none.
fn head_at(lists: &[Points], place: usize, taken: usize) -> Option<Merged>
    requires there { place < length lists.now }
    requires few { length lists.now < 2 ^ 32 }
    ensures { result ≡ head_of place (drop taken (points_at lists.now place)) }
{
    let point = lists[place].get(taken)?;
    Some(Merged {
        place: place as u32,
        point,
    })
}
