//! The small client of the table: many lanes that put to one series, each in a thread of its own, and what a pass is refused.
ghost use Rattle.std.specs.Prelude.{◌≡◌, ◌≤◌, ℕ, IfOk, Some, slice_get, vec_len};
ghost use Rattle.gor_hall.specs.Halls.{start_of, lanes_of, IsFirstPass};
ghost use Rattle.gor_plain.specs.FirstValues.{one_series};

use gor_hall::{Hall, Opened, Unopened};
use gor_plain::{
    Ended, OneSeries, Plain, first_values, run_and_close, take_in_rising_order, try_while_held,
};
use std::alloc::{AllocError, Global};
use std::sync::Wait;
use std::test::Fail;
use std::thread::Threads;

fn open(alloc: Global, lanes: u32) -> Result<Opened<Plain>, AllocError>
    requires { (1 ≤ lanes) × (lanes ≤ 16) }
    ensures hall { IfOk result (λ o. (start_of o.hall ≡ one_series) × (lanes_of o.hall ≡ lanes)) }
    ensures passes { IfOk result (λ o. (vec_len o.passes ≡ lanes) × ((k : ℕ) (p : _) → slice_get o.passes.items k ≡ Some p → IsFirstPass o.hall k p)) }
{
    match Hall::open(alloc, &OneSeries, first_values(alloc)?, lanes) {
        Ok(opened) => Ok(opened),
        Err(Unopened { .. }) => Err(AllocError),
    }
}

// Whether all was stored, the last look told of 80 events, and the values came in the order of their objects, with 80
// points in the series and 80 changes in the journal.
fn has_eighty(ended: &Ended) -> bool {
    let values = &ended.values;
    if !ended.all || ended.length != 80 || values.len() != 4 {
        return false;
    }
    let (Plain::Device(_), Plain::Directory(_)) = (&values[0], &values[1]) else {
        return false;
    };
    let (Plain::Series(cell), Plain::Journal(log)) = (&values[2], &values[3]) else {
        return false;
    };
    let last = cell.row.points.get(79);
    cell.row.points.len() == 80
        && matches!(last, Some(point) if point.time == 79)
        && log.waiting.len() == 80
        && log.next == 82
}

fn eighty_puts<R: Threads + Wait + Sync>(
    rt: &R,
    alloc: Global,
    lanes: u32,
    count: u64,
) -> Result<bool, AllocError>
    requires { (1 ≤ lanes) × (lanes ≤ 16) }
{
    let opened = open(alloc, lanes)?;
    let Ok(ended) = run_and_close(rt, alloc, opened, 0, count) else {
        return Err(AllocError);
    };
    Ok(has_eighty(&ended))
}

#[test]
fn two_lanes_put_forty_words_each(rt: HostRuntime) -> Result<(), Fail> {
    assert!(rt; eighty_puts(&rt, rt.alloc(), 2, 40)?);
    Ok(())
}

#[test]
fn sixteen_lanes_put_five_words_each(rt: HostRuntime) -> Result<(), Fail> {
    assert!(rt; eighty_puts(&rt, rt.alloc(), 16, 5)?);
    Ok(())
}

#[test]
fn objects_are_taken_in_rising_order_and_refused_while_held(rt: HostRuntime) -> Result<(), Fail> {
    let Opened { hall, mut passes } = open(rt.alloc(), 2)?;
    let (Some(mut second), Some(mut first)) = (passes.pop(), passes.pop()) else {
        panic!(rt; "two passes")
    };
    assert!(rt;
        hall.objects() == 4 && first.lane() == 0 && second.lane() == 1 && first.left() == 1 << 40
    );
    assert!(rt; take_in_rising_order(&rt, &hall, &mut first));
    let (while_held, once_given) = try_while_held(&rt, &hall, &mut first, &mut second, 2);
    assert!(rt; !while_held && once_given);
    Ok(())
}
