//! What a merged list determines, and that what gets give may be merged, as clauses.

ghost use Rattle.gor_merge.specs.Laws.{MergedInOneWay, ReadsRise};

/// The laws of merged lists.
pub fn laws()
    // Lists are merged in one way: two lists that have every point of every list once, in order of time and place, are one.
    ensures one { MergedInOneWay }
    // The points that a get is answered after a legal history rise in time, so what gets give may be merged.
    ensures reads { ReadsRise }
{}
