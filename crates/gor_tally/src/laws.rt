//! The laws of the rules, as clauses.

ghost use Rattle.gor_tally.specs.Laws.{TakenInParts, CountsPoints};

/// The laws of the rules.
pub fn laws()
    // Points may be taken in parts: the state after some and then others is that after both lists in one.
    ensures parts { TakenInParts }
    // A count is how many points there were, at most 2^64 - 1.
    ensures counts { CountsPoints }
{}
