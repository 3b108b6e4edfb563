//! The laws of shares.
ghost use Rattle.gor_model.specs.Objects.{UntouchedStays, AnswerBySharesHeld};

/// The two laws of shares, as clauses: an event leaves the shares of the objects that it does not touch as they were, and
/// its answer and the shares after it of those that it touches depend on their shares before it alone.
pub fn laws()
    ensures untouched { UntouchedStays }
    ensures answer { AnswerBySharesHeld }
{}
