//! What the definition of a transcript comes to.
ghost use Rattle.gor_text.specs.OneHistory.{OneHistory};
ghost use Rattle.gor_text.specs.OneText.{OneText};

/// Two laws, as clauses. For a workload of one lane there is, from the same starts, one text in which nothing is stopped, and
/// one history of each shard but for the moments of its Dones.
///
/// A workload of however many lanes and one text that answers it have, from the same starts, one history of each shard but for
/// these moments. There the names of the starts are names, and lanes, shards and events have numbers of 64 bits.
pub fn laws()
    ensures one_text { OneText }
    ensures one_history { OneHistory }
{}
