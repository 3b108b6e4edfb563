//! What may cross to another thread.
use gor_hall::{Hall, Pass};
use gor_rule::Thing;

fn needs_send<T: Send>(value: &T) {
    let _ = value;
}

fn needs_sync<T: Sync>(value: &T) {
    let _ = value;
}

/// A hall of values that may only be sent is shared.
pub fn hall_is_shared<V: Thing + Send>(hall: &Hall<V>) {
    needs_sync(hall);
}

/// A pass may be sent.
pub fn pass_is_sent(pass: &Pass) {
    needs_send(pass);
}
