//! The marks of a file `marks`.
/// What the file `marks` says in one of its bodies.
#[derive(Clone, Copy, Debug, PartialEq, Eq)]
pub enum Mark {
    /// Whose files these are: `shards` is from 1 to 16, and `shard` is below it.
    Home {
        shards: u32,
        shard: u32,
    },
    /// A window that is sealed. `window` is at most 596,522. `keys` is the number of the key list and of the log from then
    /// on, and `first_log`, which is at most `keys`, that of the first log which still counts. `upto` is the last change
    /// number of the finish, from 1 to 2^63 - 1.
    Sealed {
        window: u32,
        keys: u32,
        upto: u64,
        first_log: u32,
    },
}
