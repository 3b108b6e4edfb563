//! How a crash tears a call.
ghost use Rattle.std.specs.Prelude.{◌≡◌, ◌≤◌};

/// A part of some bytes.
#[derive(Clone, Copy, Debug, PartialEq, Eq)]
pub enum Share {
    /// The half, or one byte more.
    Half,
    /// As many as this number picks, from none to all.
    Picked(u64),
}

/// What came to the disk of a call that a crash met.
#[derive(Clone, Copy, Debug, PartialEq, Eq)]
pub enum Tear {
    /// Nothing.
    Nothing,
    /// All.
    Whole,
    /// The front of what was written; or a cut that left more of the file.
    Front(Share),
    /// This byte over the front of what was written; or a cut that left such bytes behind the new end.
    Filled(Share, u8),
}

impl Share {
    /// The count of bytes of `n` that it is.
    pub fn of(self, n: usize) -> usize
        ensures { result ≤ n }
    {
        match self {
            Share::Half => n - n / 2,
            Share::Picked(pick) => {
                if n < usize::MAX {
                    (pick % (n as u64 + 1)) as usize
                } else {
                    n
                }
            }
        }
    }
}

// The finalizer of SplitMix64 (Steele, Lea and Flood, OOPSLA 2014), which spreads its bits.
fn mixed(n: u64) -> u64 {
    let a = (n ^ (n >> 30)).wrapping_mul(0xbf58_476d_1ce4_e5b9);
    let b = (a ^ (a >> 27)).wrapping_mul(0x94d0_49bb_1331_11eb);
    b ^ (b >> 31)
}

/// What came of the call at this place to the disk, by the choice: nothing at 0, all at 1, the front at 2, bytes that were
/// never written at 3. Beyond, a generator picks one of these for each call by itself.
pub fn tear_of(choice: u64, place: u64) -> Tear
    ensures { choice ≡ 0 → result ≡ Tear.Nothing }
{
    match choice {
        0 => Tear::Nothing,
        1 => Tear::Whole,
        2 => Tear::Front(Share::Half),
        3 => Tear::Filled(Share::Half, 1),
        _ => picked(mixed(choice.wrapping_add(place.wrapping_mul(0x9e37_79b9_7f4a_7c15)))),
    }
}

fn picked(pick: u64) -> Tear {
    let share = Share::Picked(pick >> 10);
    match pick % 4 {
        0 => Tear::Nothing,
        1 => Tear::Whole,
        2 => Tear::Front(share),
        _ => Tear::Filled(share, ((pick >> 2) % 256) as u8),
    }
}
