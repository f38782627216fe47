//! Which write of a value it is, and the seq of the next one.
//!
//! This is the lock value block of the VMS lock manager (Kronenberg, Levy and Strecker, *VAXclusters*) on a sector of its own.

ghost use Rattle.std.specs.Prelude.{IfSome, IsNone, ◌↔◌, ◌≡◌, ◌≤◌};
ghost use Rattle.sl_sector.specs.Records.{Fits};
ghost use Rattle.sl_value.specs.Versions as versions;
ghost use Rattle.sl_words.specs.Bounds.{is_number, record_numbers};
ghost use Rattle.sl_words.specs.Words.{choose};

/// What each lver and seq stays below.
const RECORD_NUMBERS: u64 = 1 << 63;

/// Which write of a resource's value it is.
#[derive(Clone, Copy, Debug, PartialEq, Eq)]
pub struct Version {
    /// The instance under which the writer held the resource. Below 2^63.
    pub lver: u64,
    /// How often its session wrote the value under that instance, from 1. Below 2^63.
    pub seq: u64,
}

/// The seq of a session's last write under this instance, and 0 before any.
fn last_seq(last: Option<Version>, lver: u64) -> u64
    ensures { result ≡ versions.last_seq last lver }
{
    match last {
        Some(version) if version.lver == lver => version.seq,
        _ => 0,
    }
}

/// The seq of a session's next write under this instance, where `last` is the version of its last write of the value: one above that
/// one's seq if it was under the same instance, else 1. `None` where that would not be below 2^63.
pub fn next_seq(last: Option<Version>, lver: u64) -> Option<u64>
    ensures exact { let next = versions.next_seq last lver in result ≡ choose (is_number next) next }
    ensures found { IfSome result (λ seq. (seq ≡ versions.next_seq last lver) × (1 ≤ seq) × Fits seq) }
    ensures none { IsNone result ↔ (record_numbers ≤ versions.next_seq last lver) }
{
    let seq = last_seq(last, lver);
    if seq < RECORD_NUMBERS - 1 {
        Some(seq + 1)
    } else {
        None
    }
}
