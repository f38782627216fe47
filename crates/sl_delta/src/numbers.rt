//! Numbers that a record may carry, and waits.

ghost use Rattle.sl_words.specs.Bounds.{is_number};
ghost use Rattle.std.specs.Prelude.{nat_le, ◌+◌, ◌<◌, ◌^◌, ◌≡◌};

/// What each number of a record stays below.
const RECORD_NUMBERS: u64 = 1 << 63;

/// Whether a record may carry the next number.
pub fn has_next(number: u64) -> bool
    ensures { result ≡ is_number (number + 1) }
{
    number < RECORD_NUMBERS - 1
}

/// Whether it may carry the next but one.
pub(crate) fn has_two_next(number: u64) -> bool
    ensures { result ≡ is_number (number + 2) }
{
    number < RECORD_NUMBERS - 2
}

/// Whether a wait that began at a reading has passed, all in milliseconds.
pub fn has_passed(from: u64, wait: u64, now: u64) -> bool
    requires { from + wait < 2 ^ 64 }
    ensures { result ≡ nat_le (from + wait) now }
{
    from + wait <= now
}
