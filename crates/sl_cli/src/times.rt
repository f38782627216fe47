//! The word of times, with which a lockspace's label is written.

ghost use Rattle.sl_cli.specs.PartReadings.{times_read, within_part};
ghost use Rattle.sl_cli.specs.TimesWords.{is_times, times_said};
ghost use Rattle.sl_text.specs.Walks.{left_after, next_part};
ghost use Rattle.sl_time.specs.Times.{IsTiming};
ghost use Rattle.sl_words.specs.Words.{choose};
ghost use Rattle.std.specs.Prelude.{IfOk, IfSome, ◌≡◌, ◌≤◌};

use sl_text::number::read_number_within;
use sl_text::words::Parts;
use sl_time::Timing;

/// The longest of each time, in milliseconds.
const LONGEST: u64 = 600_000;

/// The most drift, in per mille.
const MOST_DRIFT: u64 = 100;

/// What the line `time` of a header says: times, and how long a holder has between term and kill.
#[derive(Clone, Copy)]
pub(crate) struct Times {
    pub timing: Timing,
    pub grace: u64,
}

/// Reads the next part as a number from `low` to `high`.
fn number_part(parts: &mut Parts<'_>, low: u64, high: u64) -> Result<u64, usize>
    ensures exact { result ≡ next_part (within_part low high) parts.old }
    ensures left { parts.new ≡ left_after result parts.old }
    ensures within { IfOk result (λ n. (low ≤ n) × (n ≤ high)) }
{
    parts.accept(
        parts
            .peek()
            .and_then(|part| read_number_within(part, low, high)),
    )
}

/// The times of these numbers.
fn timing_with(io: u64, fire: u64, land: u64, rho: u64) -> Timing
    requires io { (1 ≤ io) × (io ≤ 600000) }
    requires fire { fire ≤ 600000 }
    requires land { land ≤ 600000 }
    requires rho { rho ≤ 100 }
    ensures value { result ≡ record { io = io; fire = fire; land = land; rho = rho } }
    ensures rules { IsTiming result }
{
    match Timing::new(io, fire, land, rho) {
        Ok(timing) => timing,
        Err(_) => unreachable!(),
    }
}

/// Reads the parts of a word of times.
fn times_parts(parts: &mut Parts<'_>) -> Result<Times, usize>
    ensures exact { result ≡ times_read parts.old }
    ensures within { IfOk result (λ t. IsTiming t.timing × (t.grace ≤ 600000)) }
{
    let io = number_part(parts, 1, LONGEST)?;
    let fire = number_part(parts, 0, LONGEST)?;
    let land = number_part(parts, 0, LONGEST)?;
    let rho = number_part(parts, 0, MOST_DRIFT)?;
    let grace = number_part(parts, 0, LONGEST)?;
    parts.finish()?;
    Ok(Times {
        timing: timing_with(io, fire, land, rho),
        grace,
    })
}

/// The times that a word says, if it says some.
pub(crate) fn times_of(word: &str) -> Option<Times>
    ensures exact { result ≡ choose (is_times word.now) (times_said word.now) }
    ensures within { IfSome result (λ t. IsTiming t.timing × (t.grace ≤ 600000)) }
{
    times_parts(&mut Parts::new(word.as_bytes())).ok()
}
