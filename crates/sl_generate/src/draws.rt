//! Draws: numbers that follow from a seed.

ghost use Rattle.sl_generate.specs.DrawnRuns.{state_behind};
ghost use Rattle.sl_report.specs.GeneratedSchedules.{draw_of, next_state};
ghost use Rattle.std.specs.Prelude.{◌≡◌};

/// What a draw gives: the upper 31 bits of the state.
const PART: u64 = 1 << 33;

/// The draws of one event.
#[derive(Clone, Copy)]
pub(crate) struct Draws {
    /// For the machine.
    pub(crate) a: u64,
    /// For the kind of the event.
    pub(crate) b: u64,
    /// For what is left to choose.
    pub(crate) c: u64,
}

/// The state of the draws behind this one.
#[tactic(auto, using(crate::proofs::DrawLaws::one_step))]
fn next_state(state: u64) -> u64
    ensures { result ≡ next_state state }
{
    state
        .wrapping_mul(6364136223846793005)
        .wrapping_add(1442695040888963407)
}

/// The next draw.
fn draw(state: &mut u64) -> u64
    ensures state { state.new ≡ next_state state.old }
    ensures drawn { result ≡ draw_of state.new }
{
    *state = next_state(*state);
    *state / PART
}

/// The draws of the next event.
pub(crate) fn draw_event(state: &mut u64) -> Draws
    ensures state { state.new ≡ state_behind state.old }
    ensures a { result.a ≡ draw_of (next_state state.old) }
    ensures b { result.b ≡ draw_of (next_state (next_state state.old)) }
    ensures c { result.c ≡ draw_of (state_behind state.old) }
{
    let a = draw(state);
    let b = draw(state);
    let c = draw(state);
    Draws { a, b, c }
}
