//! Whether an input may come, by what a host keeps.

ghost use Rattle.sl_area.specs.AreaSizes.{layout_of};
ghost use Rattle.sl_host_step.specs.ExpectedInputs.{expected_in, is_answer_of};
ghost use Rattle.sl_host.specs.BookQuestions.{state_in};
ghost use Rattle.std.specs.Option.{option_map_or};
ghost use Rattle.std.specs.Prelude.{false, find, is_none, ◌*◌, ◌==◌, ◌≡◌};

use sl_host::Host;
use sl_host_state::OpenCall;
use sl_trace::{Answer, Input};

/// Whether so many bytes are so many sectors.
fn is_many(host: &Host, bytes: usize, sectors: u32) -> bool
    ensures { result ≡ (bytes == sectors * host.now.kept.config.sizes.sector) }
{
    bytes == sectors as usize * host.config().geometry.sector() as usize
}

/// Whether an answer is one to this call.
fn is_answer_of(host: &Host, answer: &Answer, call: &OpenCall) -> bool
    ensures { result ≡ is_answer_of (layout_of host.now.kept.config.sizes) answer.now call.now }
{
    match (answer, call.sectors) {
        (Answer::Read(bytes), Some(sectors)) => is_many(host, bytes.as_slice().len(), sectors),
        (Answer::Read(_), None) => false,
        (Answer::Written, sectors) => sectors.is_none(),
        (Answer::Failed, _) => true,
    }
}

/// Whether the start of a child of this number is unanswered.
fn is_starting(host: &Host, process: u32) -> bool
    ensures { result ≡ option_map_or (λ k. is_none k.answer) (find (λ k. k.process == process) host.now.kept.children) false }
{
    match host.child(process) {
        Some(child) => !child.started,
        None => false,
    }
}

/// Whether the input may come now: it answers an open call, and fits it, or a start; any other may come at any time.
pub(crate) fn is_expected(host: &Host, input: &Input) -> bool
    ensures { result ≡ expected_in (state_in host.now.kept) input.now }
{
    match input {
        Input::Answer { call, answer } => match host.open_call(*call) {
            Some(open) => is_answer_of(host, answer, open),
            None => false,
        },
        Input::Spawned { process, ok: _ } => is_starting(host, *process),
        _ => true,
    }
}
