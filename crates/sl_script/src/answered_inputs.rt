//! What an input answers.

ghost use Rattle.sl_script.specs.ScriptStates.{heard_in, is_heard, seen_after};
ghost use Rattle.std.specs.Prelude.{◌≡◌};

use sl_trace::{Call as SectorCall, Input};

/// The call, or the start of a child, that an input answers.
#[derive(Clone, Copy)]
pub enum Heard {
    Other,
    Call { number: u64 },
    Start { process: u32 },
}

/// A child that was to be started, and whether its start is answered.
#[derive(Clone, Copy)]
pub struct SeenChild {
    pub process: u32,
    pub answered: bool,
}

impl Heard {
    /// What an input answers: a call, a child's start or exit, or nothing.
    pub fn of(input: &Input) -> Heard
        ensures { result ≡ heard_in input.now }
    {
        match input {
            Input::Answer { call, .. } => Heard::Call { number: *call },
            Input::Spawned { process, .. } => Heard::Start { process: *process },
            _ => Heard::Other,
        }
    }

    /// Whether the input answers this call.
    pub fn answers(self, call: &SectorCall) -> bool
        ensures { result ≡ is_heard self call.now }
    {
        match self {
            Heard::Call { number } => call.number == number,
            _ => false,
        }
    }

    /// What is seen of the child once the input was heard.
    pub fn after(self, child: SeenChild) -> SeenChild
        ensures { result ≡ seen_after self child }
    {
        match self {
            Heard::Start { process } => SeenChild {
                process: child.process,
                answered: process == child.process || child.answered,
            },
            _ => child,
        }
    }
}
