//! What a machine itself takes of the input that its daemon is given.

ghost use Rattle.sl_machine.specs.HeardInputs.{heard_of};
ghost use Rattle.sl_trace.specs.declared.input.Answer.TheVariants.{Read};
ghost use Rattle.sl_trace.specs.declared.input.Input.TheVariants.{Answer as Told};
ghost use Rattle.std.specs.Prelude.{List, None, ℕ, ◌≡◌};

use sl_trace::Input;

/// The call that the input answers, the child whose start it answers, and whether it takes a number.
#[derive(Clone, Copy)]
pub struct Heard {
    pub answered: Option<u64>,
    pub spawned: Option<u32>,
    pub numbered: bool,
}

/// What a machine takes of an input: a call that is answered, a child that has started or exited, or nothing.
pub fn hear(input: &Input) -> Heard
    ensures { result ≡ heard_of input.now }
{
    match input {
        Input::Answer { call, answer: _ } => Heard {
            answered: Some(*call),
            spawned: None,
            numbered: false,
        },
        Input::Spawned { process, ok: _ } => Heard {
            answered: None,
            spawned: Some(*process),
            numbered: false,
        },
        Input::Line(_) => numbered(true),
        Input::Number(_) => numbered(true),
        Input::Wake => numbered(false),
        Input::Exit { process: _ } => numbered(false),
    }
}

/// What is taken of an input that answers neither a call nor a start; whether it takes a line's number.
fn numbered(numbered: bool) -> Heard
    ensures { result ≡ record { answered = None; spawned = None; numbered = numbered } }
{
    Heard {
        answered: None,
        spawned: None,
        numbered,
    }
}

/// What is taken of the answer ok of a read.
pub fn hear_read(call: u64) -> Heard
    ensures { (bytes : List ℕ) → result ≡ heard_of (Told call (Read bytes)) }
{
    Heard {
        answered: Some(call),
        spawned: None,
        numbered: false,
    }
}
