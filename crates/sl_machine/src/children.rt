//! The children of a daemon whose start has no answer.

ghost use Rattle.sl_words.specs.Words.{some_is};
ghost use Rattle.std.specs.List.{list_any};
ghost use Rattle.std.specs.Prelude.{filter, length, map, not, ◌++◌, ◌+◌, ◌==◌, ◌≡◌, ◌≤◌};
ghost use Rattle.std.specs.Vec.{vec_capacity, vec_len};

use crate::room::push_within;
use sl_trace::Start;

/// Whether the start of a child is waited for.
pub fn is_starting(starting: &[u32], process: u32) -> bool
    ensures { result ≡ list_any (λ q. q == process) starting.now }
{
    starting.iter().any(|child| *child == process)
}

/// A start is answered.
fn answer_start(starting: &mut Vec<u32>, process: u32)
    ensures items { starting.new.items ≡ filter (λ q. not (process == q)) starting.old.items }
    ensures len { vec_len starting.new ≤ vec_len starting.old }
    ensures room { vec_capacity starting.new ≡ vec_capacity starting.old }
{
    starting.retain(|child| process != *child);
}

/// A start is answered, if one is named.
pub fn hear_start(starting: &mut Vec<u32>, process: Option<u32>)
    ensures items { starting.new.items ≡ filter (λ q. not (some_is (λ p. p == q) process)) starting.old.items }
    ensures len { vec_len starting.new ≤ vec_len starting.old }
    ensures room { vec_capacity starting.new ≡ vec_capacity starting.old }
{
    if let Some(process) = process {
        answer_start(starting, process);
    }
}

/// Children are to be started. They take no memory.
pub fn add_starts(starting: &mut Vec<u32>, starts: &[Start])
    requires { vec_len starting.old + length starts.now ≤ vec_capacity starting.old }
    ensures { starting.new.items ≡ starting.old.items ++ map (λ x. x.process) starts.now }
{
    for start in starts {
        push_within(starting, start.process);
    }
}
