//! What a read gives are bytes: numbers below 256, as the laws of a step ask.

ghost use Rattle.sl_step_law.specs.LastValues.{IsByteInput};
ghost use Rattle.std.specs.List.{list_all};
ghost use Rattle.std.specs.Prelude.{IsTrue, nat_lt};

use sl_sector::Images;
use sl_trace::{Answer, Input};

/// Bytes are below 256.
fn are_bytes(bytes: &[u8])
    ensures { IsTrue (list_all (λ b. nat_lt b 256) bytes.now) }
{
    let _size = bytes.len();
}

/// What an input's answer holds are bytes.
pub(crate) fn is_byte_input(input: &Input)
    ensures { IsByteInput input.now }
{
    match input {
        Input::Answer { call: _, answer } => match answer {
            Answer::Read(bytes) => are_bytes(bytes.as_slice()),
            Answer::Written => {}
            Answer::Failed => {}
        },
        Input::Line(_) => {}
        Input::Number(_) => {}
        Input::Wake => {}
        Input::Exit { process: _ } => {}
        Input::Spawned { process: _, ok: _ } => {}
    }
}

/// What sectors hold are bytes.
#[tactic(auto, using(crate::proofs::SpelledBytes::bytes_on, crate::proofs::SpelledBytes::bytes_so))]
pub(crate) fn are_byte_sectors(sectors: &Images)
    ensures { IsTrue (list_all (λ b. nat_lt b 256) sectors.now.bytes) }
{
    let images = sectors.as_slice();
    for image in images {
        image.is_bytes();
    }
}
